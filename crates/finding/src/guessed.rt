//! Guesses, judged.

ghost use Rattle.std.specs.Prelude.{IfOk, IfSome};
ghost use Rattle.finding.specs.Found.{HasNoneUpTo};
ghost use Rattle.finding.specs.Shown.{IsShown};

use crate::allowed::Allowed;
use crate::first_part::first_part;
use crate::judging::{Judged, judgement_of};
use crate::lines::certificate_of;
use crate::offers::Offers;
use crate::suspecting::Suspect;
use crate::watch::{Unwatched, Watch};
use certificate::Certificate;
use guessing::{GuessedOrder, Unread, guess};
use history::History;
use registers::{Asked, lost_register};
use std::alloc::{AllocError, Global};
use std::cmp::min;

/// How many calls on measurements are tried at first, beside some for each.
pub(crate) const SOON: u64 = 1 << 14;

/// How many are tried where no register is known to have no order.
const LATER: u64 = 1 << 18;

/// What a guess shows.
#[derive(Drop)]
pub(crate) enum Shown {
    /// A linearization.
    Linearization(Certificate),
    /// Nothing. A return may be suspected.
    Fails(Option<Suspect>),
    /// The events up to the return of a reading at the place have no order, and an order is guessed of those before it.
    Lost(u32),
}

/// What the guess shows. Where a reading isn't explained soon, it is asked whether its register's calls have an order, and else an order for
/// them is looked for longer.
pub(crate) fn guessed<W: Watch>(
    alloc: Global,
    offers: &mut Offers,
    history: &History,
    limit: u64,
    watch: &mut W,
) -> Result<Shown, AllocError>
    ensures { IfOk result (IsShown history.now.recorded) }
{
    let soon = guessed_soon(alloc, offers, history)?;
    let Some(unread) = soon.unread else {
        return judged_guess(alloc, offers, history, soon);
    };
    if is_before(unread, soon.unexplained) {
        if let Some(place) = lost_reading(alloc, history, unread)? {
            return Ok(Shown::Lost(place));
        }
    }
    let judged = judged_guess(alloc, offers, history, soon)?;
    if is_linearization(&judged) || is_lost(alloc, history, unread)? {
        return Ok(judged);
    }
    let later = min(LATER, limit.saturating_sub(offers.count()));
    let mut tries = Allowed::new(watch, later);
    let order = guess(alloc, history, &mut tries)?;
    tries.count(offers);
    judged_guess(alloc, offers, history, order)
}

/// Whether a guess soon is a linearization.
pub(crate) fn is_guessed_soon(
    alloc: Global,
    offers: &mut Offers,
    history: &History,
) -> Result<bool, AllocError> {
    let soon = guessed_soon(alloc, offers, history)?;
    if soon.unread.is_some() {
        return Ok(false);
    }
    let judged = judged_guess(alloc, offers, history, soon)?;
    Ok(is_linearization(&judged))
}

/// A guess for which few calls on measurements are tried. Each that is tried counts as a step.
fn guessed_soon(
    alloc: Global,
    offers: &mut Offers,
    history: &History,
) -> Result<GuessedOrder, AllocError> {
    let mut unwatched = Unwatched;
    let mut tries = Allowed::new(&mut unwatched, SOON);
    let order = guess(alloc, history, &mut tries)?;
    tries.count(offers);
    Ok(order)
}

/// Whether the reading returns before the return, if any, that isn't explained.
fn is_before(unread: Unread, unexplained: Option<u32>) -> bool {
    match unexplained {
        Some(place) => unread.place < place,
        None => true,
    }
}

/// The place of the reading's return, where the calls of its register up to there have no order.
fn lost_reading(alloc: Global, history: &History, unread: Unread) -> Result<Option<u32>, AllocError>
    ensures { IfOk result (λ lost. IfSome lost (HasNoneUpTo history.now.recorded)) }
{
    let place = unread.place;
    if place as usize >= history.len() {
        return Ok(None);
    }
    let Some(part) = first_part(alloc, history, place as usize + 1)? else {
        return Ok(None);
    };
    let lost = lost_register(alloc, &part, asked_for(unread), &mut 0)?;
    match lost {
        Some(_) => Ok(Some(place)),
        None => Ok(None),
    }
}

/// Whether the calls of the reading's register have no order.
fn is_lost(alloc: Global, history: &History, unread: Unread) -> Result<bool, AllocError> {
    let lost = lost_register(alloc, history, asked_for(unread), &mut 0)?;
    Ok(lost.is_some())
}

/// The register that is read.
fn asked_for(unread: Unread) -> Asked {
    Asked::One {
        rd: unread.rd,
        number: unread.number,
    }
}

fn is_linearization(shown: &Shown) -> bool {
    matches!(shown, Shown::Linearization(_))
}

/// The guess, judged.
fn judged_guess(
    alloc: Global,
    offers: &mut Offers,
    history: &History,
    order: GuessedOrder,
) -> Result<Shown, AllocError>
    ensures { IfOk result (IsShown history.now.recorded) }
{
    let GuessedOrder {
        cpus,
        claims,
        unexplained,
        unread,
    } = order;
    let unexplained = unexplained.map(|place| Suspect {
        place,
        is_first: true,
    });
    if unread.is_none() && unexplained.is_some() {
        return Ok(Shown::Fails(unexplained));
    }
    let order = certificate_of(alloc, history, cpus.as_slice(), claims.as_slice())?;
    let judged = judgement_of(alloc, offers, history, order)?;
    match judged {
        Judged::Linearization(order) => Ok(Shown::Linearization(order)),
        Judged::Fails(failing) => Ok(Shown::Fails(earlier(failing, unexplained))),
    }
}

/// The earlier of two returns, where there are two.
fn earlier(one: Option<Suspect>, other: Option<Suspect>) -> Option<Suspect> {
    match (one, other) {
        (Some(one), Some(other)) if other.place < one.place => Some(other),
        (None, other) => other,
        (one, _) => one,
    }
}
