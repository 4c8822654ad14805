//! The return that no order survives.

ghost use Rattle.std.specs.Prelude.{◌≤◌, IfOk, IfSome, IsTrue};
ghost use Rattle.finding.specs.Found.{HasNoneUpTo};
ghost use Rattle.finding.specs.Naming.{IsBeginning};

use crate::first_part::first_part;
use crate::forward::{Bounds, Survey, forward};
use crate::guessed::is_guessed_soon;
use crate::offers::Offers;
use crate::survey::{Answer, answer_of};
use crate::suspecting::{Suspect, first_unguessed, last_return};
use crate::unread::{reads_nothing, unread};
use crate::watch::Watch;
use history::History;
use std::alloc::{AllocError, Global};
use std::cmp::{max, min};

/// How many orders are kept to name a return once it is known that there is no order.
const MOST: usize = 512;

/// How many steps are tried at most to name it.
const TRIED: u64 = 8_000_000;

/// How many steps are tried for each event to find an earlier return than a reading that has no order.
const STEPS_A_PLACE: u64 = 16;

/// What is found of a history's events up to a place.
#[derive(Drop)]
pub(crate) enum Beginning {
    /// They have no order: none survives the return at the place.
    Lost(u32),
    /// They have one.
    Ordered,
    /// Neither.
    Open,
}

/// The place of the first return up to which the history has no order, from a place on at which none is left: a call that is open there may show
/// that by the reply with which it returns later. None where that isn't found within so many steps.
pub(crate) fn named_place<W: Watch>(
    alloc: Global,
    offers: &mut Offers,
    history: &History,
    bounds: Bounds,
    place: u32,
    watch: &mut W,
) -> Result<Option<u32>, AllocError>
    ensures { IfOk result (λ named. IfSome named (HasNoneUpTo history.now.recorded)) }
{
    let bounds = bounds_for(offers, bounds);
    let place = unread_place(alloc, offers, history, bounds, place, watch)?;
    let suspect = Suspect {
        place,
        is_first: false,
    };
    if let Some(first) = first_unguessed(alloc, offers, history, suspect)? {
        if is_lost_up_to(alloc, offers, history, bounds, first.place, watch)? {
            let named = named_before(alloc, offers, history, bounds, place, first, watch)?;
            return Ok(Some(named));
        }
    }
    if is_lost_up_to(alloc, offers, history, bounds, place, watch)? {
        return Ok(Some(place));
    }
    let last = last_return(history, place);
    if last == place || !is_lost_up_to(alloc, offers, history, bounds, last, watch)? {
        return Ok(None);
    }
    let named = first_lost(alloc, offers, history, bounds, place, last, watch)?;
    Ok(Some(named))
}

/// The same, up to a suspected return, where the events up to there have no order.
pub(crate) fn named_before<W: Watch>(
    alloc: Global,
    offers: &mut Offers,
    history: &History,
    bounds: Bounds,
    place: u32,
    suspect: Suspect,
    watch: &mut W,
) -> Result<u32, AllocError>
    requires { HasNoneUpTo history.now.recorded suspect.place }
    ensures { IfOk result (HasNoneUpTo history.now.recorded) }
{
    let last = suspect.place;
    if last <= place || suspect.is_first {
        return Ok(last);
    }
    let bounds = bounds_for(offers, bounds);
    if !is_lost_up_to(alloc, offers, history, bounds, last - 1, watch)? {
        return Ok(last);
    }
    if is_lost_up_to(alloc, offers, history, bounds, place, watch)? {
        return Ok(place);
    }
    first_lost(alloc, offers, history, bounds, place, last, watch)
}

/// How far is looked to name a return.
fn bounds_for(offers: &Offers, bounds: Bounds) -> Bounds {
    Bounds {
        most: max(bounds.most, MOST),
        limit: min(bounds.limit, offers.count().saturating_add(TRIED)),
        ..bounds
    }
}

/// The place, or an earlier one of a return that no order survives of the history without readings, where one is found soon: a call that was given
/// another reply may show in a later reading alone.
fn unread_place<W: Watch>(
    alloc: Global,
    offers: &mut Offers,
    history: &History,
    bounds: Bounds,
    place: u32,
    watch: &mut W,
) -> Result<u32, AllocError> {
    if reads_nothing(history) {
        return Ok(place);
    }
    let Some(unread) = unread(alloc, history)? else {
        return Ok(place);
    };
    let soon = u64::from(place).saturating_mul(STEPS_A_PLACE);
    let near = Bounds {
        until: place as usize,
        limit: min(bounds.limit, offers.count().saturating_add(soon)),
        ..bounds
    };
    match forward(alloc, offers, &unread, near, watch)? {
        Survey::Lost(earlier) => Ok(min(earlier, place)),
        _ => Ok(place),
    }
}

/// The first place after one up to which there is an order, and up to another where there is none.
fn first_lost<W: Watch>(
    alloc: Global,
    offers: &mut Offers,
    history: &History,
    bounds: Bounds,
    place: u32,
    last: u32,
    watch: &mut W,
) -> Result<u32, AllocError>
    requires after { place ≤ last }
    requires none { HasNoneUpTo history.now.recorded last }
    ensures { IfOk result (HasNoneUpTo history.now.recorded) }
{
    let mut before = place;
    let mut lost = last;
    'halves: while lost - before > 1 {
        let middle = before + (lost - before) / 2;
        if is_lost_up_to(alloc, offers, history, bounds, middle, watch)? {
            lost = middle;
        } else {
            before = middle;
        }
    }
    Ok(lost)
}

/// Whether it is found that the events up to the place have no order.
fn is_lost_up_to<W: Watch>(
    alloc: Global,
    offers: &mut Offers,
    history: &History,
    bounds: Bounds,
    place: u32,
    watch: &mut W,
) -> Result<bool, AllocError>
    ensures { IfOk result (λ lost. IsTrue lost → HasNoneUpTo history.now.recorded place) }
{
    match beginning_up_to(alloc, offers, history, bounds, place, true, watch)? {
        Beginning::Lost(_) => Ok(true),
        Beginning::Ordered | Beginning::Open => Ok(false),
    }
}

/// Looks at the events up to the place. Where measurements are read, it looks at them as they are only if that is asked; then a guess may show
/// sooner that they have an order.
pub(crate) fn beginning_up_to<W: Watch>(
    alloc: Global,
    offers: &mut Offers,
    history: &History,
    bounds: Bounds,
    place: u32,
    as_they_are: bool,
    watch: &mut W,
) -> Result<Beginning, AllocError>
    ensures { IfOk result (IsBeginning history.now.recorded place) }
{
    let count = place as usize + 1;
    if count > history.len() {
        return Ok(Beginning::Open);
    }
    let Some(part) = first_part(alloc, history, count)? else {
        return Ok(Beginning::Open);
    };
    if as_they_are && is_guessed_soon(alloc, offers, &part)? {
        return Ok(Beginning::Ordered);
    }
    let answer = answer_of(alloc, offers, &part, bounds, as_they_are, watch)?;
    match answer {
        Answer::Lost(lost) => Ok(Beginning::Lost(lost)),
        Answer::Order(_) => Ok(Beginning::Ordered),
        Answer::Open => Ok(Beginning::Open),
    }
}
