//! Returns that no order of a slice survives.

ghost use Rattle.std.specs.Prelude.{[], IfOk, IfSome, IsTrue};
ghost use Rattle.verdict_laws.specs.Order.{LeadsNowhere};
ghost use Rattle.verdict_laws.specs.Parts.{first_part};
ghost use Rattle.finding.specs.Found.{HasNoneUpTo};
ghost use Rattle.finding.specs.Naming.{IsSliced};

use crate::forward::Bounds;
use crate::offers::Offers;
use crate::survey::{Answer, answer_of};
use crate::suspecting::{Suspect, first_unguessed, is_guessed_before, open_returns};
use crate::watch::Watch;
use history::History;
use slicing::{Depth, is_denied, is_out_of_place, slice_of};
use std::alloc::{AllocError, Global};

/// What slices show where a guess fails.
#[derive(Drop)]
pub(crate) enum Sliced {
    /// The events up to the place have no order, and an order is guessed of those before it.
    Lost(u32),
    /// Nothing. A return may be suspected still.
    Open(Option<Suspect>),
}

/// Looks at slices for the return at which a guess fails, and else for the one that is suspected then.
pub(crate) fn look_at_slices<W: Watch>(
    alloc: Global,
    offers: &mut Offers,
    history: &History,
    bounds: Bounds,
    first: Suspect,
    watch: &mut W,
) -> Result<Sliced, AllocError>
    ensures { IfOk result (IsSliced history.now.recorded) }
{
    let place = first.place;
    if let Some(denied) = denied_from(alloc, offers, history, first)? {
        return Ok(Sliced::Lost(denied));
    }
    if first.is_first && is_lost_in_slice(alloc, offers, history, bounds, place, watch)? {
        return Ok(Sliced::Lost(place));
    }
    let Some(suspect) = first_unguessed(alloc, offers, history, first)? else {
        return Ok(Sliced::Open(None));
    };
    let later = suspect.place;
    if !suspect.is_first || later == place {
        return Ok(Sliced::Open(Some(suspect)));
    }
    if is_denied_at(history, later) {
        return Ok(Sliced::Lost(later));
    }
    if is_lost_in_slice(alloc, offers, history, bounds, later, watch)? {
        return Ok(Sliced::Lost(later));
    }
    Ok(Sliced::Open(Some(suspect)))
}

/// The place of the first return, from that at which a guess fails on, whose reply alone shows that the events up to there have no order, and before
/// which an order is guessed: the call may be needed before it returns, and for another reply.
fn denied_from(
    alloc: Global,
    offers: &mut Offers,
    history: &History,
    first: Suspect,
) -> Result<Option<u32>, AllocError>
    ensures { IfOk result (λ denied. IfSome denied (HasNoneUpTo history.now.recorded)) }
{
    if !first.is_first {
        return Ok(None);
    }
    let place = first.place;
    if is_denied_at(history, place) {
        return Ok(Some(place));
    }
    let Some(denied) = first_denied(history, &open_returns(history, place)) else {
        return Ok(None);
    };
    if is_guessed_before(alloc, offers, history, place, denied)? {
        return Ok(Some(denied));
    }
    Ok(None)
}

/// The first of the places at which a reply alone shows that the events up to there have no order.
fn first_denied(history: &History, returns: &[Option<u32>; 8]) -> Option<u32>
    ensures { IfSome result (HasNoneUpTo history.now.recorded) }
{
    let mut first = None;
    for returned in returns {
        let Some(returned) = *returned else {
            continue;
        };
        if !is_before(returned, first) {
            continue;
        }
        if is_denied_at(history, returned) {
            first = Some(returned);
        }
    }
    first
}

fn is_before(place: u32, other: Option<u32>) -> bool {
    match other {
        Some(other) => place < other,
        None => true,
    }
}

/// Whether the reply at the place alone shows that the events up to there have no order.
fn is_denied_at(history: &History, place: u32) -> bool
    ensures { IsTrue result → HasNoneUpTo history.now.recorded place }
{
    if place as usize >= history.len() {
        return false;
    }
    let _fact = history.well_formed();
    let count = place + 1;
    is_out_of_place(history, count) || is_denied(history, count)
}

/// Whether the events up to the place are shown to have no order.
fn is_lost_in_slice<W: Watch>(
    alloc: Global,
    offers: &mut Offers,
    history: &History,
    bounds: Bounds,
    place: u32,
    watch: &mut W,
) -> Result<bool, AllocError>
    ensures { IfOk result (λ lost. IsTrue lost → HasNoneUpTo history.now.recorded place) }
{
    if place as usize >= history.len() {
        return Ok(false);
    }
    let _fact = history.well_formed();
    let lost = are_lost(alloc, offers, history, bounds, place + 1, watch)?;
    Ok(lost)
}

/// Whether the first events, so many, are shown to have no order by a slice: of what the last reply shows, of what calls left unused before, or of
/// all that was made before.
fn are_lost<W: Watch>(
    alloc: Global,
    offers: &mut Offers,
    history: &History,
    bounds: Bounds,
    count: u32,
    watch: &mut W,
) -> Result<bool, AllocError>
    ensures { IfOk result (λ lost. IsTrue lost → LeadsNowhere (first_part count history.now.recorded) []) }
{
    if is_lost_at(alloc, offers, history, bounds, count, Depth::Shown, watch)? {
        return Ok(true);
    }
    if is_lost_at(alloc, offers, history, bounds, count, Depth::Left, watch)? {
        return Ok(true);
    }
    is_lost_at(alloc, offers, history, bounds, count, Depth::Made, watch)
}

/// Whether the slice of the first events, so many, has no order.
fn is_lost_at<W: Watch>(
    alloc: Global,
    offers: &mut Offers,
    history: &History,
    bounds: Bounds,
    count: u32,
    depth: Depth,
    watch: &mut W,
) -> Result<bool, AllocError>
    ensures { IfOk result (λ lost. IsTrue lost → LeadsNowhere (first_part count history.now.recorded) []) }
{
    let Some(slice) = slice_of(alloc, history, count, depth)? else {
        return Ok(false);
    };
    let bounds = Bounds {
        until: slice.len(),
        ..bounds
    };
    let answer = answer_of(alloc, offers, &slice, bounds, false, watch)?;
    match answer {
        Answer::Lost(_) => Ok(true),
        Answer::Order(_) | Answer::Open => Ok(false),
    }
}
