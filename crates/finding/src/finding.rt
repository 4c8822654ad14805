//! Orders found from a history alone.

ghost use Rattle.std.specs.Prelude.{IfOk, IfSome};
ghost use Rattle.finding.specs.Found.{HasNoneUpTo, IsDecided, IsFound, IsFoundWatched};

use crate::forward::Bounds;
use crate::guessed::{Shown, guessed};
use crate::naming::{Beginning, beginning_up_to, named_before, named_place};
use crate::offers::Offers;
use crate::slices::{Sliced, look_at_slices};
use crate::survey::{Answer, FIRST, answer_of};
use crate::suspecting::Suspect;
use crate::unread::reads_nothing;
use crate::watch::{Unwatched, Watch};
use certificate::Certificate;
use history::History;
use std::alloc::{AllocError, Global};
use std::cmp::max;
use verdict_laws::first_parts_have_orders;

/// How many orders that lack no call are kept at first.
const FIRST_MOST: usize = 64;

/// How many times as many are kept where orders were left out, and calls on measurements tried.
const WIDER: usize = 8;

/// How many calls on measurements are tried at first.
const FIRST_READINGS: u64 = 1 << 19;

/// What was found of a history.
#[derive(Drop)]
pub enum Found {
    /// A linearization.
    Order(Certificate),
    /// No certificate is one; nor is one of the history that ends after the return at the place, where it is named.
    None(Option<u32>),
    /// Neither: so many steps were tried within the limit, or before the watch stopped the search.
    GaveUp(Offers),
}

/// Looks for an order of the history's calls that is a linearization, and gives up once so many steps are tried.
pub fn find(alloc: Global, history: &History, limit: u64) -> Result<Found, AllocError>
    ensures { IfOk result (IsFound history.now.recorded limit) }
{
    find_watched(alloc, history, limit, &mut Unwatched)
}

/// Looks for an order as `find` does, and gives up too once its watch says so.
pub fn find_watched<W: Watch>(
    alloc: Global,
    history: &History,
    limit: u64,
    watch: &mut W,
) -> Result<Found, AllocError>
    ensures { IfOk result (IsFoundWatched history.now.recorded limit (W.has_stopped watch.new)) }
{
    let mut offers = Offers::none();
    let mut suspected = None;
    if limit > 0 && watch.goes_on(FIRST) {
        match guessed(alloc, &mut offers, history, limit, watch)? {
            Shown::Linearization(order) => return Ok(Found::Order(order)),
            Shown::Lost(place) => return Ok(none_up_to(history, place)),
            Shown::Fails(failing) => suspected = failing,
        }
    }
    if let Some(first) = suspected {
        let bounds = bounds_at_first(history, limit);
        match look_at_slices(alloc, &mut offers, history, bounds, first, watch)? {
            Sliced::Lost(place) => return Ok(none_up_to(history, place)),
            Sliced::Open(later) => suspected = later,
        }
    }
    find_wider(alloc, offers, history, limit, suspected, watch)
}

/// Looks for orders return by return, and keeps more of them each time that some were left out.
fn find_wider<W: Watch>(
    alloc: Global,
    offers: Offers,
    history: &History,
    limit: u64,
    suspected: Option<Suspect>,
    watch: &mut W,
) -> Result<Found, AllocError>
    ensures { IfOk result (IsFoundWatched history.now.recorded limit (W.has_stopped watch.new)) }
{
    let mut offers = offers;
    let mut suspected = suspected;
    let mut most = FIRST_MOST;
    let mut readings = FIRST_READINGS;
    'wider: while offers.count() < limit {
        if !watch.goes_on(FIRST) {
            return Ok(Found::GaveUp(offers));
        }
        let bounds = Bounds {
            until: history.len(),
            most,
            limit: limit - offers.count(),
            readings,
        };
        let mut made = Offers::none();
        let found = look(alloc, &mut made, history, bounds, &mut suspected, watch)?;
        if let Some(found) = found {
            return Ok(found);
        }
        offers.add(max(made.count(), 1));
        most = most.saturating_mul(WIDER);
        readings = readings.saturating_mul(WIDER as u64);
    }
    Ok(Found::GaveUp(offers))
}

/// Looks once: first at the events up to the return that is suspected to have no order, until it is known that they have one, and then at all.
fn look<W: Watch>(
    alloc: Global,
    offers: &mut Offers,
    history: &History,
    bounds: Bounds,
    suspected: &mut Option<Suspect>,
    watch: &mut W,
) -> Result<Option<Found>, AllocError>
    ensures { IfOk result (λ found. IfSome found (IsDecided history.now.recorded)) }
{
    if let Some(suspect) = *suspected {
        match beginning_up_to(alloc, offers, history, bounds, suspect.place, false, watch)? {
            Beginning::Lost(place) => {
                return found_none_up_to(alloc, offers, history, bounds, place, suspect, watch);
            }
            Beginning::Ordered => *suspected = None,
            Beginning::Open if reads_nothing(history) => return Ok(None),
            Beginning::Open => {}
        }
    }
    match answer_of(alloc, offers, history, bounds, true, watch)? {
        Answer::Order(order) => Ok(Some(Found::Order(order))),
        Answer::Lost(place) => {
            let named = named_place(alloc, offers, history, bounds, place, watch)?;
            Ok(Some(Found::None(named)))
        }
        Answer::Open => Ok(None),
    }
}

/// There is none, since the events up to a suspected return have none: the return that is named is there or at an earlier place, from `place` on.
fn found_none_up_to<W: Watch>(
    alloc: Global,
    offers: &mut Offers,
    history: &History,
    bounds: Bounds,
    place: u32,
    suspect: Suspect,
    watch: &mut W,
) -> Result<Option<Found>, AllocError>
    requires { HasNoneUpTo history.now.recorded suspect.place }
    ensures { IfOk result (λ found. IfSome found (IsDecided history.now.recorded)) }
{
    let named = named_before(alloc, offers, history, bounds, place, suspect, watch)?;
    let found = none_up_to(history, named);
    Ok(Some(found))
}

/// There is none, since the events up to the place have none.
fn none_up_to(history: &History, place: u32) -> Found
    requires { HasNoneUpTo history.now.recorded place }
    ensures { IsDecided history.now.recorded result }
{
    let _fact = history.well_formed();
    let _law = first_parts_have_orders();
    Found::None(Some(place))
}

/// How far is looked at first.
fn bounds_at_first(history: &History, limit: u64) -> Bounds {
    Bounds {
        until: history.len(),
        most: FIRST_MOST,
        limit,
        readings: FIRST_READINGS,
    }
}
