//! Orders that are possible still, return by return.

ghost use Rattle.std.specs.Prelude.{◌≡◌, ◌+◌, ◌^◌, ◌≤◌, ◌<◌, length, min, IfOk, IsTrue};
ghost use Rattle.undo_log.specs.Patches.{standing_of};
ghost use Rattle.verdict_laws.specs.Unread.{ReadsNothing};
ghost use Rattle.finding.specs.Begun.{AllReturned, AllShelved};
ghost use Rattle.finding.specs.Survey.{IsFurther, IsSurvey};

use crate::going::{Reach, Went};
use crate::offers::Offers;
use crate::round::{next_orders, sorted};
use crate::scope::Scope;
use crate::shelved::{Ahead, Orders};
use crate::unread::reads_nothing;
use crate::watch::{Advance, Pace, STEPS, Watch};
use history::History;
use std::alloc::{AllocError, Global};
use std::cmp::min;

/// How far orders are looked at.
#[derive(Clone, Copy)]
pub(crate) struct Bounds {
    /// Up to which place of an event.
    pub(crate) until: usize,
    /// How many orders are kept that lack no call.
    pub(crate) most: usize,
    /// How many steps are tried.
    pub(crate) limit: u64,
    /// How many calls on measurements are tried for an order of all, and how many possibilities of such orders are kept.
    pub(crate) readings: u64,
}

/// What is found return by return.
#[derive(Drop)]
pub(crate) enum Survey {
    /// No order survives the return at the place.
    Lost(u32),
    /// Orders of all calls that returned.
    Kept(Orders),
    /// Neither at the return at the place: orders were left out and none of the others survives it, the limit was reached, or the watch stopped it.
    Undecided(u32),
}

/// What is found past some returns.
#[derive(Drop)]
pub(crate) enum Further {
    /// No order survives the return at the place.
    Lost(u32),
    /// Orders of all calls that returned before the place.
    Kept(Orders, u32),
    /// Neither.
    Undecided(u32),
}

/// Looks for orders return by return.
pub(crate) fn forward<W: Watch>(
    alloc: Global,
    offers: &mut Offers,
    history: &History,
    bounds: Bounds,
    watch: &mut W,
) -> Result<Survey, AllocError>
    ensures { IfOk result (IsSurvey history.now.recorded (min bounds.until (length history.now.recorded.events))) }
{
    let unread = reads_nothing(history);
    let until = end_of(history, bounds);
    let mut kept = Orders::opening(alloc, history)?;
    let mut place = 0;
    let mut pace = Pace::new();
    'places: while place < until {
        if history.reply_at(place as usize).is_none() {
            place += 1;
            continue 'places;
        }
        if offers.count() >= bounds.limit {
            return Ok(Survey::Undecided(place));
        }
        let reach = Reach {
            from: place,
            until,
            unread,
            most: bounds.most,
            steps: min(bounds.limit, offers.count().saturating_add(STEPS)),
        };
        match gone_on(alloc, offers, history, kept, reach, watch, &mut pace)? {
            Further::Kept(orders, next) => {
                if next <= place {
                    return Ok(Survey::Undecided(place));
                }
                kept = orders;
                place = next;
            }
            Further::Lost(at) => return Ok(Survey::Lost(at)),
            Further::Undecided(at) => return Ok(Survey::Undecided(at)),
        }
    }
    Ok(Survey::Kept(kept))
}

/// The place after the last event that is looked at.
fn end_of(history: &History, bounds: Bounds) -> u32
    ensures { result ≡ min bounds.until (length history.now.recorded.events) }
{
    let _fact = history.well_formed();
    min(bounds.until, history.len()) as u32
}

/// The orders past the event at the reach's place, and past those behind it as long as one call after another is tried alone.
fn gone_on<W: Watch>(
    alloc: Global,
    offers: &mut Offers,
    history: &History,
    kept: Orders,
    reach: Reach,
    watch: &mut W,
    pace: &mut Pace,
) -> Result<Further, AllocError>
    requires shelved { AllShelved history.now.recorded (standing_of kept.machine) kept.begun.items }
    requires unread { IsTrue reach.unread → ReadsNothing history.now.recorded.events }
    requires returned { AllReturned history.now.recorded kept.begun.items reach.from }
    requires order { reach.from < reach.until }
    requires until { reach.until ≤ length history.now.recorded.events }
    ensures { IfOk result (IsFurther history.now.recorded kept reach.until) }
{
    let advance = Advance {
        events: reach.from as usize,
        orders: kept.begun.len(),
    };
    if pace.is_due_at(offers.count()) && !watch.goes_on(advance) {
        return Ok(Further::Undecided(reach.from));
    }
    let Ahead { orders, went } = kept.advanced(alloc, offers, history, reach)?;
    let place = match went {
        Went::UpTo(place) => return Ok(Further::Kept(orders, place)),
        Went::Lost(place) => {
            return Ok(if orders.complete {
                Further::Lost(place)
            } else {
                Further::Undecided(place)
            });
        }
        Went::Short(place) => place,
    };
    let scope = Scope {
        place,
        unread: reach.unread,
        most: reach.most,
    };
    past_return(alloc, offers, history, orders, scope, watch, pace)
}

/// The orders past the event at the scope's place, whether or not a call returns there. Neither where the watch stops it, or where one lacks the
/// call still after as many calls as there are CPUs.
fn past_return<W: Watch>(
    alloc: Global,
    offers: &mut Offers,
    history: &History,
    kept: Orders,
    scope: Scope,
    watch: &mut W,
    pace: &mut Pace,
) -> Result<Further, AllocError>
    requires shelved { AllShelved history.now.recorded (standing_of kept.machine) kept.begun.items }
    requires unread { IsTrue scope.unread → ReadsNothing history.now.recorded.events }
    requires fits { scope.place + 1 < 2 ^ 32 }
    ensures { IfOk result (IsFurther history.now.recorded kept (scope.place + 1)) }
{
    if kept.are_up_to(history, scope.place) {
        return Ok(Further::Kept(kept, scope.place + 1));
    }
    let (round, machine) = sorted(alloc, history, kept, scope)?;
    let next = next_orders(alloc, offers, history, machine, round, watch, pace)?;
    let Some(orders) = next else {
        return Ok(Further::Undecided(scope.place));
    };
    if orders.begun.is_empty() {
        return Ok(if orders.complete {
            Further::Lost(scope.place)
        } else {
            Further::Undecided(scope.place)
        });
    }
    if !orders.are_up_to(history, scope.place) {
        return Ok(Further::Undecided(scope.place));
    }
    Ok(Further::Kept(orders, scope.place + 1))
}
