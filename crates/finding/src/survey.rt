//! One look at a history.

ghost use Rattle.std.specs.Prelude.{[], IfOk, IfSome};
ghost use Rattle.rmm_spec.specs.Linearization.{IsLinearization};
ghost use Rattle.verdict_laws.specs.Order.{LeadsNowhere};
ghost use Rattle.finding.specs.Survey.{IsAnswer};

use crate::allowed::Allowed;
use crate::forward::{Bounds, Survey, forward};
use crate::judging::{Judged, judgement_of};
use crate::lines::certificate_of;
use crate::offers::Offers;
use crate::shelved::{Orders, Shelved};
use crate::trail::Trail;
use crate::unread::{reads_nothing, unread};
use crate::watch::{Advance, Watch};
use certificate::Certificate;
use guessing::{Arranged, Tries, arranged};
use history::History;
use registers::{Asked, lost_register};
use std::alloc::{AllocError, Global};
use std::cmp::{max, min};

/// How many orders are judged.
const JUDGED: usize = 4;

/// How many possibilities of all registers are kept at most beside a few of each, once orders without readings are known.
const MOST_SPARE: u64 = 1 << 21;

/// Up to how many steps the history is looked at as it is at least.
const LEAST: u64 = 1 << 20;

/// How far it is before the first event.
pub(crate) const FIRST: Advance = Advance {
    events: 0,
    orders: 1,
};

/// What a look at a history finds.
#[derive(Drop)]
pub(crate) enum Answer {
    /// A linearization.
    Order(Certificate),
    /// There is none: no order survives the return at the place.
    Lost(u32),
    /// Neither.
    Open,
}

/// Looks for orders return by return, last, if that is asked, of the history as it is where measurements are read: for about as long as before.
pub(crate) fn answer_of<W: Watch>(
    alloc: Global,
    offers: &mut Offers,
    history: &History,
    bounds: Bounds,
    as_it_is: bool,
    watch: &mut W,
) -> Result<Answer, AllocError>
    ensures { IfOk result (IsAnswer history.now.recorded) }
{
    let answer = answer_soon(alloc, offers, history, bounds, watch)?;
    match answer {
        Answer::Open => {
            if !as_it_is || reads_nothing(history) {
                return Ok(Answer::Open);
            }
            let tried = offers.count().saturating_mul(2);
            let bounds = Bounds {
                limit: min(bounds.limit, max(tried, LEAST)),
                ..bounds
            };
            answer_forward(alloc, offers, history, bounds, watch)
        }
        answer => Ok(answer),
    }
}

/// Looks for orders return by return. Where measurements are read, it asks first of each register whether its own calls have an order, and then
/// of the history without readings whether it has one: where either has none, this has none.
fn answer_soon<W: Watch>(
    alloc: Global,
    offers: &mut Offers,
    history: &History,
    bounds: Bounds,
    watch: &mut W,
) -> Result<Answer, AllocError>
    ensures { IfOk result (IsAnswer history.now.recorded) }
{
    if reads_nothing(history) {
        return answer_forward(alloc, offers, history, bounds, watch);
    }
    if offers.count() >= bounds.limit || !watch.goes_on(FIRST) {
        return Ok(Answer::Open);
    }
    let lost = lost_register(alloc, history, Asked::All, &mut 0)?;
    if let Some(place) = lost {
        return Ok(Answer::Lost(place));
    }
    answer_unread(alloc, offers, history, bounds, watch)
}

/// Asks of each register once more, with more possibilities of its calls, each of which counts as a step.
fn answer_of_registers(
    alloc: Global,
    offers: &mut Offers,
    history: &History,
    bounds: Bounds,
) -> Result<Answer, AllocError>
    ensures { IfOk result (IsAnswer history.now.recorded) }
{
    let _fact = history.well_formed();
    let first = min(MOST_SPARE, readings_left(offers, bounds)) as usize;
    let mut spare = first;
    let lost = lost_register(alloc, history, Asked::All, &mut spare)?;
    offers.add(first.saturating_sub(spare) as u64);
    match lost {
        Some(place) => Ok(Answer::Lost(place)),
        None => Ok(Answer::Open),
    }
}

/// How many calls on measurements may be tried.
fn readings_left(offers: &Offers, bounds: Bounds) -> u64 {
    min(bounds.readings, bounds.limit.saturating_sub(offers.count()))
}

/// Looks for orders of the history as it is.
fn answer_forward<W: Watch>(
    alloc: Global,
    offers: &mut Offers,
    history: &History,
    bounds: Bounds,
    watch: &mut W,
) -> Result<Answer, AllocError>
    ensures { IfOk result (IsAnswer history.now.recorded) }
{
    let found = forward(alloc, offers, history, bounds, watch)?;
    match found {
        Survey::Lost(place) => Ok(Answer::Lost(place)),
        Survey::Kept(orders) => answer_among(alloc, offers, history, &orders),
        Survey::Undecided(_) => Ok(Answer::Open),
    }
}

/// Looks for orders of the history without readings of measurements. Half of the steps that are left are tried for it at most.
fn answer_unread<W: Watch>(
    alloc: Global,
    offers: &mut Offers,
    history: &History,
    bounds: Bounds,
    watch: &mut W,
) -> Result<Answer, AllocError>
    ensures { IfOk result (IsAnswer history.now.recorded) }
{
    let _fact = history.well_formed();
    let Some(unread) = unread(alloc, history)? else {
        return Ok(Answer::Open);
    };
    let count = offers.count();
    let half = Bounds {
        limit: count.saturating_add(bounds.limit.saturating_sub(count) / 2),
        ..bounds
    };
    let found = forward(alloc, offers, &unread, half, watch)?;
    match found {
        Survey::Lost(place) => Ok(Answer::Lost(place)),
        Survey::Kept(orders) => answer_of_kept(alloc, offers, history, &orders, bounds, watch),
        Survey::Undecided(_) => Ok(Answer::Open),
    }
}

/// One of the orders that are kept of the history without readings, with its calls on measurements arranged; or else what many possibilities of
/// each register's calls show.
fn answer_of_kept<W: Watch>(
    alloc: Global,
    offers: &mut Offers,
    history: &History,
    orders: &Orders,
    bounds: Bounds,
    watch: &mut W,
) -> Result<Answer, AllocError>
    ensures { IfOk result (IsAnswer history.now.recorded) }
{
    let mut tries = Allowed::new(watch, readings_left(offers, bounds));
    let answer = answer_arranged(alloc, offers, history, orders, &mut tries)?;
    tries.count(offers);
    match answer {
        Answer::Open => answer_of_registers(alloc, offers, history, bounds),
        answer => Ok(answer),
    }
}

/// One of the first orders that is a linearization, if one is.
fn answer_among(
    alloc: Global,
    offers: &mut Offers,
    history: &History,
    orders: &Orders,
) -> Result<Answer, AllocError>
    ensures { IfOk result (IsAnswer history.now.recorded) }
{
    for order in orders.begun.as_slice().iter().take(JUDGED) {
        let steps = orders.trail.up_to(alloc, order.last)?;
        let cpus = steps.cpus(alloc)?;
        let lines = certificate_of(alloc, history, cpus.as_slice(), steps.claims.as_slice())?;
        if let Judged::Linearization(order) = judgement_of(alloc, offers, history, lines)? {
            return Ok(Answer::Order(order));
        }
    }
    Ok(Answer::Open)
}

/// One of the first orders that is a linearization once its calls on measurements are arranged anew, if one is.
fn answer_arranged<T: Tries>(
    alloc: Global,
    offers: &mut Offers,
    history: &History,
    orders: &Orders,
    tries: &mut T,
) -> Result<Answer, AllocError>
    ensures { IfOk result (IsAnswer history.now.recorded) }
{
    for order in orders.begun.as_slice().iter().take(JUDGED) {
        let lines = arranged_lines(alloc, history, &orders.trail, order, tries)?;
        let certificate = lines.certificate;
        if let Judged::Linearization(order) = judgement_of(alloc, offers, history, certificate)? {
            return Ok(Answer::Order(order));
        }
        if !lines.reads_all {
            return Ok(Answer::Open);
        }
    }
    Ok(Answer::Open)
}

/// The lines of an order, its calls on measurements arranged anew.
#[derive(Drop)]
pub(crate) struct Lines {
    pub(crate) certificate: Certificate,
    /// Whether each call on a measurement reads what it read.
    pub(crate) reads_all: bool,
}

/// The lines of an order that is kept, once its calls on measurements are arranged anew.
pub(crate) fn arranged_lines<T: Tries>(
    alloc: Global,
    history: &History,
    trail: &Trail,
    order: &Shelved,
    tries: &mut T,
) -> Result<Lines, AllocError> {
    let steps = trail.up_to(alloc, order.last)?;
    let Arranged { cpus, unread } = arranged(alloc, history, steps.placed.as_slice(), tries)?;
    let certificate = certificate_of(alloc, history, cpus.as_slice(), steps.claims.as_slice())?;
    Ok(Lines {
        certificate,
        reads_all: unread.is_none(),
    })
}
