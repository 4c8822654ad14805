//! Orders that are told where there is none of all calls.

ghost use Rattle.std.specs.Prelude.{IfOk};
ghost use Rattle.std.specs.List.{All};
ghost use Rattle.rmm_spec.specs.FirstFault.{Passes};
ghost use Rattle.rmm_spec.specs.State.{State};

use crate::allowed::Allowed;
use crate::forward::{Bounds, Survey, forward};
use crate::judging::passing;
use crate::offers::Offers;
use crate::shelved::Orders;
use crate::survey::arranged_lines;
use crate::unread::{reads_nothing, unread};
use crate::watch::{Unwatched, Watch};
use certificate::Certificate;
use history::History;
use std::alloc::{AllocError, Global};

/// How many orders are kept of which some are told.
const KEPT: usize = 16;

/// How many orders are told.
const TOLD: usize = 4;

/// How many calls on measurements are tried for each.
const READINGS: u64 = 1 << 19;

/// Orders of the calls that returned before the place of an event, four at most: their lines pass.
pub fn orders_before<W: Watch>(
    alloc: Global,
    history: &History,
    place: u32,
    limit: u64,
    watch: &mut W,
) -> Result<Vec<Certificate>, AllocError>
    ensures { IfOk result (λ orders. All (λ order. (state : State) × Passes history.now.recorded order.lines state) orders.items) }
{
    let bounds = Bounds {
        until: place as usize,
        most: KEPT,
        limit,
        readings: READINGS,
    };
    match survey_of(alloc, history, bounds, watch)? {
        Survey::Kept(orders) => first_orders(alloc, history, &orders, watch),
        _ => Ok(Vec::new(alloc)),
    }
}

/// The longest of the orders that are kept where a search ends, which has tried so many steps, was stopped by its watch, or is left with
/// none: its lines pass. It takes about twice as long as that search.
pub fn longest_order<W: Watch>(
    alloc: Global,
    history: &History,
    limit: u64,
    watch: &mut W,
) -> Result<Certificate, AllocError>
    ensures { IfOk result (λ certificate. (state : State) × Passes history.now.recorded certificate.lines state) }
{
    let bounds = Bounds {
        until: history.len(),
        most: KEPT,
        limit,
        readings: READINGS,
    };
    let place = match survey_of(alloc, history, bounds, watch)? {
        Survey::Kept(orders) => return longest(alloc, history, &orders),
        Survey::Lost(place) | Survey::Undecided(place) => place,
    };
    let before = Bounds {
        until: place as usize,
        ..bounds
    };
    match survey_of(alloc, history, before, &mut Unwatched)? {
        Survey::Kept(orders) => longest(alloc, history, &orders),
        _ => longest(alloc, history, &Orders::opening(alloc, history)?),
    }
}

/// Looks for orders, with no measurement read.
fn survey_of<W: Watch>(
    alloc: Global,
    history: &History,
    bounds: Bounds,
    watch: &mut W,
) -> Result<Survey, AllocError> {
    let mut offers = Offers::none();
    match unread(alloc, history)? {
        Some(unread) => forward(alloc, &mut offers, &unread, bounds, watch),
        None => forward(alloc, &mut offers, history, bounds, watch),
    }
}

/// The first orders whose calls are all given their replies: a reading may not be.
fn first_orders<W: Watch>(
    alloc: Global,
    history: &History,
    orders: &Orders,
    watch: &mut W,
) -> Result<Vec<Certificate>, AllocError>
    ensures { IfOk result (λ told. All (λ order. (state : State) × Passes history.now.recorded order.lines state) told.items) }
{
    let mut told = Vec::new(alloc);
    'orders: for order in orders.begun.as_slice() {
        if told.len() >= TOLD {
            return Ok(told);
        }
        let mut tries = Allowed::new(watch, READINGS);
        let lines = arranged_lines(alloc, history, &orders.trail, order, &mut tries)?.certificate;
        let count = lines.len();
        let passing = passing(alloc, history, lines)?;
        if passing.len() < count {
            continue;
        }
        told.push(passing)?;
    }
    Ok(told)
}

/// The first lines that pass of an order, of one that has most of the first orders.
fn longest(alloc: Global, history: &History, orders: &Orders) -> Result<Certificate, AllocError>
    ensures { IfOk result (λ longest. (state : State) × Passes history.now.recorded longest.lines state) }
{
    let mut longest = passing(alloc, history, Certificate::new(alloc))?;
    'orders: for order in orders.begun.as_slice().iter().take(TOLD) {
        let mut unwatched = Unwatched;
        let mut tries = Allowed::new(&mut unwatched, READINGS);
        let lines = arranged_lines(alloc, history, &orders.trail, order, &mut tries)?.certificate;
        let passing = passing(alloc, history, lines)?;
        if longest.len() < passing.len() {
            longest = passing;
        }
    }
    Ok(longest)
}
