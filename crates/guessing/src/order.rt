//! One order of all calls that were put in.

use crate::registers::{NEVER, Registers, Unread, Use};
use crate::solving::order_found;
use crate::tries::Tries;
use history::History;
use std::alloc::{AllocError, Global};
use std::cmp::min;

/// A call of an order, by its CPU, and the place of the event at which it was put in.
#[derive(Clone, Copy)]
pub struct Placed {
    pub cpu: u8,
    pub at: u32,
}

/// An order with its calls on measurements.
#[derive(Drop)]
pub struct Arranged {
    /// The CPUs of its calls, one after another.
    pub cpus: Vec<u8>,
    /// The first reading of a measurement, if any, that gave another value than in the order.
    pub unread: Option<Unread>,
}

/// The order of the other calls, in which the calls on measurements are put in.
pub(crate) fn with_uses<T: Tries>(
    alloc: Global,
    history: &History,
    others: Vec<Placed>,
    registers: &Registers,
    tries: &mut T,
) -> Result<Arranged, AllocError> {
    let mut placed = others;
    let count = placed.len();
    let mut unread = None;
    for register in &registers.all {
        if register.uses.is_empty() {
            continue;
        }
        let found = order_found(alloc, history, register, tries)?;
        unread = earlier(unread, found.unread);
        place_uses(
            alloc,
            &mut placed,
            register.uses.as_slice(),
            found.order.as_slice(),
        )?;
    }
    let cpus = if placed.len() > count {
        cpus_in_order(alloc, placed.as_slice(), history.len())?
    } else {
        cpus_of(alloc, placed.as_slice())?
    };
    Ok(Arranged { cpus, unread })
}

// The earlier of two readings, by their returns, where there are two.
fn earlier(one: Option<Unread>, other: Option<Unread>) -> Option<Unread> {
    match (one, other) {
        (Some(first), Some(second)) if second.place < first.place => Some(second),
        (None, other) => other,
        (one, _) => one,
    }
}

// The CPUs of the calls as they stand.
fn cpus_of(alloc: Global, placed: &[Placed]) -> Result<Vec<u8>, AllocError> {
    let mut cpus = Vec::with_capacity(alloc, placed.len())?;
    for call in placed {
        cpus.push(call.cpu)?;
    }
    Ok(cpus)
}

// Puts a measurement's calls in, in the order found: each at the first return of a call that doesn't come before it.
fn place_uses(
    alloc: Global,
    placed: &mut Vec<Placed>,
    uses: &[Use],
    order: &[usize],
) -> Result<(), AllocError> {
    let returns = first_returns(alloc, uses, order)?;
    for (place, at) in order.iter().zip(returns.iter()) {
        if let Some(used) = uses.get(*place) {
            placed.push(Placed {
                cpu: used.cpu,
                at: *at,
            })?;
        }
    }
    Ok(())
}

// Of each call in the order, the first return of it and of those after it.
fn first_returns(alloc: Global, uses: &[Use], order: &[usize]) -> Result<Vec<u32>, AllocError> {
    let mut returns = vec![in alloc; u32::MAX; order.len()]?;
    let mut first = NEVER;
    for at in (0..order.len()).rev() {
        if let Some(used) = uses.get(order[at]) {
            first = min(first, used.returned);
        }
        returns[at] = first;
    }
    Ok(returns)
}

// The CPUs of the calls by the places at which they were put in. Those put in at one place keep their order.
fn cpus_in_order(alloc: Global, placed: &[Placed], places: usize) -> Result<Vec<u8>, AllocError> {
    let mut ends = counted(alloc, placed, places)?;
    let mut cpus = vec![in alloc; 0; placed.len()]?;
    for call in placed.iter().rev() {
        let Some(end) = ends.get_mut(call.at as usize) else {
            continue;
        };
        *end = end.saturating_sub(1);
        if let Some(cpu) = cpus.get_mut(*end as usize) {
            *cpu = call.cpu;
        }
    }
    Ok(cpus)
}

// How many calls were put in at each place or before it.
fn counted(alloc: Global, placed: &[Placed], places: usize) -> Result<Vec<u32>, AllocError> {
    let mut counts = vec![in alloc; 0u32; places]?;
    for call in placed {
        if let Some(count) = counts.get_mut(call.at as usize) {
            *count = count.saturating_add(1);
        }
    }
    let mut sum = 0u32;
    for count in counts.iter_mut() {
        sum = sum.saturating_add(*count);
        *count = sum;
    }
    Ok(counts)
}
