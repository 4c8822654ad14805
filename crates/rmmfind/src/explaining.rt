//! How far orders got where none of all calls is found.

use certificate::{Certificate, LineRef};
use checker::{Reason, Verdict};
use explain::{explain, report};
use finding::{Watch, longest_order, orders_before};
use history::{Event, History};
use std::alloc::{AllocError, Global};
use std::cmp::min;

/// Appends how far orders got: those that a return was the end of, where it is known, each with why its call isn't given the reply.
pub(crate) fn append_reached<W: Watch>(
    alloc: Global,
    bytes: &[u8],
    history: &History,
    limit: u64,
    place: Option<u32>,
    watch: &mut W,
    text: &mut Vec<u8>,
) -> Result<(), AllocError> {
    let Some(place) = place else {
        return append_longest(alloc, bytes, history, limit, watch, text);
    };
    let orders = orders_before(alloc, history, place, limit, watch)?;
    if orders.is_empty() {
        return append_longest(alloc, bytes, history, limit, watch, text);
    }
    let Some((cpu, number)) = returned_at(history, place) else {
        return Ok(());
    };
    for certificate in orders.as_slice() {
        let mut order = Vec::new(alloc);
        text_writers::write_certificate(certificate, &mut order)?;
        text.push(b'\n')?;
        text.extend_from_slice(order.as_slice())?;
        append_refusal(alloc, bytes, order.as_slice(), cpu, number, text)?;
    }
    Ok(())
}

/// The CPU and the number of the call that returned at the place.
fn returned_at(history: &History, place: u32) -> Option<(u8, u32)> {
    if place as usize >= history.len() {
        return None;
    }
    match history.event(place as usize) {
        Event::Returned { cpu, number, .. } => Some((cpu, number)),
        Event::Called { .. } => None,
    }
}

/// Appends the longest order that is begun until the watch stops the search for it, and why each call that could come next there isn't given
/// the reply that it got.
pub(crate) fn append_longest<W: Watch>(
    alloc: Global,
    bytes: &[u8],
    history: &History,
    limit: u64,
    watch: &mut W,
    text: &mut Vec<u8>,
) -> Result<(), AllocError> {
    let longest = longest_order(alloc, history, limit, watch)?;
    let mut order = Vec::new(alloc);
    text_writers::write_certificate(&longest, &mut order)?;
    text.push(b'\n')?;
    text.extend_from_slice(order.as_slice())?;
    let first = first_return(history, &longest);
    for cpu in 0..history.config().cpus() {
        let number = calls_of(&longest, cpu);
        if may_come_next(history, cpu, number, first) {
            append_refusal(alloc, bytes, order.as_slice(), cpu, number, text)?;
        }
    }
    Ok(())
}

/// The place of the first return whose call isn't in the order.
fn first_return(history: &History, order: &Certificate) -> u32 {
    let mut first = u32::MAX;
    for cpu in 0..history.config().cpus() {
        if let Some(places) = history.places_of(cpu, calls_of(order, cpu)) {
            if let Some(returned) = places.returned {
                first = min(first, returned);
            }
        }
    }
    first
}

/// Whether the call returned, and was made before the first return of those that aren't in the order.
fn may_come_next(history: &History, cpu: u8, number: u32, first: u32) -> bool {
    match history.places_of(cpu, number) {
        Some(places) => places.returned.is_some() && places.called < first,
        None => false,
    }
}

/// Appends a report of the order with the call behind it, where the specification gives the call another reply there.
fn append_refusal(
    alloc: Global,
    bytes: &[u8],
    order: &[u8],
    cpu: u8,
    number: u32,
    text: &mut Vec<u8>,
) -> Result<(), AllocError> {
    let mut longer = order.to_vec(alloc)?;
    longer.extend_from_slice(format!(in alloc; "k {cpu} {number}\n")?.as_bytes())?;
    let explanation = explain(alloc, bytes, longer.as_slice())?;
    if is_refused(explanation.verdict()) {
        text.push(b'\n')?;
        report(alloc, &explanation, text)?;
    }
    Ok(())
}

fn is_refused(verdict: Verdict) -> bool {
    match verdict {
        Verdict::No {
            reason: Reason::Reply,
            ..
        } => true,
        _ => false,
    }
}

/// How many calls of a CPU stand in the order.
fn calls_of(order: &Certificate, cpu: u8) -> u32 {
    let mut calls = 0;
    for i in 0..order.len() {
        let named = match order.line(i) {
            LineRef::Keep { cpu, .. } | LineRef::Unfinished { cpu, .. } => cpu,
        };
        if named == cpu {
            calls += 1;
        }
    }
    calls
}
