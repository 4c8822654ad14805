//! Returns up to which no order is guessed.

ghost use Rattle.std.specs.Prelude.{◌<◌, ◌≤◌, length, IfSome};

use crate::allowed::Allowed;
use crate::guessed::SOON;
use crate::offers::Offers;
use crate::watch::Unwatched;
use guessing::{FirstParts, shares_word};
use history::History;
use rmi_view::CommandRef;
use rmm_spec::Event;
use std::alloc::{AllocError, Global};
use std::cmp::{max, min};

/// A return that may be the first up to which there is no order.
#[derive(Clone, Copy)]
pub(crate) struct Suspect {
    pub(crate) place: u32,
    /// Whether an order is guessed of all events before it.
    pub(crate) is_first: bool,
}

/// The calls that are open at a place, by their CPUs: where each was made, and where it returns if its command shares a word with the one that
/// returns at the place.
#[derive(Clone, Copy)]
struct Open {
    called: [Option<u32>; 8],
    related: [Option<u32>; 8],
}

/// The first place up to which no order is guessed, from that of a suspect on up to the last return of a call that is open there: a guess may
/// fail since that call returns with another reply than it is needed for. None where an order is guessed up to there.
pub(crate) fn first_unguessed(
    alloc: Global,
    offers: &mut Offers,
    history: &History,
    first: Suspect,
) -> Result<Option<Suspect>, AllocError> {
    let place = first.place;
    let open = open_at(history, place);
    if next_after(&open.related, place).is_none() {
        return Ok(Some(first));
    }
    let parts = parts_from(alloc, offers, history, first_of(&open.called, place))?;
    let last = last_return(history, place);
    first_among(alloc, offers, &parts, &open.related, first, last)
}

/// The same, by first parts of the history: up to the places of related returns, and then up to the last place.
fn first_among(
    alloc: Global,
    offers: &mut Offers,
    parts: &FirstParts<'_>,
    related: &[Option<u32>; 8],
    first: Suspect,
    last: u32,
) -> Result<Option<Suspect>, AllocError> {
    if !is_guessed_up_to(alloc, offers, parts, first.place)? {
        return Ok(Some(first));
    }
    let mut guessed = first.place;
    for _cpu in 0..8 {
        let Some(next) = next_after(related, guessed) else {
            break;
        };
        if !is_guessed_up_to(alloc, offers, parts, next)? {
            return first_up_to(alloc, offers, parts, guessed, next);
        }
        guessed = next;
    }
    if last <= guessed || is_guessed_up_to(alloc, offers, parts, last)? {
        return Ok(None);
    }
    let first = first_between(alloc, offers, parts, guessed, last)?;
    Ok(Some(first))
}

/// The first place after one up to which an order is guessed, and up to another up to which none is: mostly that one.
fn first_up_to(
    alloc: Global,
    offers: &mut Offers,
    parts: &FirstParts<'_>,
    guessed: u32,
    unguessed: u32,
) -> Result<Option<Suspect>, AllocError>
    requires { guessed < unguessed }
{
    let before = unguessed - 1;
    if before == guessed || is_guessed_up_to(alloc, offers, parts, before)? {
        return Ok(Some(Suspect {
            place: unguessed,
            is_first: true,
        }));
    }
    let first = first_between(alloc, offers, parts, guessed, before)?;
    Ok(Some(first))
}

/// The calls that are open at the place, as the events before it show.
fn open_at(history: &History, place: u32) -> Open {
    let mut open = Open {
        called: [None; 8],
        related: [None; 8],
    };
    let Some((own, command)) = call_at(history, place) else {
        return open;
    };
    let mut has_event = [false; 8];
    let mut left = history.config().cpus();
    for back in 1..place.saturating_add(1) {
        if left == 0 {
            break;
        }
        let event = history.event((place - back) as usize);
        let Some(has_event) = has_event.get_mut(usize::from(cpu_of(&event))) else {
            continue;
        };
        if *has_event {
            continue;
        }
        *has_event = true;
        left = left.saturating_sub(1);
        if cpu_of(&event) != own {
            open.note(history, place - back, &event, command);
        }
    }
    open
}

impl Open {
    // Notes a call that is made by the event at a place, where it is one.
    fn note(&mut self, history: &History, place: u32, event: &Event, other: CommandRef<'_>) {
        let Event::Called {
            cpu,
            number,
            command,
        } = event
        else {
            return;
        };
        let Some(places) = history.places_of(*cpu, *number) else {
            return;
        };
        let is_related = shares_word(other, CommandRef::of(command));
        let (Some(called), Some(related)) = (
            self.called.get_mut(usize::from(*cpu)),
            self.related.get_mut(usize::from(*cpu)),
        ) else {
            return;
        };
        if places.returned.is_some() {
            *called = Some(place);
        }
        if is_related {
            *related = places.returned;
        }
    }
}

fn cpu_of(event: &Event) -> u8 {
    match event {
        Event::Called { cpu, .. } | Event::Returned { cpu, .. } => *cpu,
    }
}

/// The first of the places and of one.
fn first_of(places: &[Option<u32>; 8], place: u32) -> u32 {
    let mut first = place;
    for called in places {
        if let Some(called) = called {
            first = min(first, *called);
        }
    }
    first
}

/// The first parts of the history that have the events up to the place at least.
fn parts_from<'h>(
    alloc: Global,
    offers: &mut Offers,
    history: &'h History,
    place: u32,
) -> Result<FirstParts<'h>, AllocError> {
    let mut unwatched = Unwatched;
    let mut tries = Allowed::new(&mut unwatched, SOON);
    let parts = FirstParts::new(alloc, history, place as usize, &mut tries)?;
    tries.count(offers);
    offers.add(u64::from(place));
    Ok(parts)
}

/// The first of the places after one.
fn next_after(places: &[Option<u32>; 8], after: u32) -> Option<u32>
    ensures { IfSome result (λ first. after < first) }
{
    let mut first = None;
    for place in places {
        match (*place, first) {
            (Some(place), Some(least)) if after < place => first = Some(min(place, least)),
            (Some(place), None) if after < place => first = Some(place),
            _ => {}
        }
    }
    first
}

/// The CPU and the command of the call that returns at the place.
fn call_at(history: &History, place: u32) -> Option<(u8, CommandRef<'_>)>
    ensures { IfSome result (λ _. place < length history.now.recorded.events) }
{
    if place as usize >= history.len() {
        return None;
    }
    let Event::Returned { cpu, number, .. } = history.event(place as usize) else {
        return None;
    };
    let called = history.places_of(cpu, number)?.called as usize;
    if called >= history.len() {
        return None;
    }
    Some((cpu, history.command_at(called)?))
}

/// The first place after one up to which an order is guessed, and up to another up to which none is, by halves.
fn first_between(
    alloc: Global,
    offers: &mut Offers,
    parts: &FirstParts<'_>,
    place: u32,
    last: u32,
) -> Result<Suspect, AllocError>
    requires { place ≤ last }
{
    let mut guessed = place;
    let mut unguessed = last;
    'halves: while unguessed - guessed > 1 {
        let middle = guessed + (unguessed - guessed) / 2;
        if is_guessed_up_to(alloc, offers, parts, middle)? {
            guessed = middle;
        } else {
            unguessed = middle;
        }
    }
    Ok(Suspect {
        place: unguessed,
        is_first: true,
    })
}

/// Whether an order is guessed of the events up to the place. Each that is gone through counts as a step.
fn is_guessed_up_to(
    alloc: Global,
    offers: &mut Offers,
    parts: &FirstParts<'_>,
    place: u32,
) -> Result<bool, AllocError> {
    let mut unwatched = Unwatched;
    let mut tries = Allowed::new(&mut unwatched, SOON);
    let is_guessed = parts.has_order(alloc, place as usize + 1, &mut tries)?;
    tries.count(offers);
    offers.add(parts.events_up_to(place));
    Ok(is_guessed)
}

/// Whether an order is guessed of the events before the return at a later place, of a call that is open at the first.
pub(crate) fn is_guessed_before(
    alloc: Global,
    offers: &mut Offers,
    history: &History,
    first: u32,
    later: u32,
) -> Result<bool, AllocError> {
    let open = open_at(history, first);
    let parts = parts_from(alloc, offers, history, first_of(&open.called, first))?;
    is_guessed_up_to(alloc, offers, &parts, later.saturating_sub(1))
}

/// The last place at which a call returns that is open at the place.
pub(crate) fn last_return(history: &History, place: u32) -> u32
    ensures { place ≤ result }
{
    let mut last = place;
    for returned in open_returns(history, place) {
        if let Some(returned) = returned {
            last = max(last, returned);
        }
    }
    last
}

/// The places at which the calls return that are open at a place, by their CPUs.
pub(crate) fn open_returns(history: &History, place: u32) -> [Option<u32>; 8] {
    let _fact = history.well_formed();
    let mut returns = [None; 8];
    let mut has_event = [false; 8];
    let mut left = history.config().cpus();
    for at in place.saturating_add(1)..history.len() as u32 {
        if left == 0 {
            break;
        }
        let event = history.event(at as usize);
        let cpu = usize::from(cpu_of(&event));
        let (Some(has_event), Some(returned)) = (has_event.get_mut(cpu), returns.get_mut(cpu))
        else {
            continue;
        };
        if *has_event {
            continue;
        }
        if matches!(event, Event::Returned { .. }) {
            *returned = Some(at);
        }
        *has_event = true;
        left = left.saturating_sub(1);
    }
    returns
}
