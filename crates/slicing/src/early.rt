//! Calls that were made before a place, and returned before another.

ghost use Rattle.std.specs.Prelude.{◌≡◌, ◌<◌, ◌≤◌, ℕ, false, length, IsTrue};
ghost use Rattle.rmm_spec.specs.declared.command.Command.{Command};
ghost use Rattle.rmm_spec.specs.Linearization.{IsCalled};
ghost use Rattle.verdict_laws.specs.Slices.{IsBack};
ghost use Rattle.slicing.specs.Calls.{AreBack, events_to};

use history::{History, Places};
use std::cmp::min;

/// How often the calls of a CPU are halved to find one of a million.
const HALVES: u32 = 20;

/// Whether each call that was made before one place returned before another.
pub(crate) fn are_back(history: &History, count: u32, from: u32, first: u32) -> bool
    requires { count ≤ length history.now.recorded.events }
    ensures { IsTrue result → AreBack (events_to count history.now.recorded.events) from first }
{
    let _fact = history.well_formed();
    for cpu in 0..history.config().cpus() {
        if !is_back(history, count, from, first, cpu) {
            return false;
        }
    }
    true
}

/// Whether each call of a CPU is so: the last of them is.
fn is_back(history: &History, count: u32, from: u32, first: u32, cpu: u8) -> bool
    requires { count ≤ length history.now.recorded.events }
    ensures { IsTrue result → (place number : ℕ) (command : Command)
        → IsCalled (events_to count history.now.recorded.events) place cpu number command → place < from
        → IsBack (events_to count history.now.recorded.events) cpu number first }
{
    let _fact = history.well_formed();
    let made = calls_before(history, cpu, from);
    if is_made_before(history, cpu, made, from) {
        return false;
    }
    let Some(last) = made.checked_sub(1) else {
        return true;
    };
    match history.places_of(cpu, last) {
        Some(places) => match places.returned {
            Some(returned) => returned < first && returned < count,
            None => false,
        },
        None => false,
    }
}

/// A place before which each call that was made returned before the place: where the first of the calls was made that are open there.
pub(crate) fn open_from(history: &History, place: u32) -> u32 {
    let mut from = place;
    for cpu in 0..history.config().cpus() {
        from = min(from, open_call(history, cpu, place));
    }
    from
}

/// Where the CPU's call was made that is open at the place, or the place where none is.
fn open_call(history: &History, cpu: u8, place: u32) -> u32 {
    let Some(last) = calls_before(history, cpu, place).checked_sub(1) else {
        return place;
    };
    match history.places_of(cpu, last) {
        Some(Places { called, returned }) => match returned {
            Some(returned) if returned < place => place,
            _ => called,
        },
        None => place,
    }
}

/// How many calls of a CPU were made before a place.
fn calls_before(history: &History, cpu: u8, place: u32) -> u32 {
    let mut made = 0u32;
    let mut more = place;
    for _half in 0..HALVES {
        let half = more / 2;
        let middle = made.saturating_add(half);
        more -= half;
        if is_made_before(history, cpu, middle, place) {
            made = middle;
        }
    }
    if is_made_before(history, cpu, made, place) {
        made.saturating_add(1)
    } else {
        made
    }
}

/// Whether the call of that number of a CPU was made before a place.
fn is_made_before(history: &History, cpu: u8, number: u32, place: u32) -> bool
    ensures { result ≡ false → (called : ℕ) (command : Command) → IsCalled history.now.recorded.events called cpu number command → place ≤ called }
{
    let _fact = history.well_formed();
    match history.places_of(cpu, number) {
        Some(places) => places.called < place,
        None => false,
    }
}
