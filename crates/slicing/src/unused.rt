//! Granules that a kept call finds unused, since calls that aren't kept left them so.

ghost use Rattle.std.specs.Prelude.{◌<◌, ◌≤◌, ℕ, length, IsTrue};
ghost use Rattle.verdict_laws.specs.Slices as laws;
ghost use Rattle.slicing.specs.Calls.{events_to};
ghost use Rattle.slicing.specs.Cuts.{AreEarly, IsUnusedTo};
ghost use Rattle.slicing.specs.Plans.{number_at};
ghost use Rattle.slicing.specs.Unused.{AreQuiet, BeginsBefore, IsAloneAt, IsQuietAt};

use crate::call_at::{CallAt, call_at};
use crate::done::{Done, done_before, is_no_later, returned_before};
use crate::given_back::{is_of_ended, leaves_unused, makes_part};
use crate::kinds::changes;
use crate::plan::{Plan, Unused};
use history::History;

/// Whether the granule is unused where the call is made, as the plan says and has it, unless a kept call has changed it.
pub(crate) fn is_unused(
    history: &History,
    count: u32,
    plan: &Plan,
    call: &CallAt<'_>,
    granule: u64,
) -> bool
    requires { count ≤ length history.now.recorded.events }
    ensures { IsTrue result → IsUnusedTo (events_to count history.now.recorded.events) plan.now call.now granule }
{
    let lent = plan.is_lent(granule);
    match plan.unused_of(granule) {
        Some(Unused::Untouched) => !lent && are_quiet(history, count, plan, granule, None),
        Some(Unused::GivenUp { giver }) => {
            is_given_up(history, count, plan, giver, call.place, granule, lent)
        }
        Some(Unused::PartBack { maker, ender }) => {
            lent && is_part_back(history, count, plan, maker, ender, call.place, granule)
        }
        None => false,
    }
}

/// Whether the call made at one place left the granule unused before another, and none that isn't kept has changed it since.
fn is_given_up(
    history: &History,
    count: u32,
    plan: &Plan,
    giver: u32,
    place: u32,
    granule: u64,
    lent: bool,
) -> bool
    requires { count ≤ length history.now.recorded.events }
    ensures { IsTrue result → AreEarly (events_to count history.now.recorded.events) plan.now
        → laws.IsGivenUp (events_to count history.now.recorded.events) (number_at plan.now) place granule lent }
{
    match done_before(history, count, giver, place) {
        Some(done) => {
            leaves_unused(&done.call, done.reply, granule, lent)
                && are_quiet(history, count, plan, granule, Some(giver))
        }
        None => false,
    }
}

/// Whether the granule was a part of what the maker made and the ender ended before the place, and no call has changed it since that isn't kept.
fn is_part_back(
    history: &History,
    count: u32,
    plan: &Plan,
    maker: u32,
    ender: u32,
    place: u32,
    granule: u64,
) -> bool
    requires { count ≤ length history.now.recorded.events }
    ensures { IsTrue result → AreEarly (events_to count history.now.recorded.events) plan.now
        → laws.IsPartBack (events_to count history.now.recorded.events) (number_at plan.now) place granule }
{
    let Some(ended) = done_before(history, count, ender, place) else {
        return false;
    };
    let Some(made) = done_before(history, count, maker, ender) else {
        return false;
    };
    makes_part(&made.call, &ended.call, granule)
        && are_quiet(history, count, plan, granule, Some(maker))
        && are_alone(history, count, plan, maker, ender, &ended)
}

// ---- other calls

/// Whether each call that isn't kept, and may change the granule, changes nothing or is no later than the last.
fn are_quiet(history: &History, count: u32, plan: &Plan, granule: u64, last: Option<u32>) -> bool
    requires { count ≤ length history.now.recorded.events }
    ensures { IsTrue result → AreQuiet (events_to count history.now.recorded.events) plan.now granule last }
{
    if !begins_before(plan, last) {
        return false;
    }
    for place in plan.from..count {
        if !is_quiet(history, count, plan, granule, last, place) {
            return false;
        }
    }
    true
}

/// Whether all that was made before the plan's first place returned before the last was made, or nothing was.
fn begins_before(plan: &Plan, last: Option<u32>) -> bool
    ensures { IsTrue result → BeginsBefore plan.now last }
{
    match last {
        Some(last) => plan.first <= last,
        None => plan.from == 0,
    }
}

/// Whether the call that is made at a place, if one is, is such.
fn is_quiet(
    history: &History,
    count: u32,
    plan: &Plan,
    granule: u64,
    last: Option<u32>,
    place: u32,
) -> bool
    requires within { count ≤ length history.now.recorded.events }
    requires place { place < count }
    ensures { IsTrue result → IsQuietAt (events_to count history.now.recorded.events) plan.now granule last place }
{
    if plan.number_at(place).is_some() {
        return true;
    }
    let Some(call) = call_at(history, count, place) else {
        return true;
    };
    call.changes_nothing() || !changes(&call.call, granule) || is_no_later(&call, last)
}

/// Whether no call makes or ends what the maker made, from there up to its end, but these two.
fn are_alone(
    history: &History,
    count: u32,
    plan: &Plan,
    maker: u32,
    ender: u32,
    ended: &Done<'_>,
) -> bool
    requires { count ≤ length history.now.recorded.events }
    ensures { IsTrue result → AreEarly (events_to count history.now.recorded.events) plan.now
        → (place : ℕ) → IsAloneAt (events_to count history.now.recorded.events) maker ender ended.now.returned ended.now.call place }
{
    if maker < plan.first {
        return false;
    }
    for place in plan.from..count {
        if !is_alone(history, count, maker, ender, ended, place) {
            return false;
        }
    }
    true
}

/// Whether the call that is made at a place, if one is, is such.
fn is_alone(
    history: &History,
    count: u32,
    maker: u32,
    ender: u32,
    ended: &Done<'_>,
    place: u32,
) -> bool
    requires within { count ≤ length history.now.recorded.events }
    requires place { place < count }
    ensures { IsTrue result → IsAloneAt (events_to count history.now.recorded.events) maker ender ended.now.returned ended.now.call place }
{
    let Some(call) = call_at(history, count, place) else {
        return true;
    };
    !is_of_ended(&call.call, &ended.call)
        || call.changes_nothing()
        || place == maker
        || place == ender
        || returned_before(&call, maker)
        || ended.returned < place
}
