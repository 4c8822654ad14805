//! Whether a plan cuts a slice out of a history's first events.

ghost use Rattle.std.specs.Prelude.{◌≡◌, ◌<◌, ◌≤◌, ℕ, true, length, slice_get, IsTrue, Some};
ghost use Rattle.rmm_spec.specs.Lookup.{is_granule};
ghost use Rattle.verdict_laws.specs.Slices as laws;
ghost use Rattle.slicing.specs.Calls.{back_of, events_to};
ghost use Rattle.slicing.specs.Cuts.{CallFits, ChangesLater, EventFits, FitsNumber, IsFreshTo, IsKeptAt, IsLeftAt, IsUsable, KnowsAt, KnowsOf, ReturnFits};
ghost use Rattle.slicing.specs.Plans.{AreNoted, entered_at, mark_of, number_at};

use crate::call_at::{CallAt, call_at};
use crate::early::are_back;
use crate::entered::is_entered;
use crate::kinds::{changeable, changes, goes_by_names, is_hosts};
use crate::plan::Plan;
use crate::unused::is_unused;
use command_words::{Name, named};
use history::History;
use memory_map::granule_at;
use rmi_view::ReplyRef;
use rmm_spec::{Event, Tag};

/// Whether the plan cuts a slice out of the first events, so many.
pub(crate) fn is_cut(history: &History, count: u32, plan: &Plan) -> bool
    requires { count ≤ length history.now.recorded.events }
    ensures { IsTrue result → laws.IsCut (record history.now.recorded { events = events_to count history.now.recorded.events })
        (number_at plan.now) plan.now.lent.items (entered_at plan.now) }
{
    let _fact = history.well_formed();
    are_lent(history, plan)
        && are_back(history, count, plan.from, plan.first)
        && events_fit(history, count, plan)
}

/// Whether each event from the plan's first place on fits.
fn events_fit(history: &History, count: u32, plan: &Plan) -> bool
    requires { count ≤ length history.now.recorded.events }
    ensures { IsTrue result → (place : ℕ) → plan.now.from ≤ place → place < count
        → EventFits (events_to count history.now.recorded.events) plan.now place }
{
    for place in plan.from..count {
        if !call_fits(history, count, plan, place) || !return_fits(history, count, plan, place) {
            return false;
        }
    }
    true
}

/// Whether the call that is made at a place, if one is, may be kept if it has a number, and may be left if not.
fn call_fits(history: &History, count: u32, plan: &Plan, place: u32) -> bool
    requires within { count ≤ length history.now.recorded.events }
    requires place { place < count }
    ensures { IsTrue result → CallFits (events_to count history.now.recorded.events) plan.now place }
{
    let Some(call) = call_at(history, count, place) else {
        return true;
    };
    fits_number(history, count, plan, plan.number_at(place), &call)
        && is_entered(history, count, plan, &call)
}

/// Whether the call may be kept, or may be left, by whether it has a number.
fn fits_number(
    history: &History,
    count: u32,
    plan: &Plan,
    number: Option<u32>,
    call: &CallAt<'_>,
) -> bool
    requires { count ≤ length history.now.recorded.events }
    ensures { IsTrue result → FitsNumber (events_to count history.now.recorded.events) plan.now number call.now }
{
    match number {
        Some(_) => is_kept(history, count, plan, call),
        None => is_left(plan, call),
    }
}

/// Whether the call that returns at a place, if one does, has its number there.
fn return_fits(history: &History, count: u32, plan: &Plan, place: u32) -> bool
    requires within { count ≤ length history.now.recorded.events }
    requires place { place < count }
    ensures { IsTrue result → ReturnFits (events_to count history.now.recorded.events) plan.now place }
{
    let _fact = history.well_formed();
    let Event::Returned { cpu, number, .. } = history.event(place as usize) else {
        return true;
    };
    match history.places_of(cpu, number) {
        Some(places) => plan.number_at(place) == plan.number_at(places.called),
        None => false,
    }
}

// ---- kept calls

/// Whether a call may be kept.
fn is_kept(history: &History, count: u32, plan: &Plan, call: &CallAt<'_>) -> bool
    requires { count ≤ length history.now.recorded.events }
    ensures { IsTrue result → IsKeptAt (events_to count history.now.recorded.events) plan.now call.now }
{
    is_usable(call)
        && plan.first <= call.place
        && (is_hosts(&call.call) || plan.entered_at(call.place))
        && knows_all(history, count, plan, call)
        && changes_later(plan, call)
}

/// Whether it wasn't refused, or for what it names alone.
fn is_usable(call: &CallAt<'_>) -> bool
    ensures { IsTrue result → IsUsable call.now }
{
    match &call.answer {
        None => true,
        Some(answer) => match answer.reply {
            ReplyRef::Ok(_) => true,
            ReplyRef::Err(_, _) => goes_by_names(&call.call),
            ReplyRef::Misplaced => false,
        },
    }
}

/// Whether no granule that it may change is noted as changed later at the earliest.
fn changes_later(plan: &Plan, call: &CallAt<'_>) -> bool
    ensures { IsTrue result → ChangesLater plan.now call.now }
{
    changeable(&call.call)
        .as_slice()
        .iter()
        .all(|name| plan.mark_of(name.granule).first <= call.place)
}

/// Whether it knows each granule that it names, or finds it unused.
fn knows_all(history: &History, count: u32, plan: &Plan, call: &CallAt<'_>) -> bool
    requires { count ≤ length history.now.recorded.events }
    ensures { IsTrue result → KnowsAt (events_to count history.now.recorded.events) plan.now call.now }
{
    named(&call.call)
        .as_slice()
        .iter()
        .all(|name| knows(history, count, plan, call, name))
}

/// Whether it knows a granule that it names, or finds it unused.
fn knows(history: &History, count: u32, plan: &Plan, call: &CallAt<'_>, name: &Name) -> bool
    requires { count ≤ length history.now.recorded.events }
    ensures { IsTrue result → KnowsOf (events_to count history.now.recorded.events) plan.now call.now name.now }
{
    if is_fresh(plan, call, name) {
        return true;
    }
    if is_known(history, count, plan, call, name.granule) {
        return true;
    }
    is_unused(history, count, plan, call, name.granule)
}

/// Whether it needs the granule as an unused one, and its reply, if it returned, shows that.
pub(crate) fn is_fresh(plan: &Plan, call: &CallAt<'_>, name: &Name) -> bool
    ensures { IsTrue result → IsFreshTo plan.now call.now name.now }
{
    let is_unused = match name.tag {
        Tag::Delegated => plan.is_lent(name.granule),
        Tag::Undelegated => !plan.is_lent(name.granule),
        _ => false,
    };
    is_unused && call.shows_names()
}

/// Whether a kept call that may change the granule returned before it was made.
pub(crate) fn is_known(
    history: &History,
    count: u32,
    plan: &Plan,
    call: &CallAt<'_>,
    granule: u64,
) -> bool
    requires { count ≤ length history.now.recorded.events }
    ensures { IsTrue result → laws.IsKnownAt (events_to count history.now.recorded.events) (number_at plan.now) call.now.place granule }
{
    let Some(known) = plan.mark_of(granule).known else {
        return false;
    };
    if known >= count || plan.number_at(known).is_none() {
        return false;
    }
    let Some(earlier) = call_at(history, count, known) else {
        return false;
    };
    earlier.answer.is_some() && earlier.back() < call.place && changes(&earlier.call, granule)
}

// ---- other calls

/// Whether it only looks, was refused, or is made outside of RECs and returned before each kept call was made that may change what it may change.
fn is_left(plan: &Plan, call: &CallAt<'_>) -> bool
    ensures { IsTrue result → IsLeftAt plan.now call.now }
{
    call.changes_nothing() || !plan.entered_at(call.place) && is_back_before(plan, call)
}

/// Whether it returned before each kept call was made that may change what it may change.
fn is_back_before(plan: &Plan, call: &CallAt<'_>) -> bool
    ensures { IsTrue result → (granule : ℕ) → laws.may_change call.now.call granule ≡ true
        → back_of call.now < (mark_of plan.now.marks.items granule).first }
{
    changeable(&call.call)
        .as_slice()
        .iter()
        .all(|name| call.back() < plan.mark_of(name.granule).first)
}

// ---- granules that are lent

/// Whether each granule that is lent is one of the machine's, and noted where it stands.
fn are_lent(history: &History, plan: &Plan) -> bool
    ensures granules { IsTrue result → laws.AreLent history.now.recorded.config.granules plan.now.lent.items }
    ensures noted { IsTrue result → AreNoted plan.now }
{
    for index in 0..plan.lent.len() {
        if !is_lent_at(history, plan, index) {
            return false;
        }
    }
    true
}

/// Whether the granule that is lent there is so.
fn is_lent_at(history: &History, plan: &Plan, index: usize) -> bool
    ensures { IsTrue result → (granule : ℕ) → slice_get plan.now.lent.items index ≡ Some granule
        → (is_granule history.now.recorded.config.granules granule ≡ true) × ((mark_of plan.now.marks.items granule).lending ≡ Some index) }
{
    let Some(granule) = plan.lent.get(index).copied() else {
        return false;
    };
    let Ok(number) = u32::try_from(index) else {
        return false;
    };
    granule_at(&history.config(), granule).is_some()
        && plan.mark_of(granule).lending == Some(number)
}
