//! Calls that are made inside of a REC in a slice.

ghost use Rattle.std.specs.Prelude.{◌≡◌, ◌≤◌, length, IsTrue, MatchOption};
ghost use Rattle.rmi_view.specs.Seen.{reply_seen};
ghost use Rattle.verdict_laws.specs.Slices.{is_entered_by};
ghost use Rattle.slicing.specs.Calls.{events_to};
ghost use Rattle.slicing.specs.Cuts.{IsEnteredAt};
ghost use Rattle.slicing.specs.Plans.{entered_at, number_at};

use crate::call_at::{CallAt, call_at};
use crate::kinds::is_inside_after;
use crate::plan::Plan;
use history::History;

/// Whether a call is made inside of a REC as its CPU's call before it leaves it.
pub(crate) fn is_entered(history: &History, count: u32, plan: &Plan, call: &CallAt<'_>) -> bool
    requires { count ≤ length history.now.recorded.events }
    ensures { IsTrue result → IsEnteredAt (events_to count history.now.recorded.events) plan.now call.now }
{
    let _fact = history.well_formed();
    let Some(last) = call.number.checked_sub(1) else {
        return !plan.entered_at(call.place);
    };
    let Some(places) = history.places_of(call.cpu, last) else {
        return false;
    };
    if places.called >= count {
        return false;
    }
    match call_at(history, count, places.called) {
        Some(before) => plan.entered_at(call.place) == is_entered_after(plan, &before),
        None => false,
    }
}

/// Whether the CPU of a call is inside of a REC after it.
pub(crate) fn is_entered_after(plan: &Plan, call: &CallAt<'_>) -> bool
    ensures { MatchOption call.now.answer (result ≡ entered_at plan.now call.now.place)
        (λ a. result ≡ is_entered_by (number_at plan.now call.now.place) call.now.call (reply_seen a.reply) (entered_at plan.now call.now.place)) }
{
    let inside = plan.entered_at(call.place);
    if plan.number_at(call.place).is_some() && call.is_done() {
        is_inside_after(&call.call, inside)
    } else {
        inside
    }
}
