//! Calls that were carried out, and which calls returned before others.

ghost use Rattle.std.specs.Prelude.{◌≤◌, length, IfSome, IsTrue};
ghost use Rattle.slicing.specs.Calls.{events_to};
ghost use Rattle.slicing.specs.Facts.{IsDoneFirst};
ghost use Rattle.slicing.specs.Unused.{IsDone, IsNoLaterThan, ReturnedBefore};

use crate::call_at::{CallAt, call_at};
use crate::turns::is_in_turn;
use history::History;
use rmi_view::ReplyRef;
use rmm_spec::Call;
use verdict_laws::InTurn;

/// A call that was carried out.
#[derive(Clone, Copy)]
pub(crate) struct Done<'a> {
    pub(crate) cpu: u8,
    pub(crate) number: u32,
    pub(crate) call: Call,
    pub(crate) reply: ReplyRef<'a>,
    /// The place of its return.
    pub(crate) returned: u32,
}

/// The call that is made at one place, where it was carried out and returned before another.
pub(crate) fn done_before(
    history: &History,
    count: u32,
    called: u32,
    place: u32,
) -> Option<Done<'_>>
    requires { count ≤ length history.now.recorded.events }
    ensures { IfSome result (IsDone (events_to count history.now.recorded.events) called place) }
{
    if called >= count {
        return None;
    }
    let call = call_at(history, count, called)?;
    let answer = call.answer?;
    if !call.is_done() || answer.place >= place {
        return None;
    }
    Some(Done {
        cpu: call.cpu,
        number: call.number,
        call: call.call,
        reply: answer.reply,
        returned: answer.place,
    })
}

/// The call that is made at one place, where it was carried out and comes before another: it returned before that was made, or is supposed to.
pub(crate) fn done_first(
    history: &History,
    count: u32,
    called: u32,
    place: u32,
    turn: Option<InTurn>,
) -> Option<Done<'_>>
    requires { count ≤ length history.now.recorded.events }
    ensures { IfSome result (IsDoneFirst turn (events_to count history.now.recorded.events) count called place) }
{
    let done = done_before(history, count, called, count)?;
    if done.returned < place || is_in_turn(turn, called, place) {
        Some(done)
    } else {
        None
    }
}

/// Whether the call is the last itself, or returned before that was made.
pub(crate) fn is_no_later(call: &CallAt<'_>, last: Option<u32>) -> bool
    ensures { IsTrue result → IsNoLaterThan call.now last }
{
    match last {
        Some(last) => call.place == last || returned_before(call, last),
        None => false,
    }
}

/// Whether the call returned before a place.
pub(crate) fn returned_before(call: &CallAt<'_>, place: u32) -> bool
    ensures { IsTrue result → ReturnedBefore call.now place }
{
    match &call.answer {
        Some(answer) => answer.place < place,
        None => false,
    }
}
