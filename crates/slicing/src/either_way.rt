//! Whether replies are denied whichever of two calls comes first: one that may have ended a fact and the one that made it, or two that enter a REC or
//! set what it asks for.

ghost use Rattle.std.specs.Prelude.{◌≡◌, IfSome, IsTrue, Some};
ghost use Rattle.slicing.specs.Calls.{IsReturn, events_to};
ghost use Rattle.verdict_laws.specs.HeldFacts as laws;

use crate::call_at::call_at;
use crate::denied::{are_denying, deny_last, is_denied_where};
use crate::early::open_from;
use crate::held::is_held;
use crate::last_return::{LastReturn, return_at};
use crate::latest::function_at;
use crate::left::{is_left_or_early, looked_from};
use crate::supposing::maker_before;
use history::History;
use rmi_view::ReplyRef;
use rmm_spec::{Call, FunctionId};
use verdict_laws::{Fact, InTurn};

/// Whether the facts deny the reply where a call that may have ended one comes before the one that made it, and a reply is denied where it doesn't.
pub(crate) fn is_denied_past_one(
    history: &History,
    count: u32,
    last: &LastReturn<'_>,
    facts: &[Fact],
) -> bool
    requires { IsReturn (events_to count history.now.recorded.events) last.now }
    ensures { IsTrue result
        → laws.IsDeniedEitherWay history.now.recorded.config.granules (events_to count history.now.recorded.events) }
{
    match turn_in_the_way(history, count, last, facts) {
        Some(turn) => are_denied(history, count, last, facts, turn),
        None => false,
    }
}

/// Of the first fact that isn't held, though all together would deny the reply, the call that may have ended it before the one that made it. What is
/// found isn't promised: it is checked.
fn turn_in_the_way(
    history: &History,
    count: u32,
    last: &LastReturn<'_>,
    facts: &[Fact],
) -> Option<InTurn> {
    if !deny_last(history, count, last, facts) {
        return None;
    }
    for fact in facts {
        if !is_held(history, count, last.called, *fact, None) {
            return turn_of(history, count, last.called, *fact);
        }
    }
    None
}

/// The first call that may have ended the fact since one made it, to come before that.
fn turn_of(history: &History, count: u32, place: u32, fact: Fact) -> Option<InTurn> {
    let maker = maker_before(history, count, place, fact)?;
    if count as usize > history.len() {
        return None;
    }
    for at in looked_from(history, count, Some(maker))..count {
        if !is_left_or_early(history, count, place, fact, Some(maker), at, None) {
            return Some(InTurn {
                first: at,
                second: maker,
            });
        }
    }
    None
}

/// Whether the facts deny the reply where the calls come so, and that of the other one is denied where they don't.
fn are_denied(
    history: &History,
    count: u32,
    last: &LastReturn<'_>,
    facts: &[Fact],
    turn: InTurn,
) -> bool
    requires { IsReturn (events_to count history.now.recorded.events) last.now }
    ensures { IsTrue result
        → laws.IsDeniedEitherWay history.now.recorded.config.granules (events_to count history.now.recorded.events) }
{
    if turn.first == turn.second || turn.first >= count || count as usize > history.len() {
        return false;
    }
    let Some(call) = call_at(history, count, turn.first) else {
        return false;
    };
    let Some(other) = return_at(history, count, turn.second) else {
        return false;
    };
    are_denying(history, count, last, facts, Some(turn))
        && is_denied_otherwise(history, count, &other, call.cpu, turn)
}

/// Whether the return's reply is denied where it comes before the call of a CPU.
fn is_denied_otherwise(
    history: &History,
    count: u32,
    other: &LastReturn<'_>,
    cpu: u8,
    turn: InTurn,
) -> bool
    requires { IsReturn (events_to count history.now.recorded.events) other.now }
    ensures { IsTrue result → laws.IsDeniedWhere (Some (record { first = turn.second; second = turn.first }))
        history.now.recorded.config.granules (events_to count history.now.recorded.events) }
{
    let otherwise = Some(InTurn {
        first: turn.second,
        second: turn.first,
    });
    if let Some(fact) = runs_on(&other.call, cpu) {
        if are_denying(history, count, other, &[fact], otherwise) {
            return true;
        }
    }
    is_denied_where(history, count, other, otherwise)
}

/// That the REC runs on the CPU which the call needs idle.
fn runs_on(call: &Call, cpu: u8) -> Option<Fact> {
    match *call {
        Call::RecEnter { rec } | Call::RecDestroy { rec } | Call::RttSetRipas { rec, .. } => {
            Some(Fact::RunsOn { rec, cpu })
        }
        _ => None,
    }
}

/// Whether replies are denied whichever comes first, the return's call or one of the same REC that isn't over when that is made.
pub(crate) fn is_denied_beside(history: &History, count: u32, last: &LastReturn<'_>) -> bool
    requires { IsReturn (events_to count history.now.recorded.events) last.now }
    ensures { IsTrue result
        → laws.IsDeniedEitherWay history.now.recorded.config.granules (events_to count history.now.recorded.events) }
{
    let Some(rec) = rec_changed(&last.call, last.reply) else {
        return false;
    };
    for at in open_from(history, last.called)..count {
        if let Some(other) = beside_at(history, count, at, rec) {
            if are_denied_both(history, count, &other, last) {
                return true;
            }
        }
    }
    false
}

/// The REC that the call enters, or of which it sets a part of what that asks for, if it is carried out.
fn rec_changed(call: &Call, reply: ReplyRef<'_>) -> Option<u64> {
    match *call {
        Call::RecEnter { rec } | Call::RttSetRipas { rec, .. }
            if matches!(reply, ReplyRef::Ok(_)) => Some(rec),
        _ => None,
    }
}

/// The return of the call that is made at the place, if that does so of the REC.
fn beside_at(history: &History, count: u32, at: u32, rec: u64) -> Option<LastReturn<'_>>
    ensures { IfSome result (IsReturn (events_to count history.now.recorded.events)) }
{
    if !matches!(
        function_at(history, at),
        Some(FunctionId::RecEnter | FunctionId::RttSetRipas)
    ) {
        return None;
    }
    let other = return_at(history, count, at)?;
    if rec_changed(&other.call, other.reply) == Some(rec) {
        Some(other)
    } else {
        None
    }
}

/// Whether the reply of either is denied where the other comes first.
fn are_denied_both(
    history: &History,
    count: u32,
    one: &LastReturn<'_>,
    other: &LastReturn<'_>,
) -> bool
    requires one { IsReturn (events_to count history.now.recorded.events) one.now }
    requires other { IsReturn (events_to count history.now.recorded.events) other.now }
    ensures { IsTrue result
        → laws.IsDeniedEitherWay history.now.recorded.config.granules (events_to count history.now.recorded.events) }
{
    if one.called == other.called {
        return false;
    }
    is_denied_after(history, count, other, one) && is_denied_after(history, count, one, other)
}

/// Whether the return's reply is denied where another call comes before its own.
fn is_denied_after(
    history: &History,
    count: u32,
    last: &LastReturn<'_>,
    first: &LastReturn<'_>,
) -> bool
    requires { IsReturn (events_to count history.now.recorded.events) last.now }
    ensures { IsTrue result → laws.IsDeniedWhere (Some (record { first = first.now.called; second = last.now.called }))
        history.now.recorded.config.granules (events_to count history.now.recorded.events) }
{
    let turn = Some(InTurn {
        first: first.called,
        second: last.called,
    });
    match made_by(first) {
        Some(fact) => are_denying(history, count, last, &[fact], turn),
        None => false,
    }
}

/// What is so of the REC after the call.
fn made_by(first: &LastReturn<'_>) -> Option<Fact> {
    match first.call {
        Call::RecEnter { rec } => Some(Fact::RunsOn {
            rec,
            cpu: first.cpu,
        }),
        Call::RttSetRipas { rec, .. } => match first.reply {
            ReplyRef::Ok([base]) => Some(Fact::AsksFrom { rec, base: *base }),
            _ => None,
        },
        _ => None,
    }
}
