//! Whether calls leave a fact since one made it.

ghost use Rattle.std.specs.Prelude.{◌<◌, ◌≡◌, ◌≤◌, ◌⊎◌, ℕ, length, IfNone, IfSome, IsTrue};
ghost use Rattle.slicing.specs.Calls.{AreBack, events_to};
ghost use Rattle.slicing.specs.Facts.{IsLeftOrEarly, IsPassedBy, KeepsUnread, LeavesAt, LeavesElsewhere};
ghost use Rattle.verdict_laws.specs.HeldFacts as laws;

use crate::call_at::{CallAt, call_at};
use crate::done::is_no_later;
use crate::early::{are_back, open_from};
use crate::elsewhere::stays_with;
use crate::ending::keeps;
use crate::leaving::is_left;
use crate::standing::standing_before;
use crate::turns::comes_apart;
use history::History;
use rmm_spec::Call;
use verdict_laws::{Fact, InTurn};

/// Whether each call leaves the fact, or is no later than the one that makes it, but the one that is made at the place.
pub(crate) fn are_left(
    history: &History,
    count: u32,
    place: u32,
    fact: Fact,
    maker: Option<u32>,
    turn: Option<InTurn>,
) -> bool
    requires { count ≤ length history.now.recorded.events }
    ensures { IsTrue result → (at : ℕ) → IsLeftOrEarly turn fact (events_to count history.now.recorded.events) place maker at }
{
    let to = looked_to(history, count, place);
    for at in looked_from(history, count, maker)..to {
        if !is_left_or_early(history, count, place, fact, maker, at, turn) {
            return false;
        }
    }
    true
}

/// A place before which each call that was made returned before the one that makes the fact.
pub(crate) fn looked_from(history: &History, count: u32, maker: Option<u32>) -> u32
    requires { count ≤ length history.now.recorded.events }
    ensures made { IfSome maker (AreBack (events_to count history.now.recorded.events) result) }
    ensures none { IfNone maker (result ≡ 0) }
{
    let Some(maker) = maker else {
        return 0;
    };
    let from = open_from(history, maker);
    if are_back(history, count, from, maker) {
        from
    } else {
        0
    }
}

/// A place up to which each call is looked at: none that is made later comes before the one at the other place, which returned before it.
pub(crate) fn looked_to(history: &History, count: u32, place: u32) -> u32
    requires { count ≤ length history.now.recorded.events }
    ensures within { result ≤ count }
    ensures over { (at : ℕ) → result ≤ at → (count ≤ at) ⊎ laws.IsOver (events_to count history.now.recorded.events) place at }
{
    if place >= count {
        return count;
    }
    let Some(call) = call_at(history, count, place) else {
        return count;
    };
    match &call.answer {
        Some(answer) if answer.place < count => answer.place + 1,
        _ => count,
    }
}

/// Whether the call that is made at a place, if one is, is such.
pub(crate) fn is_left_or_early(
    history: &History,
    count: u32,
    place: u32,
    fact: Fact,
    maker: Option<u32>,
    at: u32,
    turn: Option<InTurn>,
) -> bool
    requires within { count ≤ length history.now.recorded.events }
    requires place { at < count }
    ensures { IsTrue result → IsLeftOrEarly turn fact (events_to count history.now.recorded.events) place maker at }
{
    if keeps_unread(history, fact, at) || comes_apart(turn, place, maker, at) {
        return true;
    }
    let Some(call) = call_at(history, count, at) else {
        return true;
    };
    is_passed_by(history, count, place, fact, &call) || is_no_later(&call, maker)
}

/// Whether the call that is made at a place, if one is, doesn't end the fact, whatever it is replied. Neither its number nor its reply is sought.
fn keeps_unread(history: &History, fact: Fact, at: u32) -> bool
    requires { at < length history.now.recorded.events }
    ensures { IsTrue result → KeepsUnread fact history.now.recorded.events at }
{
    match history.command_at(at as usize) {
        Some(command) => keeps(fact, &command.call()),
        None => true,
    }
}

/// Whether the call is the one that is made at the place, or leaves the fact, by itself or where its CPU stands.
fn is_passed_by(history: &History, count: u32, place: u32, fact: Fact, call: &CallAt<'_>) -> bool
    requires { count ≤ length history.now.recorded.events }
    ensures { IsTrue result → IsPassedBy fact (events_to count history.now.recorded.events) place call.now }
{
    leaves_at(place, fact, call) || is_left_elsewhere(history, count, fact, call)
}

/// Whether it is the one that is made at the place, or leaves the fact by itself.
fn leaves_at(place: u32, fact: Fact, call: &CallAt<'_>) -> bool
    ensures { IsTrue result → LeavesAt fact place call.now }
{
    call.place == place || call.changes_nothing() || is_left(fact, call)
}

/// Whether the call leaves the fact where its CPU stands.
fn is_left_elsewhere(history: &History, count: u32, fact: Fact, call: &CallAt<'_>) -> bool
    requires { count ≤ length history.now.recorded.events }
    ensures { IsTrue result → LeavesElsewhere fact (events_to count history.now.recorded.events) call.now }
{
    if !matches!(call.call, Call::CpuOff | Call::Exit) {
        return false;
    }
    match standing_before(history, count, call.cpu, call.number) {
        Some(standing) => stays_with(fact, &call.call, standing),
        None => false,
    }
}
