//! Whether calls leave a fact since one made it, by themselves or beside another fact.

ghost use Rattle.std.specs.Prelude.{◌<◌, ◌≡◌, ◌≤◌, ℕ, length, IsTrue};
ghost use Rattle.slicing.specs.Calls.{events_to};
ghost use Rattle.slicing.specs.Facts.{IsBesideAt, IsLeftOrBeside};
ghost use Rattle.verdict_laws.specs.Facts as laws;

use crate::call_at::call_at;
use crate::held::is_held_alone;
use crate::latest_recs::asked_to;
use crate::left::{is_left_or_early, looked_from, looked_to};
use history::History;
use rmm_spec::Call;
use verdict_laws::{Fact, InTurn};

/// Whether each call leaves the fact, by itself or beside another, or comes no later than the one that makes it, but the one that is made at the
/// place.
pub(crate) fn are_left_beside(
    history: &History,
    count: u32,
    place: u32,
    fact: Fact,
    maker: u32,
    turn: Option<InTurn>,
) -> bool
    requires { count ≤ length history.now.recorded.events }
    ensures { IsTrue result → (at : ℕ) → IsLeftOrBeside turn fact (events_to count history.now.recorded.events) place maker at }
{
    let to = looked_to(history, count, place);
    for at in looked_from(history, count, Some(maker))..to {
        if !is_left_or_beside(history, count, place, fact, maker, at, turn) {
            return false;
        }
    }
    true
}

/// Whether the call that is made at a place, if one is, is such.
fn is_left_or_beside(
    history: &History,
    count: u32,
    place: u32,
    fact: Fact,
    maker: u32,
    at: u32,
    turn: Option<InTurn>,
) -> bool
    requires within { count ≤ length history.now.recorded.events }
    requires place { at < count }
    ensures { IsTrue result → IsLeftOrBeside turn fact (events_to count history.now.recorded.events) place maker at }
{
    is_left_or_early(history, count, place, fact, Some(maker), at, turn)
        || is_left_beside(history, count, fact, at, turn)
}

/// Whether the call leaves the fact where its REC asks for what that says.
fn is_left_beside(history: &History, count: u32, fact: Fact, at: u32, turn: Option<InTurn>) -> bool
    requires within { count ≤ length history.now.recorded.events }
    requires place { at < count }
    ensures { IsTrue result → IsBesideAt turn fact (events_to count history.now.recorded.events) at }
{
    let Some(call) = call_at(history, count, at) else {
        return true;
    };
    let Call::RttSetRipas { rec, .. } = call.call else {
        return false;
    };
    let Some(other) = asked_to(history, count, at, rec) else {
        return false;
    };
    leaves_beside(other, fact, &call.call) && is_held_alone(history, count, at, other, turn)
}

/// Whether the call leaves the fact where another holds before: the REC asks for that.
fn leaves_beside(other: Fact, fact: Fact, call: &Call) -> bool
    ensures { result ≡ laws.leaves_beside other fact call.now }
{
    match other {
        Fact::RunsOrAsksTo {
            rec,
            ripas: asked,
            ..
        } => match fact {
            Fact::HasRipas { ripas, .. } => ripas == asked && sets_asked(call, rec),
            _ => false,
        },
        _ => false,
    }
}

/// Whether the call sets the RIPAS that the REC asks for.
#[tactic(auto, unfolding(verdict_laws::specs::Facts::sets_asked))]
fn sets_asked(call: &Call, rec: u64) -> bool
    ensures { result ≡ laws.sets_asked call.now rec }
{
    match call {
        Call::RttSetRipas { rec: other, .. } => rec == *other,
        _ => false,
    }
}
