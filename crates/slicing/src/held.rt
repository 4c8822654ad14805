//! Whether facts hold while a call may take effect: one of the first calls makes each, and nothing else may have ended it since.

ghost use Rattle.std.specs.Prelude.{◌≡◌, ◌≤◌, [], length, IsTrue};
ghost use Rattle.slicing.specs.Calls.{events_to};
ghost use Rattle.slicing.specs.Facts.{IsHeldWith, IsMadeBy, MakesWith};
ghost use Rattle.verdict_laws.specs.HeldFacts as laws;

use crate::beside::are_left_beside;
use crate::done::{Done, done_first};
use crate::latest_recs::asked_to;
use crate::left::are_left;
use crate::making::{begins, makes};
use crate::making_recs::{leaves_with, makes_with};
use crate::standing::standing_before;
use crate::supposing::maker_before;
use crate::supposing_ripas::maker_with;
use crate::turns::first_for;
use history::History;
use rmm_spec::Call;
use verdict_laws::{Fact, InTurn};

/// Whether all the facts hold while the call may take effect that is made at the place.
pub(crate) fn are_held(
    history: &History,
    count: u32,
    place: u32,
    facts: &[Fact],
    turn: Option<InTurn>,
) -> bool
    ensures { IsTrue result → laws.AreHeldAt turn facts.now (events_to count history.now.recorded.events) place }
{
    for fact in facts {
        if !is_held(history, count, place, *fact, turn) {
            return false;
        }
    }
    true
}

/// Whether the fact holds while the call may take effect that is made at the place.
pub(crate) fn is_held(
    history: &History,
    count: u32,
    place: u32,
    fact: Fact,
    turn: Option<InTurn>,
) -> bool
    ensures { IsTrue result → laws.IsHeldAt turn fact (events_to count history.now.recorded.events) place }
{
    is_held_alone(history, count, place, fact, turn)
        || is_held_with(history, count, place, fact, turn)
}

/// Whether it does by itself.
pub(crate) fn is_held_alone(
    history: &History,
    count: u32,
    place: u32,
    fact: Fact,
    turn: Option<InTurn>,
) -> bool
    ensures { IsTrue result → laws.IsHeldAlone turn fact (events_to count history.now.recorded.events) place }
{
    if count as usize > history.len() {
        return false;
    }
    if begins(fact) && are_left(history, count, place, fact, None, turn) {
        return true;
    }
    is_made_by_one(history, count, place, fact, first_for(turn, place), turn)
        || is_made_by_one(
            history,
            count,
            place,
            fact,
            maker_before(history, count, place, fact),
            turn,
        )
}

/// Whether a call makes it, by itself or where another fact holds, and none since may have ended it, by itself or where another fact holds. Only
/// RIPAS are looked at so.
fn is_held_with(history: &History, count: u32, place: u32, fact: Fact, turn: Option<InTurn>) -> bool
    ensures { IsTrue result → IsHeldWith turn fact (events_to count history.now.recorded.events) place }
{
    if count as usize > history.len() || !matches!(fact, Fact::HasRipas { .. }) {
        return false;
    }
    match maker_with(history, count, place, fact) {
        Some(maker) => is_made_with(history, count, place, fact, maker, turn),
        None => false,
    }
}

/// Whether the call made at the maker's place makes it, and none since may have ended it.
fn is_made_with(
    history: &History,
    count: u32,
    place: u32,
    fact: Fact,
    maker: u32,
    turn: Option<InTurn>,
) -> bool
    requires { count ≤ length history.now.recorded.events }
    ensures { IsTrue result → IsHeldWith turn fact (events_to count history.now.recorded.events) place }
{
    match done_first(history, count, maker, place, turn) {
        Some(done) => {
            are_left_beside(history, count, place, fact, maker, turn)
                && makes_it(history, count, fact, maker, &done, turn)
        }
        None => false,
    }
}

/// Whether the call that is made at the place makes the fact, by itself or where its REC asks for what that says.
fn makes_it(
    history: &History,
    count: u32,
    fact: Fact,
    maker: u32,
    done: &Done<'_>,
    turn: Option<InTurn>,
) -> bool
    ensures { IsTrue result → MakesWith turn fact (events_to count history.now.recorded.events) maker done.now }
{
    if is_made_by(history, count, fact, done) {
        return true;
    }
    let Call::RttSetRipas { rec, .. } = done.call else {
        return false;
    };
    let Some(other) = asked_to(history, count, maker, rec) else {
        return false;
    };
    makes_with(other, fact, &done.call, done.reply)
        && is_held_alone(history, count, maker, other, turn)
}

/// Whether a call makes it, where one is supposed to.
fn is_made_by_one(
    history: &History,
    count: u32,
    place: u32,
    fact: Fact,
    maker: Option<u32>,
    turn: Option<InTurn>,
) -> bool
    requires { count ≤ length history.now.recorded.events }
    ensures { IsTrue result → laws.IsHeldAlone turn fact (events_to count history.now.recorded.events) place }
{
    match maker {
        Some(maker) => is_made(history, count, place, fact, maker, turn),
        None => false,
    }
}

/// Whether the call made at the maker's place makes it so, and none since may have ended it.
fn is_made(
    history: &History,
    count: u32,
    place: u32,
    fact: Fact,
    maker: u32,
    turn: Option<InTurn>,
) -> bool
    requires { count ≤ length history.now.recorded.events }
    ensures { IsTrue result → laws.IsHeldAlone turn fact (events_to count history.now.recorded.events) place }
{
    match done_first(history, count, maker, place, turn) {
        Some(done) => {
            is_made_by(history, count, fact, &done)
                && are_left(history, count, place, fact, Some(maker), turn)
        }
        None => false,
    }
}

/// Whether the call makes the fact, by what it says and is replied, or as a REC leaves there that its CPU stands in.
pub(crate) fn is_made_by(history: &History, count: u32, fact: Fact, done: &Done<'_>) -> bool
    ensures { IsTrue result → IsMadeBy fact (events_to count history.now.recorded.events) done.now }
{
    if makes(fact, done.cpu, &done.call, done.reply) {
        return true;
    }
    if !matches!(done.call, Call::Exit) || count as usize > history.len() {
        return false;
    }
    match standing_before(history, count, done.cpu, done.number) {
        Some(standing) => leaves_with(fact, &done.call, standing),
        None => false,
    }
}
