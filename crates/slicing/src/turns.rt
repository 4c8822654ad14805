//! Which calls are supposed to come before which.

ghost use Rattle.std.specs.Prelude.{IsTrue};
ghost use Rattle.slicing.specs.Facts.{ComesApart};
ghost use Rattle.verdict_laws.specs.HeldFacts as laws;

use verdict_laws::InTurn;

/// Whether the call that is made at one place is supposed to come before the one that is made at the other.
pub(crate) fn is_in_turn(turn: Option<InTurn>, one: u32, other: u32) -> bool
    ensures { IsTrue result → laws.IsInTurn turn one other }
{
    match turn {
        Some(turn) => turn.first == one && turn.second == other,
        None => false,
    }
}

/// Whether the call that is made at a place is supposed to come after the one at another, or before the one that makes a fact.
pub(crate) fn comes_apart(turn: Option<InTurn>, place: u32, maker: Option<u32>, at: u32) -> bool
    ensures { IsTrue result → ComesApart turn maker place at }
{
    match maker {
        Some(maker) => is_in_turn(turn, place, at) || is_in_turn(turn, at, maker),
        None => is_in_turn(turn, place, at),
    }
}

/// The call that is supposed to come before the one at the place, if one is.
pub(crate) fn first_for(turn: Option<InTurn>, place: u32) -> Option<u32> {
    let turn = turn?;
    (turn.second == place).then_some(turn.first)
}
