//! Possibilities that are collected.

ghost use Rattle.std.specs.Prelude.{◌≡◌, ◌<◌, IsTrue, IfOk, OnOk, None, false, true};
ghost use Rattle.verdict_laws.specs.Registers.{IsAmong, Possibility, is_placed, with_placed};
ghost use Rattle.registers.specs.Growing.{Keeps};

use crate::possible::Possible;
use std::alloc::{AllocError, Global};

/// So many are few: one that is there already isn't taken again, where of more it may be, unless it is among the last.
pub(crate) const FEW: usize = 512;

/// How many of more are the last.
const LAST: usize = 64;

/// Takes one more, unless it is found.
pub(crate) fn take(possible: &mut Vec<Possible>, one: Possible) -> Result<(), AllocError>
    ensures kept { OnOk result (Keeps possible.old.items possible.new.items) }
    ensures taken { OnOk result (IsAmong one possible.new.items) }
{
    if is_among(&one, possible.as_slice()) {
        return Ok(());
    }
    put(possible, one)
}

/// Puts one more after them.
fn put(possible: &mut Vec<Possible>, one: Possible) -> Result<(), AllocError>
    ensures kept { OnOk result (Keeps possible.old.items possible.new.items) }
    ensures taken { OnOk result (IsAmong one possible.new.items) }
{
    possible.push(one)?;
    Ok(())
}

/// Whether it is found among them.
fn is_among(one: &Possible, possible: &[Possible]) -> bool
    ensures { IsTrue result → IsAmong one.now possible.now }
{
    for index in first_looked_at(possible.len())..possible.len() {
        if one.is_same(&possible[index]) {
            return true;
        }
    }
    false
}

/// From where on so many are looked at.
fn first_looked_at(count: usize) -> usize {
    if count <= FEW { 0 } else { count - LAST }
}

/// Those in which the call of the CPU doesn't stand, each once where they are.
pub(crate) fn without_call(
    alloc: Global,
    cpu: u8,
    possible: &[Possible],
) -> Result<Vec<Possible>, AllocError>
    requires { cpu < 8 }
    ensures { IfOk result (λ begun. (possibility : Possibility) → IsAmong possibility possible.now → is_placed possibility cpu ≡ false
        → IsAmong possibility begun.items) }
{
    let mut begun = Vec::new(alloc);
    for one in possible {
        if !one.is_placed(cpu) {
            put(&mut begun, *one)?;
        }
    }
    Ok(begun)
}

/// Those in which the call of the CPU stands, as they are where it isn't open any more, each once where they are.
pub(crate) fn with_call(
    alloc: Global,
    cpu: u8,
    possible: &[Possible],
) -> Result<Vec<Possible>, AllocError>
    requires { cpu < 8 }
    ensures { IfOk result (λ next. (possibility : Possibility) → IsAmong possibility possible.now → is_placed possibility cpu ≡ true
        → IsAmong (with_placed possibility cpu false None) next.items) }
{
    let mut next = Vec::new(alloc);
    for one in possible {
        if one.is_placed(cpu) {
            put(&mut next, one.without(cpu))?;
        }
    }
    Ok(next)
}
