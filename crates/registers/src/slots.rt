//! A slot for each register.

ghost use Rattle.std.specs.Prelude.{◌≡◌, ◌⊎◌, ℕ, ◌+◌, ◌<◌, ◌≤◌, ◌^◌, Some, slice_get, IfOk};
ghost use Rattle.registers.specs.declared.slots.Slot.{Slot};
ghost use Rattle.registers.specs.declared.slots.Slot.TheVariants.{AtFirst, Dropped};
ghost use Rattle.registers.specs.Owners.{rd_at};

use crate::owners::GRANULE;
use crate::possible::Possible;
use std::alloc::{AllocError, Global};

/// How many registers a realm has, and slots.
pub(crate) const REGISTERS: usize = 4;

/// What is known of a register.
#[derive(Drop)]
pub(crate) enum Slot {
    /// No call did anything to it.
    AtFirst,
    /// What an order of its calls may have come to.
    Kept(Vec<Possible>),
    /// Nothing.
    Dropped,
}

/// Which registers are asked.
#[derive(Clone, Copy)]
pub enum Asked {
    /// Each of every realm.
    All,
    /// The one of the number, counted from 0, of the realms that are made at the address.
    One { rd: u64, number: usize },
}

impl Asked {
    /// Whether the register of the slot is asked.
    fn has(&self, slot: usize) -> bool {
        match self {
            Asked::All => true,
            Asked::One { rd, number } => { *number < REGISTERS && slot == first_of(*rd) + *number }
        }
    }
}

/// So many slots, of those registers that are asked, to which no call did anything.
pub(crate) fn first_slots(
    alloc: Global,
    count: usize,
    asked: Asked,
) -> Result<Vec<Slot>, AllocError>
    ensures { IfOk result (λ slots. (k : ℕ) (slot : Slot) → slice_get slots.items k ≡ Some slot → (slot ≡ AtFirst) ⊎ (slot ≡ Dropped)) }
{
    let mut slots = Vec::new(alloc);
    for slot in 0..count {
        slots.push(first_slot(asked.has(slot)))?;
    }
    Ok(slots)
}

/// What is known of a register before the first event.
fn first_slot(is_asked: bool) -> Slot
    ensures { (result ≡ AtFirst) ⊎ (result ≡ Dropped) }
{
    if is_asked {
        Slot::AtFirst
    } else {
        Slot::Dropped
    }
}

/// The first slot of a realm.
pub(crate) fn first_of(rd: u64) -> usize
    ensures few { result + 4 ≤ 2 ^ 54 }
    ensures all { (slot : ℕ) → rd_at slot ≡ rd → (result ≤ slot) × (slot < result + 4) }
{
    (rd / GRANULE) as usize * REGISTERS
}

/// Nothing is known any more of a realm's registers.
pub(crate) fn drop_realm(slots: &mut Vec<Slot>, rd: u64)
    ensures { (k : ℕ) (slot : Slot) → slice_get slots.new.items k ≡ Some slot
        → (slot ≡ Dropped) ⊎ ((slice_get slots.old.items k ≡ Some slot) × ¬ (rd_at k ≡ rd)) }
{
    let first = first_of(rd);
    'slots: for slot in first..first + REGISTERS {
        if slot < slots.len() {
            slots[slot] = Slot::Dropped;
        }
    }
}
