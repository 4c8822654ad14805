//! What a return does to the slots.

ghost use Rattle.std.specs.Prelude.{◌≡◌, ℕ, ◌+◌, ◌<◌, ◌^◌, Some, [], false, slice_get, IfOk, IsTrue, MatchOption};
ghost use Rattle.rmm_spec.specs.declared.call.Call.{Call};
ghost use Rattle.verdict_laws.specs.Order.{LeadsNowhere};
ghost use Rattle.verdict_laws.specs.Registers.{register_call};
ghost use Rattle.registers.specs.declared.slots.Slot.{Slot};
ghost use Rattle.registers.specs.Cpus.{AreCpus, CarriesOut};
ghost use Rattle.registers.specs.Leads.{call_done};
ghost use Rattle.registers.specs.Owners.{mine_at, register_at};
ghost use Rattle.registers.specs.Slots.{ArePossible, AreSlots, IsSlot, IsSlotOf};

use crate::calls::{done_by, realm_of};
use crate::cpus::{Cpu, Return};
use crate::done::Done;
use crate::growing::next_possible;
use crate::opens::open_calls;
use crate::possible::Possible;
use crate::setting::Setting;
use crate::slots::{REGISTERS, Slot, first_of};
use rmm_spec::Call;
use std::alloc::AllocError;

/// Takes the return of a call that isn't refused to the slots, and tells whether an order is possible still.
pub(crate) fn return_to(
    setting: &Setting<'_>,
    cpus: &[Cpu; 8],
    slots: &mut Vec<Slot>,
    spare: &mut usize,
    at: &Return,
    call: &Call,
) -> Result<bool, AllocError>
    requires cpus { AreCpus setting.now.history.now.recorded.events at.now.place cpus.now }
    requires call { CarriesOut setting.now.history.now.recorded.events cpus.now at.now call.now }
    requires slots { AreSlots setting.now.history.now.recorded setting.now.owners.now at.now.place slots.old.items }
    ensures on { IfOk result (λ on. IsTrue on → AreSlots setting.now.history.now.recorded setting.now.owners.now (at.now.place + 1) slots.new.items) }
    ensures lost { IfOk result (λ on. on ≡ false → LeadsNowhere setting.now.history.now.recorded []) }
{
    let _fact = setting.history.well_formed();
    let Some(rd) = realm_of(setting.owners, at.entered, call) else {
        return Ok(true);
    };
    let first = first_of(rd);
    'slots: for slot in first..first + REGISTERS {
        if !return_to_slot(setting, cpus, slots, spare, at, call, slot)? {
            return Ok(false);
        }
    }
    Ok(true)
}

/// Takes it to one slot, if there is one with that number.
fn return_to_slot(
    setting: &Setting<'_>,
    cpus: &[Cpu; 8],
    slots: &mut Vec<Slot>,
    spare: &mut usize,
    at: &Return,
    call: &Call,
    slot: usize,
) -> Result<bool, AllocError>
    requires cpus { AreCpus setting.now.history.now.recorded.events at.now.place cpus.now }
    requires call { CarriesOut setting.now.history.now.recorded.events cpus.now at.now call.now }
    requires few { slot < 2 ^ 54 }
    requires slot { IsSlotOf setting.now.history.now.recorded setting.now.owners.now at.now.place slots.old.items slot }
    ensures on { IfOk result (λ on. IsTrue on
        → IsSlotOf setting.now.history.now.recorded setting.now.owners.now (at.now.place + 1) slots.new.items slot) }
    ensures others { IfOk result (λ on. (k : ℕ) (other : Slot) → ¬ (k ≡ slot) → slice_get slots.new.items k ≡ Some other
        → slice_get slots.old.items k ≡ Some other) }
    ensures lost { IfOk result (λ on. on ≡ false → LeadsNowhere setting.now.history.now.recorded []) }
{
    let _fact = setting.history.well_formed();
    let Some(done) = done_by(setting.owners, slot, at.entered, call) else {
        return Ok(true);
    };
    if slot >= slots.len() {
        return Ok(true);
    }
    let next = next_slot(setting, cpus, spare, &slots[slot], at, &done, slot)?;
    match next {
        Some(next) => {
            slots[slot] = next;
            Ok(true)
        }
        None => Ok(false),
    }
}

/// The slot after a return that does this to its register. There is none where no order is possible any more.
fn next_slot(
    setting: &Setting<'_>,
    cpus: &[Cpu; 8],
    spare: &mut usize,
    old: &Slot,
    at: &Return,
    done: &Done,
    slot: usize,
) -> Result<Option<Slot>, AllocError>
    requires cpus { AreCpus setting.now.history.now.recorded.events at.now.place cpus.now }
    requires done { (call : Call) × CarriesOut setting.now.history.now.recorded.events cpus.now at.now call
        × (register_call (register_at slot) (mine_at setting.now.owners.now slot) at.now.entered call ≡ Some (call_done done.now)) }
    requires few { slot < 2 ^ 54 }
    requires old { IsSlot setting.now.history.now.recorded setting.now.owners.now at.now.place slot old.now }
    ensures { IfOk result (λ next. MatchOption next (LeadsNowhere setting.now.history.now.recorded [])
        (IsSlot setting.now.history.now.recorded setting.now.owners.now (at.now.place + 1) slot)) }
{
    match old {
        Slot::AtFirst => next_from(
            setting,
            cpus,
            spare,
            &[Possible::at_first()],
            at,
            done,
            slot,
        ),
        Slot::Kept(possible) => {
            next_from(setting, cpus, spare, possible.as_slice(), at, done, slot)
        }
        Slot::Dropped => Ok(Some(Slot::Dropped)),
    }
}

/// The same, from the possibilities before.
fn next_from(
    setting: &Setting<'_>,
    cpus: &[Cpu; 8],
    spare: &mut usize,
    possible: &[Possible],
    at: &Return,
    done: &Done,
    slot: usize,
) -> Result<Option<Slot>, AllocError>
    requires cpus { AreCpus setting.now.history.now.recorded.events at.now.place cpus.now }
    requires done { (call : Call) × CarriesOut setting.now.history.now.recorded.events cpus.now at.now call
        × (register_call (register_at slot) (mine_at setting.now.owners.now slot) at.now.entered call ≡ Some (call_done done.now)) }
    requires few { slot < 2 ^ 54 }
    requires possible { ArePossible setting.now.history.now.recorded setting.now.owners.now at.now.place slot possible.now }
    ensures { IfOk result (λ next. MatchOption next (LeadsNowhere setting.now.history.now.recorded [])
        (IsSlot setting.now.history.now.recorded setting.now.owners.now (at.now.place + 1) slot)) }
{
    let _fact = setting.history.well_formed();
    let opens = open_calls(setting, cpus, at.place, at.cpu, slot)?;
    let next = next_possible(
        setting,
        spare,
        opens.as_slice(),
        at.place,
        at.cpu,
        done,
        possible,
    )?;
    match next {
        Some(next) => {
            if next.is_empty() {
                return Ok(None);
            }
            Ok(Some(Slot::Kept(next)))
        }
        None => Ok(Some(Slot::Dropped)),
    }
}
