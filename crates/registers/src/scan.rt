//! A history is read event by event.

ghost use Rattle.std.specs.Prelude.{◌≡◌, ℕ, ◌+◌, ◌<◌, [], length, IfOk, IfSome};
ghost use Rattle.rmm_spec.specs.declared.reply.Reply.{Reply};
ghost use Rattle.rmm_spec.specs.Linearization.{IsReturned};
ghost use Rattle.rmi_view.specs.Seen.{reply_seen};
ghost use Rattle.verdict_laws.specs.Order.{LeadsNowhere};
ghost use Rattle.registers.specs.Slots.{AreAsked, AreSlots, IsAfter, IsScan};

use crate::calls::{carried_out, entered_by};
use crate::cpus::{Cpu, first_cpus, pass_return, return_at};
use crate::owners::{first_owners, owner_in};
use crate::returns::return_to;
use crate::setting::Setting;
use crate::slots::{Asked, REGISTERS, Slot, drop_realm, first_slots};
use history::History;
use rmi_view::ReplyRef;
use rmm_spec::{Call, FunctionId};
use std::alloc::{AllocError, Global};

/// How many granules a machine of which anything is told has at most.
const MOST_GRANULES: u64 = 65_536;

/// Where each CPU stands at a place, and what is known of each register.
#[derive(Drop)]
pub(crate) struct Scan {
    pub(crate) cpus: [Cpu; 8],
    pub(crate) slots: Vec<Slot>,
}

/// What is found at an event.
pub(crate) enum Step {
    /// The scan goes on after it.
    On,
    /// No order is possible.
    Lost,
    /// The event is none that a history can have there.
    Unknown,
}

/// The place of a return that no order of the calls of some register survives, of those that are asked, where one is found. At a return 512
/// possibilities of a register are kept, and as many more as are to spare for all registers, of which those that were needed are taken.
pub fn lost_register(
    alloc: Global,
    history: &History,
    asked: Asked,
    spare: &mut usize,
) -> Result<Option<u32>, AllocError>
    ensures { IfOk result (λ lost. IfSome lost (λ _. LeadsNowhere history.now.recorded [])) }
{
    let _fact = history.well_formed();
    let granules = history.config().granules();
    if granules > MOST_GRANULES {
        return Ok(None);
    }
    let owners = first_owners(alloc, history)?;
    let setting = Setting {
        alloc,
        history,
        owners: owners.as_slice(),
    };
    let mut scan = first_scan(&setting, granules as usize * REGISTERS, asked)?;
    'places: for place in 0..history.len() as u32 {
        match read_event(&setting, &mut scan, spare, place)? {
            Step::On => {}
            Step::Lost => return Ok(Some(place)),
            Step::Unknown => return Ok(None),
        }
    }
    Ok(None)
}

/// What is known before the first event.
fn first_scan(setting: &Setting<'_>, count: usize, asked: Asked) -> Result<Scan, AllocError>
    ensures { IfOk result (IsScan setting.now.history.now.recorded setting.now.owners.now 0) }
{
    let cpus = first_cpus(setting.history);
    let slots = first_slots(setting.alloc, count, asked)?;
    Ok(Scan { cpus, slots })
}

/// Reads the event at the place.
fn read_event(
    setting: &Setting<'_>,
    scan: &mut Scan,
    spare: &mut usize,
    place: u32,
) -> Result<Step, AllocError>
    requires place { place < length setting.now.history.now.recorded.events }
    requires scan { IsScan setting.now.history.now.recorded setting.now.owners.now place scan.old }
    ensures { IfOk result (IsAfter setting.now.history.now.recorded setting.now.owners.now place scan.new) }
{
    match setting.history.reply_at(place as usize) {
        Some(reply) => read_return(setting, scan, spare, place, reply),
        None => {
            pass_call(setting, &mut scan.slots, place);
            Ok(Step::On)
        }
    }
}

/// Reads a call.
fn pass_call(setting: &Setting<'_>, slots: &mut Vec<Slot>, place: u32)
    requires place { place < length setting.now.history.now.recorded.events }
    requires no_return { (cpu number : ℕ) (given : Reply) → ¬ IsReturned setting.now.history.now.recorded.events place cpu number given }
    requires slots { AreSlots setting.now.history.now.recorded setting.now.owners.now place slots.old.items }
    ensures { AreSlots setting.now.history.now.recorded setting.now.owners.now (place + 1) slots.new.items }
{
    let _fact = setting.history.well_formed();
    let Some(command) = setting.history.command_at(place as usize) else {
        return;
    };
    if let FunctionId::RecCreate = command.function {
        drop_asked(setting.owners, slots, &command.call());
    }
}

/// Where the call asks for a REC of a granule for another realm than the first one did, nothing is known of either realm's registers any more.
fn drop_asked(owners: &[Option<u64>], slots: &mut Vec<Slot>, call: &Call)
    ensures { AreAsked owners.now call.now slots.old.items slots.new.items }
{
    let Call::RecCreate { rd, rec, .. } = call else {
        return;
    };
    match owner_in(owners, *rec) {
        None => drop_realm(slots, *rd),
        Some(owner) => {
            if owner != *rd {
                drop_realm(slots, owner);
                drop_realm(slots, *rd);
            }
        }
    }
}

/// Reads a return.
fn read_return(
    setting: &Setting<'_>,
    scan: &mut Scan,
    spare: &mut usize,
    place: u32,
    reply: ReplyRef<'_>,
) -> Result<Step, AllocError>
    requires told { (cpu : ℕ) × (number : ℕ) × IsReturned setting.now.history.now.recorded.events place cpu number (reply_seen reply) }
    requires scan { IsScan setting.now.history.now.recorded setting.now.owners.now place scan.old }
    ensures { IfOk result (IsAfter setting.now.history.now.recorded setting.now.owners.now place scan.new) }
{
    let _fact = setting.history.well_formed();
    let Some(at) = return_at(setting.history, &scan.cpus, place) else {
        return Ok(Step::Unknown);
    };
    let Some(command) = setting.history.command_at(at.called as usize) else {
        return Ok(Step::Unknown);
    };
    match carried_out(command, reply) {
        None => {
            pass_return(setting.history, &mut scan.cpus, at, at.entered);
            Ok(Step::On)
        }
        Some(call) => {
            if !return_to(setting, &scan.cpus, &mut scan.slots, spare, &at, &call)? {
                return Ok(Step::Lost);
            }
            let entered = entered_by(at.entered, &call);
            pass_return(setting.history, &mut scan.cpus, at, entered);
            Ok(Step::On)
        }
    }
}
