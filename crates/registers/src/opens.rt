//! The calls that are open while another returns, and do something to a register.

ghost use Rattle.std.specs.Prelude.{◌≡◌, ℕ, ◌<◌, ◌^◌, Some, slice_get, IfOk, IfSome};
ghost use Rattle.rmi_view.specs.Seen.{reply_seen};
ghost use Rattle.registers.specs.declared.open_call.OpenCall.{OpenCall};
ghost use Rattle.registers.specs.Cpus.{AreCpus};
ghost use Rattle.registers.specs.Opens.{HasOpen, HaveOpen, IsReturnPlace, IsTold};

use crate::calls::{carried_out, done_by};
use crate::cpus::{CPUS, Cpu};
use crate::open_call::OpenCall;
use crate::setting::Setting;
use rmi_view::ReplyRef;
use std::alloc::AllocError;

/// The other CPUs' calls that are open at the place and do something to the register of the slot, if they aren't refused later.
pub(crate) fn open_calls(
    setting: &Setting<'_>,
    cpus: &[Cpu; 8],
    place: u32,
    cpu: u8,
    slot: usize,
) -> Result<Vec<OpenCall>, AllocError>
    requires cpus { AreCpus setting.now.history.now.recorded.events place cpus.now }
    requires slot { slot < 2 ^ 54 }
    ensures few { IfOk result (λ opens. (i : ℕ) (one : OpenCall) → slice_get opens.items i ≡ Some one → one.cpu < 8) }
    ensures all { IfOk result (λ opens. HaveOpen setting.now.history.now.recorded setting.now.owners.now place cpu slot opens.items) }
{
    let _fact = setting.history.well_formed();
    let mut opens = Vec::new(setting.alloc);
    for other in 0..CPUS {
        if other == cpu {
            continue;
        }
        if let Some(one) = open_call(setting, cpus, place, other, slot) {
            opens.push(one)?;
        }
    }
    Ok(opens)
}

/// The CPU's call that is open at the place, where it does something to the register of the slot and isn't refused later.
fn open_call(
    setting: &Setting<'_>,
    cpus: &[Cpu; 8],
    place: u32,
    cpu: u8,
    slot: usize,
) -> Option<OpenCall>
    requires cpus { AreCpus setting.now.history.now.recorded.events place cpus.now }
    requires cpu { cpu < 8 }
    requires slot { slot < 2 ^ 54 }
    ensures cpu { IfSome result (λ one. one.cpu ≡ cpu) }
    ensures all { HasOpen setting.now.history.now.recorded setting.now.owners.now place slot cpu result }
{
    let _fact = setting.history.well_formed();
    let one = cpus[cpu as usize];
    let places = one.places?;
    if places.called >= place {
        return None;
    }
    let command = setting.history.command_at(places.called as usize)?;
    let returned = places.returned;
    let call = carried_out(command, reply_of(setting, returned))?;
    let done = done_by(setting.owners, slot, one.entered, &call)?;
    Some(OpenCall {
        cpu,
        done,
        returned,
    })
}

/// The reply of the return at a place, or any that isn't refused where the call doesn't return.
fn reply_of<'h>(setting: &Setting<'h>, returned: Option<u32>) -> ReplyRef<'h>
    requires { IsReturnPlace setting.now.history.now.recorded.events returned }
    ensures { IsTold setting.now.history.now.recorded.events returned (reply_seen result) }
{
    let Some(place) = returned else {
        return ReplyRef::Ok(&[]);
    };
    match setting.history.reply_at(place as usize) {
        Some(reply) => reply,
        None => unreachable!(),
    }
}
