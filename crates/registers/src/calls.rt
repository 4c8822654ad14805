//! What calls do.

ghost use Rattle.std.specs.Prelude.{◌≡◌, ◌≢◌, ℕ, ◌<◌, ◌^◌, Some, None, IfSome, IfNone};
ghost use Rattle.std.specs.Option.{option_map};
ghost use Rattle.rmm_spec.specs.declared.reply.Reply.{Reply};
ghost use Rattle.rmm_spec.specs.Call.{call_of};
ghost use Rattle.rmi_view.specs.Seen.{command_seen, reply_seen};
ghost use Rattle.verdict_laws.specs.Registers.{entered_after, register_call};
ghost use Rattle.registers.specs.Calls.{DoesNothing, IsCarriedOut, is_followed};
ghost use Rattle.registers.specs.Leads.{call_done};
ghost use Rattle.registers.specs.Owners.{mine_at, rd_at, register_at};

use crate::done::Done;
use crate::owners::{GRANULE, owner_of};
use crate::slots::REGISTERS;
use rmi_view::{CommandRef, ReplyRef};
use rmm_spec::{Call, FunctionId};

/// Whether calls of a function may do something to a register, or enter a REC.
fn is_followed(function: FunctionId) -> bool
    ensures { result ≡ is_followed function }
{
    matches!(
        function,
        FunctionId::RealmCreate
            | FunctionId::RecEnter
            | FunctionId::MeasurementRead
            | FunctionId::MeasurementExtend
    )
}

/// The call with that reply, where it may do something to a register or enters a REC.
pub(crate) fn carried_out(command: CommandRef<'_>, reply: ReplyRef<'_>) -> Option<Call>
    ensures call { IfSome result (λ call. call ≡ call_of (command_seen command.entry)) }
    ensures ok { IfSome result (λ _. IsCarriedOut (reply_seen reply.entry)) }
    ensures none { IfNone result (DoesNothing (call_of (command_seen command.entry)) (reply_seen reply.entry)) }
{
    match reply {
        ReplyRef::Ok(_) => {
            if !is_followed(command.function) {
                return None;
            }
            Some(command.call())
        }
        ReplyRef::Err(_, _) | ReplyRef::Misplaced => None,
    }
}

/// The REC that the CPU entered last, after a call that isn't refused.
pub(crate) fn entered_by(entered: Option<u64>, call: &Call) -> Option<u64>
    ensures { (given : Reply) → IsCarriedOut given → result ≡ entered_after entered call.now given }
{
    match call {
        Call::RecEnter { rec } => Some(*rec),
        _ => entered,
    }
}

/// The realm that a call begins, or whose register it extends or reads.
pub(crate) fn realm_of(owners: &[Option<u64>], entered: Option<u64>, call: &Call) -> Option<u64>
    ensures { (slot : ℕ) → result ≢ Some (rd_at slot) → register_call (register_at slot) (mine_at owners.now slot) entered call.now ≡ None }
{
    match call {
        Call::RealmCreate { rd, .. } => Some(*rd),
        Call::MeasurementExtend { .. } | Call::MeasurementRead { .. } => owner_of(owners, entered),
        _ => None,
    }
}

/// What a call does to the register of a slot.
#[tactic(auto, unfolding(verdict_laws::specs::Registers::register_call))]
pub(crate) fn done_by(
    owners: &[Option<u64>],
    slot: usize,
    entered: Option<u64>,
    call: &Call,
) -> Option<Done>
    requires { slot < 2 ^ 54 }
    ensures { option_map call_done result ≡ register_call (register_at slot) (mine_at owners.now slot) entered call.now }
{
    let rd = (slot / REGISTERS) as u64 * GRANULE;
    let number = (slot % REGISTERS) as u64 + 1;
    match call {
        Call::RealmCreate { rd: made, algo, .. } if *made == rd => Some(Done::Begins(*algo)),
        Call::MeasurementExtend {
            index,
            size,
            values,
        } if *index == number && owner_of(owners, entered) == Some(rd) => Some(Done::Extends {
            size: *size,
            values: *values,
        }),
        Call::MeasurementRead { index }
            if *index == number && owner_of(owners, entered) == Some(rd) => { Some(Done::Reads) }
        _ => None,
    }
}
