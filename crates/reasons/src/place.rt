//! Inside which REC a CPU is.

ghost use Rattle.std.specs.Prelude.{◌≡◌, is_some, IfSome};
ghost use Rattle.rmm_spec.specs.Lookup as spec;
ghost use Rattle.rmm_spec.specs.declared.call.Call.TheVariants as call;
ghost use Rattle.rmm_spec.specs.Step.{outcome};
ghost use Rattle.spec_machine.specs.View.{state_of};
ghost use Rattle.reasons.specs.Tests.{exiting};

use rmi_view::CommandRef;
use rmm_spec::{Accepted, Change, FunctionId, Refusal};
use spec_machine::Machine;

/// The REC that the CPU is inside, where it is inside one: the one that would exit.
pub fn rec_inside(machine: &Machine, cpu: u8) -> Option<u64>
    ensures is { is_some result ≡ spec.is_inside (state_of machine.now) cpu }
    ensures at { IfSome result (λ rec. rec ≡ spec.rec_inside (state_of machine.now) cpu) }
{
    exiting_rec(&exit_answer(machine, cpu))
}

// What an exit is answered.
#[tactic(auto, unfolding(rmm_spec::specs::Call::call_from))]
fn exit_answer(machine: &Machine, cpu: u8) -> Result<Accepted, Refusal>
    ensures { result ≡ outcome (state_of machine.now) cpu call.Exit }
{
    let exit = CommandRef {
        function: FunctionId::Exit,
        words: &[],
    }
    .to_command();
    machine.outcome(cpu, &exit)
}

/// The same, and 0 where it is inside none.
pub fn rec_inside_or_none(machine: &Machine, cpu: u8) -> u64
    ensures { result ≡ spec.rec_inside (state_of machine.now) cpu }
{
    match rec_inside(machine, cpu) {
        Some(rec) => rec,
        None => 0,
    }
}

// The REC that an answer lets exit.
fn exiting_rec(answer: &Result<Accepted, Refusal>) -> Option<u64>
    ensures { result ≡ exiting answer.now }
{
    match answer {
        Ok(
            Accepted::Done {
                change: Change::RecordsChanged {
                    rec: Some(change),
                    ..
                },
                ..
            },
        ) => Some(change.rec),
        _ => None,
    }
}
