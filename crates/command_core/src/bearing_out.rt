//! Whether a side table bears out what was answered without it.

ghost use Rattle.std.specs.Prelude.{◌≡◌, ℕ, List, IsTrue};
ghost use Rattle.rmm_spec.specs.Call.{call_of};
ghost use Rattle.rmm_spec.specs.Local.{HeldCell};
ghost use Rattle.rmm_spec.specs.Shape as shape;
ghost use Rattle.command_core.specs.Changed.{hold_of, given_of};
ghost use Rattle.command_core.specs.Decided.{settled_answer};
ghost use Rattle.command_core.specs.Foreseen as spec;
ghost use Rattle.command_core.specs.Foreseen.{IsDecision, unlisted, change_of};
ghost use Rattle.command_core.specs.Settled.{is_settled};
ghost use Rattle.command_core.specs.Sides.{side_of};

use granule_cells::Side;
use memory_map::{Config, Pa};
use rmm_spec::{Accepted, Call, Change, Command, FunctionId, Refusal};

/// Whether the side table lists nothing of what the command's rows ask it for, and can count the REC that the answer makes, if
/// any. Then what was foreseen of the command is a decision with this side table.
pub fn bears_out(
    config: &Config,
    side: &Side,
    command: &Command,
    answer: &Result<Accepted, Refusal>,
) -> bool
    ensures told { result ≡ spec.bears_out config.now.granules (side_of side.now) (call_of command.now) (change_of answer.now) }
    ensures decides { IsTrue result → (cpu : ℕ) (held : List HeldCell) (place : shape.CpuPlace)
        → IsTrue (is_settled config.now (call_of command.now) place held)
        → answer.now ≡ settled_answer config.now cpu (call_of command.now) held unlisted place
        → IsDecision config.now cpu command.now (hold_of held (side_of side.now) place) (given_of answer.now) (change_of answer.now) }
{
    lists_none(side, command) && has_count(config.granules(), side, answer)
}

// Only two commands ask for what it lists.
fn lists_none(side: &Side, command: &Command) -> bool
    ensures { result ≡ spec.lists_none (side_of side.now) (call_of command.now) }
{
    match command.function {
        FunctionId::RealmCreate | FunctionId::RealmDestroy => has_none(side, &command.call()),
        _ => true,
    }
}

fn has_none(side: &Side, call: &Call) -> bool
    ensures { result ≡ spec.lists_none (side_of side.now) call.now }
{
    match *call {
        Call::RealmCreate { vmid, .. } => vmid <= 0xff && side.realm_with(vmid as u8).is_none(),
        Call::RealmDestroy { rd } => side.rec_count(Pa::new(rd)) == 0,
        _ => true,
    }
}

fn has_count(granules: u64, side: &Side, answer: &Result<Accepted, Refusal>) -> bool
    ensures { result ≡ spec.has_count granules (side_of side.now) (change_of answer.now) }
{
    match answer {
        Ok(
            Accepted::Done {
                change: Change::RecMade { rd, .. },
                ..
            },
        ) => side.rec_count(Pa::new(*rd)) <= granules,
        _ => true,
    }
}
