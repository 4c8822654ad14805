//! A REC asks to leave to its host, and leaves.

ghost use Rattle.std.specs.Prelude.{◌≡◌, ℕ, IfOk, IsTrue, Some, None};
ghost use Rattle.rmm_spec.specs.declared.call.Call.TheVariants as call;
ghost use Rattle.rmm_spec.specs.declared.change.RecUpdate.TheVariants as update;
ghost use Rattle.rmm_spec.specs.declared.command.Command.{Command};
ghost use Rattle.rmm_spec.specs.Call.{call_of};
ghost use Rattle.rmm_spec.specs.State.{State};
ghost use Rattle.rmm_spec.specs.Lookup.{rec_at, is_inside, rec_inside, request_of};
ghost use Rattle.rmm_spec.specs.Step.{Step};
ghost use Rattle.rmm_spec.specs.Step.RealmCall.{host_call, cpu_off, system_off, exit_words};
ghost use Rattle.rmm_spec.specs.Update.{with_rec};
ghost use Rattle.rec_steps.specs.Answers.{answer_at, IsStep};

use crate::reply::reply_words;
use crate::step::RecStep;
use arrayvec::ArrayVec;
use memory_map::ripas_number;
use realm_desc::{PendingExit, Rec};
use rmm_spec::{Condition, RealmUpdate, RecUpdate, Refusal, Reply};

#[tactic(auto, unfolding(rmm_spec::specs::Step::RealmCall::host_call, rmm_spec::specs::Step::Terms::words_of, rmm_spec::specs::Step::Terms::named))]
pub(crate) fn host_call(imm: u64) -> Result<RecStep, Refusal>
    ensures answer { (s : State) (rd rec : ℕ) → answer_at rd rec result ≡ host_call s rec imm }
    ensures fits { IfOk result IsStep }
{
    if imm >= 0x10000 {
        return Err(Refusal::Input(Condition::OwnImm));
    }
    Ok(RecStep::of_rec(RecUpdate::HostCalled { imm: imm as u16 }))
}

#[tactic(auto, unfolding(rmm_spec::specs::Step::RealmCall::cpu_off, rmm_spec::specs::Step::Terms::words_of, rmm_spec::specs::Step::Terms::named))]
pub(crate) fn cpu_off() -> Result<RecStep, Refusal>
    ensures answer { (s : State) (rd rec : ℕ) → answer_at rd rec result ≡ cpu_off s rec }
    ensures fits { IfOk result IsStep }
{
    Ok(RecStep::of_rec(RecUpdate::TurnedOff))
}

#[tactic(auto, unfolding(rmm_spec::specs::Step::RealmCall::system_off, rmm_spec::specs::Step::Terms::words_of, rmm_spec::specs::Step::Terms::named))]
pub(crate) fn system_off() -> Result<RecStep, Refusal>
    ensures answer { (s : State) (rec : ℕ) → answer_at (rec_at s rec).owner rec result ≡ system_off s rec }
    ensures fits { IfOk result IsStep }
{
    Ok(RecStep {
        words: ArrayVec::new(),
        realm: Some(RealmUpdate::TurnedOff),
        rec: Some(RecUpdate::SystemTurnedOff),
    })
}

/// What is answered where the REC, which runs, is to leave: why it does, as its host is told.
pub fn answer_to_exit(rec: &Rec) -> RecStep
    ensures { result ≡ record { words = record { items = exit_words (request_of rec.now) rec.now.pending }; realm = None; rec = Some update.Exited } }
{
    RecStep {
        words: reply_words(&exit_words(rec)),
        realm: None,
        rec: Some(RecUpdate::Exited),
    }
}

// Why the REC leaves, as its host is told.
#[tactic(auto, unfolding(realm_desc::specs::View::rec_record))]
fn exit_words(rec: &Rec) -> [u64; 4]
    ensures { result ≡ exit_words (request_of rec.now) rec.now.pending }
{
    match rec.pending {
        None => [1, 0, 0, 0],
        Some(PendingExit::Psci(function)) => [3, u64::from(function), 0, 0],
        Some(PendingExit::RipasChange) => match rec.request {
            None => [4, 0, 0, 0],
            Some(request) => [4, request.base, request.top, ripas_number(request.ripas)],
        },
        Some(PendingExit::HostCall(imm)) => [5, u64::from(imm), 0, 0],
    }
}

/// The REC that runs leaves to its host, which is told why. What it asked for still stands.
pub fn exit(rec: &mut Rec) -> Reply
    ensures step { (s : State) (cpu : ℕ) (command : Command) → call_of command ≡ call.Exit → IsTrue (is_inside s cpu)
        → s.rec (rec_inside s cpu) ≡ Some rec.old → Step s cpu command result (with_rec s (rec_inside s cpu) rec.new) }
{
    answer_to_exit(rec).apply_to_rec(rec)
}
