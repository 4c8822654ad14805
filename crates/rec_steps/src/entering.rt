//! A REC is entered by its host.

ghost use Rattle.std.specs.Prelude.{◌≡◌, ℕ, IfOk, IsTrue, false};
ghost use Rattle.rmm_spec.specs.declared.call.Call.TheVariants.{RecEnter};
ghost use Rattle.rmm_spec.specs.declared.command.Command.{Command};
ghost use Rattle.rmm_spec.specs.declared.tag.Tag.TheVariants as tag;
ghost use Rattle.rmm_spec.specs.Call.{call_of};
ghost use Rattle.rmm_spec.specs.State.{State};
ghost use Rattle.rmm_spec.specs.Lookup.{has_tag, is_inside};
ghost use Rattle.rmm_spec.specs.Step.{Step};
ghost use Rattle.rmm_spec.specs.Step.Rec.{rec_enter};
ghost use Rattle.rmm_spec.specs.Update.{with_realm, with_rec};
ghost use Rattle.rec_steps.specs.Answers.{answer_at, enter_rows, is_refusal, IsStep};
ghost use Rattle.rec_steps.specs.Held.{IsHeld};

use crate::reply::reply_words;
use crate::step::RecStep;
use realm_desc::{Realm, Rec};
use rmm_spec::{Condition, RecUpdate, Refusal, Reply};

/// What is answered where the CPU, which is outside of RECs, is to enter the REC.
#[inline(always)]
pub fn answer_to_enter(realm: &Realm, rec: &Rec, cpu: u8) -> Result<RecStep, Refusal>
    ensures answer { (s : State) (address : ℕ) → IsHeld s address realm.now rec.now → IsTrue (has_tag s address tag.Rec)
        → answer_at rec.now.owner address result ≡ rec_enter s cpu address }
    ensures rows { (address : ℕ) → answer_at rec.now.owner address result ≡ enter_rows realm.now rec.now cpu address }
    ensures fits { IfOk result IsStep }
{
    enter_answer(realm, rec, cpu)
}

// What the two records answer.
#[inline(always)]
fn enter_answer(realm: &Realm, rec: &Rec, cpu: u8) -> Result<RecStep, Refusal>
    ensures rows { (address : ℕ) → answer_at rec.now.owner address result ≡ enter_rows realm.now rec.now cpu address }
    ensures fits { IfOk result IsStep }
{
    if realm.is_new() {
        return Err(Refusal::Realm(Condition::RealmNew, 0));
    }
    if realm.is_system_off() {
        return Err(Refusal::Realm(Condition::SystemOff, 1));
    }
    if !rec.is_ready() {
        return Err(Refusal::Rec(Condition::RecState));
    }
    if !rec.is_runnable() {
        return Err(Refusal::Rec(Condition::RecRunnable));
    }
    Ok(RecStep {
        words: reply_words(&[rec.reached()]),
        realm: None,
        rec: Some(RecUpdate::Entered { cpu }),
    })
}

/// The CPU, which is outside of RECs, enters the REC. The reply gives how far the REC's request got, and the request is
/// done with.
pub fn enter(realm: &mut Realm, rec: &mut Rec, cpu: u8) -> Reply
    ensures step { (s : State) (address : ℕ) (command : Command) → call_of command ≡ RecEnter address
        → is_inside s cpu ≡ false → IsTrue (has_tag s address tag.Rec) → IsHeld s address realm.old rec.old
        → Step s cpu command result (with_rec (with_realm s rec.old.owner realm.new) address rec.new) }
    ensures refused_realm { IsTrue (is_refusal result) → realm.new ≡ realm.old }
    ensures refused_rec { IsTrue (is_refusal result) → rec.new ≡ rec.old }
{
    match answer_to_enter(realm, rec, cpu) {
        Ok(step) => step.apply(realm, rec),
        Err(refusal) => refusal.reply(),
    }
}
