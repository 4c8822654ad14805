//! Steps whose changes can be taken back.

use crate::patch::Patch;
use command_rows::reached_change;
use rmi_view::{CommandRef, ReplyRef};
use rmm_spec::{Accepted, Change, Stretch};
use spec_machine::{Machine, is_ok, is_refusal, only_word};
use std::alloc::AllocError;

impl Patch {
    ghost use Rattle.std.specs.Prelude.{◌≡◌, ◌≤◌, ℕ, IfOk, IsTrue, Ok, OnOk, false};
    ghost use Rattle.rmm_spec.specs.declared.accepted.Accepted.TheVariants.{Reaches};
    ghost use Rattle.rmm_spec.specs.Applicable.{CanApply};
    ghost use Rattle.rmm_spec.specs.Change.{changed};
    ghost use Rattle.rmm_spec.specs.State.{State};
    ghost use Rattle.rmm_spec.specs.Step.{Step};
    ghost use Rattle.rmm_spec.specs.Step.Ripas as spec;
    ghost use Rattle.rmm_spec.specs.Step.Ripas.{IsReached};
    ghost use Rattle.rmi_view.specs.Seen.{command_seen, reply_seen};
    ghost use Rattle.undo_log.specs.Noted.{IsAnswer};
    ghost use Rattle.spec_machine.specs.Offers.{TakesReply};
    ghost use Rattle.undo_log.specs.Patches.{patched, standing_of};
    ghost use Rattle.spec_machine.specs.View.{state_of};

    /// Takes one step of the machine, as its `offer_seen` does, and notes what the step puts something else in place of: the log leads
    /// back to where it led before.
    pub fn offer_logged(
        &mut self,
        machine: &mut Machine,
        cpu: u8,
        command: CommandRef<'_>,
        reply: ReplyRef<'_>,
    ) -> Result<bool, AllocError>
        ensures step { IfOk result (λ given. IsTrue given
            → Step (state_of machine.old) cpu (command_seen command.entry) (reply_seen reply.entry) (state_of machine.new)) }
        ensures only { IfOk result (λ given. given ≡ false
            → (next : State) → ¬ Step (state_of machine.old) cpu (command_seen command.entry) (reply_seen reply.entry) next) }
        ensures kept { IfOk result (λ given. given ≡ false → state_of machine.new ≡ state_of machine.old) }
        ensures back { OnOk result (patched self.new (standing_of machine.new) ≡ patched self.old (standing_of machine.old)) }
    {
        match machine.outcome_seen(cpu, command) {
            Err(refusal) => Ok(is_refusal(reply, refusal)),
            Ok(ref accepted) => self.take_logged(machine, accepted, reply),
        }
    }

    // Takes the step of a command for which this is accepted.
    fn take_logged(
        &mut self,
        machine: &mut Machine,
        accepted: &Accepted,
        reply: ReplyRef<'_>,
    ) -> Result<bool, AllocError>
        requires { IsAnswer (state_of machine.old) accepted.now }
        ensures taken { IfOk result (λ given.
            TakesReply (Ok accepted.now) (state_of machine.old) (reply_seen reply.entry) given (state_of machine.new)) }
        ensures back { OnOk result (patched self.new (standing_of machine.new) ≡ patched self.old (standing_of machine.old)) }
    {
        match accepted {
            Accepted::Done { words, change } => {
                if !is_ok(reply, words) {
                    return Ok(false);
                }
                self.apply_logged(machine, change)?;
                Ok(true)
            }
            Accepted::Reaches(stretch) => self.reach_logged(machine, stretch, reply),
        }
    }

    // Sets the stretch up to the end that the reply tells, where that is allowed. Else it changes nothing.
    fn reach_logged(
        &mut self,
        machine: &mut Machine,
        stretch: &Stretch,
        reply: ReplyRef<'_>,
    ) -> Result<bool, AllocError>
        requires level { stretch.now.level ≤ 3 }
        requires can { (top : ℕ) → IsReached (state_of machine.old) stretch.now top
            → CanApply (state_of machine.old) (spec.reached_change stretch.now top) }
        ensures taken { IfOk result (λ given.
            TakesReply (Ok (Reaches stretch.now)) (state_of machine.old) (reply_seen reply.entry) given (state_of machine.new)) }
        ensures back { OnOk result (patched self.new (standing_of machine.new) ≡ patched self.old (standing_of machine.old)) }
    {
        let Some(top) = only_word(reply) else {
            return Ok(false);
        };
        if !machine.is_reached(stretch, top) {
            return Ok(false);
        }
        self.apply_logged(machine, &reached_change(stretch, top))?;
        Ok(true)
    }

    // Notes what the change replaces, and makes it.
    fn apply_logged(&mut self, machine: &mut Machine, change: &Change) -> Result<(), AllocError>
        requires { CanApply (state_of machine.old) change.now }
        ensures ok { OnOk result (state_of machine.new ≡ changed (state_of machine.old) change.now) }
        ensures back { OnOk result (patched self.new (standing_of machine.new) ≡ patched self.old (standing_of machine.old)) }
    {
        let at = machine.table_for(change);
        self.note(machine, change, at)?;
        machine.apply(change)?;
        Ok(())
    }
}
