//! The stretch that a command sets up, as far as the reply says.

use crate::machine::Machine;
use crate::reply::only_word;
use command_rows::reached_change;
use rmi_view::ReplyRef;
use rmm_spec::Stretch;

impl Machine {
    ghost use Rattle.std.specs.Prelude.{◌≤◌, ℕ, Ok};
    ghost use Rattle.rmm_spec.specs.declared.accepted.Accepted.TheVariants.{Reaches};
    ghost use Rattle.rmm_spec.specs.Applicable.{CanApply};
    ghost use Rattle.rmm_spec.specs.Step.Ripas.{IsReached, reached_change};
    ghost use Rattle.rmi_view.specs.Seen.{reply_seen};
    ghost use Rattle.spec_machine.specs.Offers.{TakesReply};
    ghost use Rattle.spec_machine.specs.View.{state_of};

    /// Sets the stretch up to the end that the reply tells, where that is allowed. Else it changes nothing.
    #[inline(never)]
    pub(crate) fn reach(&mut self, stretch: &Stretch, reply: ReplyRef<'_>) -> bool
        requires level { stretch.now.level ≤ 3 }
        requires can { (top : ℕ) → IsReached (state_of self.old) stretch.now top
            → CanApply (state_of self.old) (reached_change stretch.now top) }
        ensures { TakesReply (Ok (Reaches stretch.now)) (state_of self.old) (reply_seen reply.entry) result (state_of self.new) }
    {
        let Some(top) = only_word(reply) else {
            return false;
        };
        if !self.is_reached(stretch, top) {
            return false;
        }
        let Ok(()) = self.apply(&reached_change(stretch, top)) else {
            unreachable!()
        };
        true
    }
}
