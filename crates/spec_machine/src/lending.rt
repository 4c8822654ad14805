//! The steps of the commands that lend a granule to the realm world and take it back, in place: no other command is given so often.

ghost use Rattle.std.specs.Prelude.{◌≡◌, ℕ, IsTrue, IfSome};
ghost use Rattle.rmm_spec.specs.Applicable.{CanRetag};
ghost use Rattle.rmm_spec.specs.Call.{call_of};
ghost use Rattle.rmm_spec.specs.Lookup.{has_tag};
ghost use Rattle.rmm_spec.specs.State.{State};
ghost use Rattle.rmm_spec.specs.Step.{outcome};
ghost use Rattle.rmi_view.specs.Seen.{command_seen};
ghost use Rattle.spec_machine.specs.Lending.{lending_outcome};

use crate::machine::Machine;
use crate::reply::{is_done, is_input_error};
use command_rows::Sight;
use rmi_view::{CommandRef, ReplyRef};
use rmm_spec::{FunctionId, Tag};

/// A granule that a command gives a tag, where it has the tag that the command asks for.
#[derive(Clone, Copy)]
pub(crate) struct Lending {
    pub(crate) granule: u64,
    pub(crate) from: Tag,
    pub(crate) to: Tag,
}

/// What a command lends or takes back, where it is one of those two.
#[tactic(auto, unfolding(rmm_spec::specs::Call::call_from, rmm_spec::specs::Call::class_of, rmm_spec::specs::Step::outcome, rmm_spec::specs::Step::answer_of, rmm_spec::specs::Step::Granule::granule_delegate, rmm_spec::specs::Step::Granule::granule_undelegate, rmm_spec::specs::Step::Terms::words_of, rmm_spec::specs::Step::Terms::named))]
pub(crate) fn lending_of(command: CommandRef<'_>) -> Option<Lending>
    ensures means { IfSome result (λ lending. (s : State) (cpu : ℕ)
        → outcome s cpu (call_of (command_seen command.entry)) ≡ lending_outcome s cpu lending) }
    ensures can { IfSome result (λ lending. (s : State) → IsTrue (has_tag s lending.granule lending.from)
        → CanRetag s (record { granule = lending.granule; tag = lending.to })) }
{
    let granule = command.words.first().copied().unwrap_or(0);
    match command.function {
        FunctionId::GranuleDelegate => Some(Lending {
            granule,
            from: Tag::Undelegated,
            to: Tag::Delegated,
        }),
        FunctionId::GranuleUndelegate => Some(Lending {
            granule,
            from: Tag::Delegated,
            to: Tag::Undelegated,
        }),
        _ => None,
    }
}

impl Machine {
    ghost use Rattle.std.specs.Prelude.{IsTrue};
    ghost use Rattle.rmm_spec.specs.Applicable.{CanRetag};
    ghost use Rattle.rmm_spec.specs.Lookup.{has_tag};
    ghost use Rattle.rmi_view.specs.Seen.{reply_seen};
    ghost use Rattle.spec_machine.specs.Lending.{lending_outcome};
    ghost use Rattle.spec_machine.specs.Offers.{TakesReply};
    ghost use Rattle.spec_machine.specs.View.{state_of};

    /// Takes the step, as `offer` does.
    #[inline(always)]
    pub(crate) fn lend(&mut self, cpu: u8, lending: Lending, reply: ReplyRef<'_>) -> bool
        requires { IsTrue (has_tag (state_of self.old) lending.granule lending.from)
            → CanRetag (state_of self.old) (record { granule = lending.granule; tag = lending.to }) }
        ensures { TakesReply (lending_outcome (state_of self.old) cpu lending)
            (state_of self.old) (reply_seen reply.entry) result (state_of self.new) }
    {
        if self.rec_inside(cpu).is_some() {
            return matches!(reply, ReplyRef::Misplaced);
        }
        if !self.has_tag(lending.granule, lending.from) {
            return is_input_error(reply);
        }
        if !is_done(reply) {
            return false;
        }
        self.retag(lending.granule, lending.to);
        true
    }
}
