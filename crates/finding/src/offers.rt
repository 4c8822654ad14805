//! How many offers a search has made.

ghost use Rattle.std.specs.Prelude.{◌≤◌, length, IsTrue};
ghost use Rattle.rmm_spec.specs.State.{State};
ghost use Rattle.rmm_spec.specs.Step.{Step};
ghost use Rattle.rmi_view.specs.Seen.{command_seen, reply_seen};
ghost use Rattle.spec_machine.specs.View.{state_of};

use rmi_view::{CommandRef, ReplyRef};
use rmm_spec::{Accepted, Reply};
use spec_machine::Machine;
use std::alloc::AllocError;
use undo_log::Patch;

/// A count of offers to machines, and of tests that show one to be refused.
#[derive(Drop)]
pub struct Offers {
    count: u64,
}

impl Offers {
    ghost use Rattle.std.specs.Prelude.{◌≡◌, ◌+◌, ◌-◌, ◌^◌, ◌≤◌, ◌⊎◌, length, if◌then◌else◌, IfOk, OnOk, IsTrue, false};
    ghost use Rattle.undo_log.specs.Patches.{patched, standing_of};
    ghost use Rattle.rmm_spec.specs.State.{State};
    ghost use Rattle.rmm_spec.specs.Step.{Step};
    ghost use Rattle.rmi_view.specs.Seen.{command_seen, reply_seen};
    ghost use Rattle.spec_machine.specs.Offers.{one_more};
    ghost use Rattle.spec_machine.specs.View.{state_of};

    /// No offer yet.
    pub(crate) fn none() -> Offers
        ensures { result.count ≡ 0 }
    {
        Offers { count: 0 }
    }

    /// How many there were, up to the greatest number.
    pub fn count(&self) -> u64
        ensures { result ≡ self.now.count }
    {
        self.count
    }

    /// So many more count.
    pub(crate) fn add(&mut self, more: u64)
        ensures { (self.new.count ≡ self.old.count + more) ⊎ (self.new.count ≡ 2 ^ 64 - 1) }
    {
        self.count = self.count.saturating_add(more);
    }

    /// Offers the machine a reply to the command of this CPU, and tells whether the machine took it, as `Patch::offer_logged` does.
    pub(crate) fn make(
        &mut self,
        machine: &mut Machine,
        cpu: u8,
        command: CommandRef<'_>,
        reply: ReplyRef<'_>,
        log: &mut Patch,
    ) -> Result<bool, AllocError>
        ensures step { IfOk result (λ given. IsTrue given
            → Step (state_of machine.old) cpu (command_seen command.entry) (reply_seen reply.entry) (state_of machine.new)) }
        ensures only { IfOk result (λ given. given ≡ false
            → (next : State) → ¬ Step (state_of machine.old) cpu (command_seen command.entry) (reply_seen reply.entry) next) }
        ensures kept { IfOk result (λ given. given ≡ false → state_of machine.new ≡ state_of machine.old) }
        ensures back { OnOk result (patched log.new (standing_of machine.new) ≡ patched log.old (standing_of machine.old)) }
        ensures counted { self.new.count ≡ one_more self.old.count }
    {
        self.count = self.count.saturating_add(1);
        log.offer_logged(machine, cpu, command, reply)
    }

    /// Whether an offer of the reply is known to be refused without a step, which then counts as one.
    pub(crate) fn is_refused(
        &mut self,
        machine: &Machine,
        cpu: u8,
        command: CommandRef<'_>,
        reply: ReplyRef<'_>,
    ) -> bool
        requires { length command.words.now ≤ 10 }
        ensures refused { IsTrue result
            → (next : State) → ¬ Step (state_of machine.now) cpu (command_seen command.entry) (reply_seen reply.entry) next }
        ensures counted { self.new.count ≡ (if result then one_more self.old.count else self.old.count) }
    {
        let refused = refuses(machine, cpu, command, reply);
        if refused {
            self.count = self.count.saturating_add(1);
        }
        refused
    }
}

/// Whether the machine gives another reply to the command. Where the reply has the end of a stretch, that isn't looked at.
fn refuses(machine: &Machine, cpu: u8, command: CommandRef<'_>, reply: ReplyRef<'_>) -> bool
    requires { length command.words.now ≤ 10 }
    ensures { IsTrue result
        → (next : State) → ¬ Step (state_of machine.now) cpu (command_seen command.entry) (reply_seen reply.entry) next }
{
    match machine.outcome(cpu, &command.to_command()) {
        Err(refusal) => !reply.is(&refusal.reply()),
        Ok(Accepted::Done { words, .. }) => !reply.is(&Reply::Ok(words)),
        Ok(Accepted::Reaches(_)) => false,
    }
}
