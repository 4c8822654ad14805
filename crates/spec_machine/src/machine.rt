//! The machine, what it answers to a command, and its steps.

ghost use Rattle.spec_machine.specs.Whole.{IsShapedIn};
ghost use Rattle.spec_machine.specs.Single.{shaped-single};

use crate::cell_list::CellList;
use crate::granules::Granules;
use crate::lending::lending_of;
use crate::near::Near;
use crate::places::Places;
use crate::reply::{is_ok, is_refusal};
use command_rows::{answer_inside, answer_outside};
use granule_cells::Side;
use memory_map::Config;
use rmi_view::{CommandRef, ReplyRef};
use rmm_spec::{Accepted, Call, Command, Refusal, Reply};
use std::alloc::{AllocError, Global};

/// A state of the specification machine.
#[derive(Drop)]
pub struct Machine {
    pub granules: Granules,
    // how many offers were made
    pub(crate) offers: u64,
    ghost shaped: { IsShapedIn granules } by { shaped-single granules },
}

impl Machine {
    ghost use Rattle.std.specs.Prelude.{◌≡◌, IfOk, IsOk, Ok, OnErr, IsTrue, false};
    ghost use Rattle.rmm_spec.specs.Call.{call_of};
    ghost use Rattle.rmm_spec.specs.Lookup.{is_inside};
    ghost use Rattle.rmm_spec.specs.State.{State, opening};
    ghost use Rattle.rmm_spec.specs.Step.{Step, outcome};
    ghost use Rattle.spec_machine.specs.Memory.{makes_table};
    ghost use Rattle.spec_machine.specs.Offers.{one_more, TakesStep};
    ghost use Rattle.rmi_view.specs.Seen.{command_seen, reply_seen};
    ghost use Rattle.spec_machine.specs.View.{state_of};

    /// A machine of that size in which every granule is the host's.
    pub fn new(alloc: Global, config: Config) -> Result<Machine, AllocError>
        ensures opening { IfOk result (λ machine. state_of machine ≡ opening config) }
        ensures offers { IfOk result (λ machine. machine.offers ≡ 0) }
    {
        let list = CellList::new(alloc, config)?;
        let side = Side::new(alloc)?;
        let places = Places::new(alloc)?;
        let near = Near::new(alloc)?;
        let granules = Granules {
            alloc,
            list,
            side,
            places,
            near,
        };
        Ok(Machine {
            granules,
            offers: 0,
        })
    }

    /// How many offers were made, whatever was answered, up to the greatest number. The state doesn't have it.
    pub fn offers(&self) -> u64
        ensures { result ≡ self.now.offers }
    {
        self.offers
    }

    /// What the specification answers to the command of this CPU: a refusal by the first condition that fails, with which
    /// nothing changes; or what is done, the reply's words and the change. So where `offer` refuses a reply, this is what would
    /// have been accepted in its place.
    pub fn outcome(&self, cpu: u8, command: &Command) -> Result<Accepted, Refusal>
        ensures { result ≡ outcome (state_of self.now) cpu (call_of command.now) }
    {
        self.outcome_seen(cpu, CommandRef::of(command))
    }

    /// Takes one step: whether the machine may give this reply to the command of this CPU. Where it may, the state is
    /// the step's next one, and else it stays. Memory is taken only where a command that makes a table is accepted with this
    /// reply. Refused memory, the state stays and the offer counts.
    pub fn offer(&mut self, cpu: u8, command: &Command, reply: &Reply) -> Result<bool, AllocError>
        ensures step { IfOk result (λ given. IsTrue given
            → Step (state_of self.old) cpu command.now reply.now (state_of self.new)) }
        ensures only { IfOk result (λ given. given ≡ false
            → (next : State) → ¬ Step (state_of self.old) cpu command.now reply.now next) }
        ensures kept { IfOk result (λ given. given ≡ false → state_of self.new ≡ state_of self.old) }
        ensures err { OnErr result (state_of self.new ≡ state_of self.old) }
        ensures only_tables { OnErr result (IsTrue (makes_table command.now.function)) }
        ensures only_accepted { OnErr result (IsOk (outcome (state_of self.old) cpu (call_of command.now))) }
        ensures only_given { OnErr result ((next : State) × Step (state_of self.old) cpu command.now reply.now next) }
        ensures offers { self.new.offers ≡ one_more self.old.offers }
    {
        self.offer_seen(cpu, CommandRef::of(command), ReplyRef::of(reply))
    }

    /// Takes one step, as `offer` does, with a command and a reply that lie elsewhere.
    #[inline(always)]
    pub fn offer_seen(
        &mut self,
        cpu: u8,
        command: CommandRef<'_>,
        reply: ReplyRef<'_>,
    ) -> Result<bool, AllocError>
        ensures step { IfOk result (λ given. IsTrue given
            → Step (state_of self.old) cpu (command_seen command.entry) (reply_seen reply.entry) (state_of self.new)) }
        ensures only { IfOk result (λ given. given ≡ false
            → (next : State) → ¬ Step (state_of self.old) cpu (command_seen command.entry) (reply_seen reply.entry) next) }
        ensures kept { IfOk result (λ given. given ≡ false → state_of self.new ≡ state_of self.old) }
        ensures err { OnErr result (state_of self.new ≡ state_of self.old) }
        ensures only_tables { OnErr result (IsTrue (makes_table command.entry.function)) }
        ensures only_accepted { OnErr result (IsOk (outcome (state_of self.old) cpu (call_of (command_seen command.entry)))) }
        ensures only_given { OnErr result ((next : State) × Step (state_of self.old) cpu (command_seen command.entry) (reply_seen reply.entry) next) }
        ensures offers { self.new.offers ≡ one_more self.old.offers }
    {
        let offers = self.offers.saturating_add(1);
        let given = match lending_of(command) {
            Some(lending) => Ok(self.lend(cpu, lending, reply)),
            None => self.offer_any(cpu, command, reply),
        };
        self.offers = offers;
        given
    }

    // Takes one step, whatever the command is.
    #[inline(never)]
    fn offer_any(
        &mut self,
        cpu: u8,
        command: CommandRef<'_>,
        reply: ReplyRef<'_>,
    ) -> Result<bool, AllocError>
        ensures { TakesStep (state_of self.old) cpu (command_seen command.entry) (reply_seen reply.entry) result (state_of self.new) }
    {
        let call = command.call();
        match self.rec_inside(cpu) {
            None => self.offer_outside(cpu, command, &call, reply),
            Some(rec) => {
                // a copy, so that a command from outside needs no place in memory
                let call = call;
                Ok(self.offer_inside(cpu, rec, &call, command, reply))
            }
        }
    }

    // Takes one step of a CPU that is outside of RECs. What is answered is seen where it lies, since it is large.
    #[inline(always)]
    fn offer_outside(
        &mut self,
        cpu: u8,
        command: CommandRef<'_>,
        call: &Call,
        reply: ReplyRef<'_>,
    ) -> Result<bool, AllocError>
        requires outside { is_inside (state_of self.old) cpu ≡ false }
        requires call { call.now ≡ call_of (command_seen command) }
        ensures { TakesStep (state_of self.old) cpu (command_seen command.entry) (reply_seen reply.entry) result (state_of self.new) }
    {
        match answer_outside(self, cpu, call) {
            Err(refusal) => Ok(is_refusal(reply, refusal)),
            Ok(ref accepted) => self.take_accepted(cpu, command, accepted, reply),
        }
    }

    // Takes the step of the command for which this is accepted.
    #[inline(always)]
    fn take_accepted(
        &mut self,
        cpu: u8,
        command: CommandRef<'_>,
        accepted: &Accepted,
        reply: ReplyRef<'_>,
    ) -> Result<bool, AllocError>
        requires { Ok accepted.now ≡ outcome (state_of self.old) cpu (call_of (command_seen command)) }
        ensures { TakesStep (state_of self.old) cpu (command_seen command.entry) (reply_seen reply.entry) result (state_of self.new) }
    {
        match accepted {
            Accepted::Done { words, change } => {
                if !is_ok(reply, words) {
                    return Ok(false);
                }
                let Ok(()) = self.apply(change) else {
                    return Err(AllocError);
                };
                Ok(true)
            }
            Accepted::Reaches(stretch) => Ok(self.reach(stretch, reply)),
        }
    }

    /// What the specification answers, as `outcome` does.
    pub fn outcome_seen(&self, cpu: u8, command: CommandRef<'_>) -> Result<Accepted, Refusal>
        ensures { result ≡ outcome (state_of self.now) cpu (call_of (command_seen command.entry)) }
    {
        let call = command.call();
        match self.rec_inside(cpu) {
            None => answer_outside(self, cpu, &call),
            Some(rec) => answer_inside(self, rec.address(), &call),
        }
    }
}
