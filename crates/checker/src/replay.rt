//! What is kept of the lines so far.

ghost use Rattle.std.specs.Prelude.{◌≡◌, ℕ, ◌+◌, ◌<◌, ◌≤◌, List, [], length, false, IfOk, OnErr, IfSome, IfNone, MatchOption};
ghost use Rattle.std.specs.Bool.{MatchBool};
ghost use Rattle.rmm_spec.specs.declared.command.Command.{Command};
ghost use Rattle.rmm_spec.specs.declared.line.Line.{Line};
ghost use Rattle.rmi_view.specs.Seen.{command_seen, reply_seen};
ghost use Rattle.certificate.specs.LineRef.{line_seen};
ghost use Rattle.history.specs.Calls.{ArePlacesOf};
ghost use Rattle.rmm_spec.specs.State.{State};
ghost use Rattle.rmm_spec.specs.Step.{Step};
ghost use Rattle.rmm_spec.specs.Linearization.{IsCalled, NamesCall, cpu_named, number_named};
ghost use Rattle.rmm_spec.specs.FirstFault.{IsFirstMissing};
ghost use Rattle.checker.specs.Progress.{AreNamedBelow, IsFinishedCallAt, HasNoFinishedCall};

use certificate::LineRef;
use history::{History, Places};
use rmi_view::{CommandRef, ReplyRef};
use rmm_spec::Reason;
use spec_machine::Machine;
use std::alloc::{AllocError, Global};

/// The lines so far, replayed: the machine after them, a flag for each event that is a call which they name,
/// and the latest place of such a call, or 0. A return's flag is set too, so that the last pass over the flags seldom stops.
#[derive(Drop)]
pub(crate) struct Replay {
    pub(crate) machine: Machine,
    named: Vec<bool>,
    latest: u32,
}

impl Replay {
    ghost use Rattle.checker.specs.Offers.{offers_after};
    ghost use Rattle.checker.specs.Replay.{IsReplayOf, Commits, IsDue, JudgesLine, NeedsMemory, IsRefusedMemory};
    ghost use Rattle.spec_machine.specs.Offers.{one_more};
    ghost use Rattle.spec_machine.specs.View.{state_of};

    /// Before the first line.
    pub(crate) fn new(alloc: Global, history: &History) -> Result<Replay, AllocError>
        ensures replay { IfOk result (λ replay. IsReplayOf replay history.now.recorded []) }
        ensures offers { IfOk result (λ replay. replay.machine.offers ≡ 0) }
    {
        let _fact = history.well_formed();
        let machine = Machine::new(alloc, history.config())?;
        let named = vec![in alloc; false; history.len()]?;
        Ok(Replay {
            machine,
            named,
            latest: 0,
        })
    }

    /// Replays the next line: nothing where it passes, else why it fails. Memory is refused only where the line's call makes a
    /// table and is given the line's reply.
    #[inline(always)]
    pub(crate) fn take_line(
        &mut self,
        history: &History,
        line: LineRef<'_>,
    ) -> Result<Option<Reason>, AllocError>
        requires counted { length self.old.named.items ≡ length history.now.recorded.events }
        ensures judged { IfOk result (λ why. JudgesLine why self.old self.new history.now.recorded (line_seen line.entry)) }
        ensures kept { IfOk result (λ why. IfSome why (λ reason. state_of self.new.machine ≡ state_of self.old.machine)) }
        ensures refused { OnErr result (IsRefusedMemory self.old history.now.recorded (line_seen line.entry)) }
        ensures same_events { length self.new.named.items ≡ length self.old.named.items }
        ensures offers { self.new.machine.offers ≡ offers_after result self.old.machine.offers }
    {
        let Some(places) = places_named(history, &line) else {
            return Ok(Some(Reason::Unknown));
        };
        if self.named[places.called as usize] {
            return Ok(Some(Reason::Repeated));
        }
        match line {
            LineRef::Keep { cpu, .. } => {
                let Some(returned) = places.returned else {
                    return Ok(Some(Reason::Kind));
                };
                if returned < self.latest {
                    return Ok(Some(Reason::Order));
                }
                let Some(reply) = history.reply_at(returned as usize) else {
                    unreachable!()
                };
                self.named[returned as usize] = true;
                self.take_reply(history, cpu, places.called, reply)
            }
            LineRef::Unfinished { cpu, reply, .. } => {
                if places.returned.is_some() {
                    return Ok(Some(Reason::Kind));
                }
                self.take_reply(history, cpu, places.called, ReplyRef::of(reply))
            }
        }
    }

    /// Takes the reply that a line claims of the call that was made at the place, where nothing but the machine can refuse it.
    #[inline(always)]
    fn take_reply(
        &mut self,
        history: &History,
        cpu: u8,
        called: u32,
        reply: ReplyRef<'_>,
    ) -> Result<Option<Reason>, AllocError>
        requires counted { length self.old.named.items ≡ length history.now.recorded.events }
        requires is_called { (number : ℕ) × (command : Command) × IsCalled history.now.recorded.events called cpu number command }
        ensures judged { IfOk result (λ why. (line : Line) → IsDue self.old history.now.recorded line cpu called (reply_seen reply.entry)
            → JudgesLine why self.old self.new history.now.recorded line) }
        ensures kept { IfOk result (λ why. IfSome why (λ reason. state_of self.new.machine ≡ state_of self.old.machine)) }
        ensures refused { OnErr result ((line : Line) → IsDue self.old history.now.recorded line cpu called (reply_seen reply.entry)
            → IsRefusedMemory self.old history.now.recorded line) }
        ensures same_events { length self.new.named.items ≡ length self.old.named.items }
        ensures offers { self.new.machine.offers ≡ offers_after result self.old.machine.offers }
    {
        let Some(command) = history.command_at(called as usize) else {
            unreachable!()
        };
        let given = self.commit(cpu, called, command, reply)?;
        Ok(if given { None } else { Some(Reason::Reply) })
    }

    /// Commits the call that was made at the place, if the machine gives that reply.
    #[inline(always)]
    fn commit(
        &mut self,
        cpu: u8,
        called: u32,
        command: CommandRef<'_>,
        reply: ReplyRef<'_>,
    ) -> Result<bool, AllocError>
        requires { called < length self.old.named.items }
        ensures given { IfOk result (λ given. MatchBool given
            (Commits self.old self.new cpu called (command_seen command.entry) (reply_seen reply.entry))
            ((next : State) → ¬ Step (state_of self.old.machine) cpu (command_seen command.entry) (reply_seen reply.entry) next)) }
        ensures kept { IfOk result (λ given. given ≡ false → state_of self.new.machine ≡ state_of self.old.machine) }
        ensures refused { OnErr result (NeedsMemory self.old cpu (command_seen command.entry) (reply_seen reply.entry)) }
        ensures same_events { length self.new.named.items ≡ length self.old.named.items }
        ensures offers { self.new.machine.offers ≡ one_more self.old.machine.offers }
    {
        let given = self.machine.offer_seen(cpu, command, reply)?;
        if given {
            self.named[called as usize] = true;
            self.latest = self.latest.max(called);
        }
        Ok(given)
    }

    /// The first call, in the order of the calls, that returned and that no line names, by its CPU and number.
    #[inline(never)]
    pub(crate) fn first_missing(&self, history: &History) -> Option<(u8, u32)>
        requires counted { length self.now.named.items ≡ length history.now.recorded.events }
        ensures { (lines : List Line) → IsReplayOf self.now history.now.recorded lines → MatchOption result
            (AreNamedBelow history.now.recorded.events lines (length history.now.recorded.events))
            (λ call. IsFirstMissing history.now.recorded.events lines call.0 call.1) }
    {
        for (place, named) in self.named.iter().enumerate() {
            if *named {
                continue;
            }
            if let Some(call) = finished_call_at(history, place) {
                return Some(call);
            }
        }
        None
    }
}

/// The places of the call that a line names.
fn places_named(history: &History, line: &LineRef<'_>) -> Option<Places>
    ensures some { IfSome result (λ places. ArePlacesOf history.now.recorded.events
        (cpu_named (line_seen line.now)) (number_named (line_seen line.now)) places) }
    ensures none { IfNone result (¬ NamesCall history.now.recorded.events (line_seen line.now)) }
{
    match line {
        LineRef::Keep { cpu, number } => history.places_of(*cpu, *number),
        LineRef::Unfinished { cpu, number, .. } => history.places_of(*cpu, *number),
    }
}

/// The call that is made at a place, by its CPU and number, where one is made there and it has returned.
fn finished_call_at(history: &History, place: usize) -> Option<(u8, u32)>
    requires within { place < length history.now.recorded.events }
    ensures { MatchOption result (HasNoFinishedCall history.now.recorded.events place)
        (λ call. IsFinishedCallAt history.now.recorded.events place call.0 call.1) }
{
    let (cpu, number) = history.called_at(place)?;
    history.has_returned(cpu, number).then_some((cpu, number))
}
