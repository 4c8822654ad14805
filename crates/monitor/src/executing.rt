//! A CPU executes a command.

ghost use Rattle.std.specs.Prelude.{◌≡◌, ◌≤◌, ◌↔◌, true, false, [], IsTrue, IfOk, IfErr, OnErr, Err};
ghost use Rattle.rmm_spec.specs.CommandText.{IsCommand};
ghost use Rattle.command_core.specs.Seen.{place_of};
ghost use Rattle.granule_lock.specs.HeldCells.{freed_cells, hold_cells};
ghost use Rattle.event_queue.specs.Stages as stages;
ghost use Rattle.monitor.specs.Causes.{HadCause, FaultHadCause};
ghost use Rattle.monitor.specs.Executed.{ArePaired, Leaves, FullAtSomeMoment, HasCalled, HasCommitted, HasFailed, IsPastSeen, committed, returned, unreturned};
ghost use Rattle.monitor.specs.Held.{LeavesHeld, WereHeld};
ghost use Rattle.monitor.specs.declared.refused.Refused.TheVariants as refused;

use crate::gate::Gate;
use crate::locked_journal::LockedJournal;
use crate::monitor::Monitor;
use crate::refused::Refused;
use commit_tickets::{CommitFault, CpuToken, Done, Site, commit};
use event_queue::CpuPass;
use granule_lock::{Hold, free_all, lock_for};
use rmi_view::{copied_command, copied_reply};
use rmm_spec::Command;
use std::alloc::Global;
use std::sync::Wait;

/// A command, with the gate that it passes once its granules are locked.
#[derive(Drop)]
struct Gated<'a, G> {
    gate: &'a G,
    command: &'a Command,
}

impl<S: Site> Monitor<S> {
    /// Executes a command by the token and the pass of its CPU, whose `next_number` is at most 999,999: records the call, locks the
    /// command's granules, passes the gate, commits on what it holds, frees that and records the return. What refused the commit is what
    /// the token keeps. Whatever is answered, no granule stays locked.
    pub fn execute<R: Wait, G: Gate>(
        &self,
        rt: &R,
        alloc: Global,
        token: &mut CpuToken<S>,
        pass: &mut CpuPass,
        gate: &G,
        command: Command,
    ) -> Result<Done, Refused>
        requires pair { ArePaired self.now token.old pass.old }
        requires command { IsCommand command }
        requires number { pass.old.stand.next ≤ 999999 }
        ensures leaves { Leaves command token.old pass.old result token.new pass.new }
        ensures held { LeavesHeld self.now.config command token.old (place_of token.new.place) result }
        ensures told { IsPastSeen token.old result }
        ensures pair { ArePaired self.now token.new pass.new }
        ensures stopped { (result ≡ Err refused.Stopped) ↔ IsTrue token.old.is_stopped }
        ensures full { FullAtSomeMoment self.now.capacity pass.new result }
        ensures cause { FaultHadCause self.now.config command token.old result }
    {
        if token.is_stopped() {
            return Err(Refused::Stopped);
        }
        let recorded = copied_command(&command);
        if self.recorder.call(rt, pass, recorded).is_err() {
            return Err(Refused::Full);
        }
        let gated = Gated {
            gate,
            command: &command,
        };
        let mut hold = Hold::new();
        let committed = self.commit_locked(rt, alloc, token, pass, &mut hold, &gated);
        hold.end();
        match committed {
            Ok(done) => self.record_return(rt, token, pass, done),
            Err(fault) => {
                token.stop();
                Err(Refused::for_fault(fault))
            }
        }
    }

    // Commits a command that is called, on its granules, which are locked for that alone, whatever comes of it. Only the entry of its
    // draft takes the journal's lock.
    fn commit_locked<R: Wait, G: Gate>(
        &self,
        rt: &R,
        alloc: Global,
        token: &mut CpuToken<S>,
        pass: &mut CpuPass,
        hold: &mut Hold,
        gated: &Gated<'_, G>,
    ) -> Result<Done, CommitFault>
        requires queue { pass.old.queue ≡ self.now.queue }
        requires called { HasCalled token.old gated.now.command.now pass.old }
        requires unlocked { hold_cells hold.old ≡ [] }
        ensures unlocked { hold_cells hold.new ≡ [] }
        ensures held { WereHeld self.now.config gated.now.command.now token.old (place_of token.new.place) (freed_cells hold.new) result }
        ensures done { IfOk result (λ done. HasCommitted token.old gated.now.command.now done token.new) }
        ensures pass { IfOk result (λ done. pass.new ≡ committed pass.old done.reply) }
        ensures told { IfOk result (λ done. token.old.seen ≤ done.ticket) }
        ensures fault { IfErr result (λ fault. HasFailed token.old fault token.new) }
        ensures kept { OnErr result (pass.new ≡ pass.old) }
        ensures cause { IfErr result (λ fault. HadCause self.now.config fault gated.now.command.now token.old) }
    {
        let (gate, command) = (gated.gate, gated.command);
        let place = token.place();
        lock_for(rt, &self.granules, &self.config, &place, command, hold);
        gate.pass(token.cpu(), command);
        let mut journal = LockedJournal {
            rt,
            monitor: self,
            pass,
        };
        let done = commit(alloc, &mut journal, token, hold, command);
        free_all(rt, &self.granules, hold);
        done
    }

    // Records the return of what was done. Where the queue is full, the CPU is stopped.
    fn record_return<R: Wait>(
        &self,
        rt: &R,
        token: &mut CpuToken<S>,
        pass: &mut CpuPass,
        done: Done,
    ) -> Result<Done, Refused>
        requires queue { pass.old.queue ≡ self.now.queue }
        requires open { IsTrue pass.old.stand.is_open }
        requires committed { pass.old.stage ≡ stages.Committed done.reply }
        requires running { pass.old.is_stopped ≡ false }
        ensures told { IfOk result (λ told. (told ≡ done) × (token.new ≡ token.old) × (pass.new ≡ returned pass.old done.reply)) }
        ensures full { OnErr result ((result ≡ Err (refused.Unrecorded done)) × (token.new ≡ record token.old { is_stopped = true })
            × (pass.new ≡ unreturned pass.old)) }
        ensures moment { FullAtSomeMoment self.now.capacity pass.new result }
    {
        let reply = copied_reply(&done.reply);
        if self.recorder.returned(rt, pass, reply).is_ok() {
            return Ok(done);
        }
        token.stop();
        Err(Refused::Unrecorded(done))
    }
}
