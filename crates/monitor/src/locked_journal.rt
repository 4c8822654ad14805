//! The journal behind its lock.

ghost use Rattle.std.specs.Prelude.{◌≡◌};
ghost use Rattle.monitor.specs.Ordered.{IsInStep};

use crate::monitor::Monitor;
use crate::ordered::HeldCommand;
use commit_tickets::{CommitFault, CpuToken, Draft, JournalAccess, Site};
use event_queue::CpuPass;
use granule_lock::Hold;
use memory_map::Config;
use rmm_spec::Command;
use std::alloc::Global;
use std::sync::Wait;

/// A monitor's journal, which is locked for each entry and unlocked after it, with the pass of the CPU that enters. Of what others
/// enter meanwhile it shows nothing.
#[derive(Drop)]
pub(crate) struct LockedJournal<'a, S: Site, R: Wait> {
    pub(crate) rt: &'a R,
    pub(crate) monitor: &'a Monitor<S>,
    pub(crate) pass: &'a mut CpuPass,
}

impl<'a, S: Site, R: Wait> JournalAccess<S> for LockedJournal<'a, S, R> {
    ghost use Rattle.std.specs.Prelude.{◌≡◌};
    ghost use Rattle.event_queue.specs.Stages.{Open};
    ghost use Rattle.monitor.specs.Ordered.{IsInStep};

    ghost ready = { λ access cpu command.
        (access.pass.now.queue ≡ access.monitor.now.queue) × (access.pass.now.cpu ≡ cpu) × (access.pass.now.stage ≡ Open command) };

    ghost shows = { λ old new before after.
        (new.pass.ghost_name ≡ old.pass.ghost_name) × IsInStep old.pass.now new.pass.now before.entries after.entries };

    fn config(&self) -> Config {
        self.monitor.site_config()
    }

    fn enter(
        &mut self,
        alloc: Global,
        token: &mut CpuToken<S>,
        hold: &Hold,
        command: &Command,
        draft: &mut Draft,
    ) -> Result<usize, CommitFault> {
        let monitor = self.monitor;
        let mut locked = monitor.journal.enter(self.rt);
        let ordered = &mut **locked;
        let recorder = &monitor.recorder;
        let held = HeldCommand { command, hold };
        let entered = ordered.enter(alloc, recorder, self.pass, token, &held, draft);
        drop(locked);
        monitor.journal.leave();
        entered
    }
}
