//! A journal, wherever a CPU enters its commits into it.

ghost use Rattle.std.specs.Prelude.{◌≡◌, ℕ, IsTrue, Result};
ghost use Rattle.rmm_spec.specs.declared.command.Command.{Command};
ghost use Rattle.rmm_spec.specs.Call.{call_of};
ghost use Rattle.command_core.specs.Seen.{place_of};
ghost use Rattle.command_core.specs.Settled.{is_settled};
ghost use Rattle.granule_lock.specs.HeldCells.{hold_cells};
ghost use Rattle.commit_tickets.specs.Commits.{HasJournals, IsEntry};
ghost use Rattle.commit_tickets.specs.Drafts.{IsDraft};
ghost use Rattle.commit_tickets.specs.View.{JournalView};

use crate::draft::Draft;
use crate::entering::enter;
use crate::fault::CommitFault;
use crate::journal::Journal;
use crate::site::Site;
use crate::token::CpuToken;
use granule_lock::Hold;
use memory_map::Config;
use rmm_spec::Command;
use std::alloc::Global;

/// A journal that a CPU enters its drafts into: at hand, or behind a lock that is taken for the entry alone.
pub trait JournalAccess<S: Site> {
    /// What the access has to be before the entry of a CPU's command.
    ghost ready: { Self → ℕ → Command → Type 0 };

    /// What the access, as it was and as it is, shows of the journal before and after an entry.
    ghost shows: { Self → Self → JournalView → JournalView → Type 0 };

    /// The machine's size.
    fn config(&self) -> Config
        ensures { result ≡ S.config };

    /// Enters a draft, and returns its ticket.
    fn enter(
        &mut self,
        alloc: Global,
        token: &mut CpuToken<S>,
        hold: &Hold,
        command: &Command,
        draft: &mut Draft,
    ) -> Result<usize, CommitFault>
        requires ready { ready self.old token.old.cpu command.now }
        requires settled { IsTrue (is_settled S.config (call_of command.now) (place_of token.old.place) (hold_cells hold.now)) }
        requires draft { IsDraft S.config command.now token.old (hold_cells hold.now) draft.old }
        ensures { HasJournals (shows self.old self.new) (λ before after.
            IsEntry S.config command.now before after token.old token.new (hold_cells hold.now) draft.new result) };
}

impl<S: Site> JournalAccess<S> for Journal<S> {
    ghost use Rattle.std.specs.Prelude.{⊤, ◌≡◌};

    ghost ready = { λ access cpu command. ⊤ };

    ghost shows = { λ old new before after. (before ≡ old) × (after ≡ new) };

    fn config(&self) -> Config {
        self.config
    }

    fn enter(
        &mut self,
        alloc: Global,
        token: &mut CpuToken<S>,
        hold: &Hold,
        command: &Command,
        draft: &mut Draft,
    ) -> Result<usize, CommitFault> {
        enter(alloc, self, token, hold, command, draft)
    }
}
