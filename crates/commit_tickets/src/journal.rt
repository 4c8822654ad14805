//! The journal.

ghost use Rattle.std.specs.Prelude.{◌≡◌, [], ◌<◌, ◌≤◌, ◌↔◌, length, map, slice_get, Some, IsTrue, OnOk, OnErr};
ghost use Rattle.rmm_spec.specs.Run.{IsRun};
ghost use Rattle.rmm_spec.specs.State.{opening};
ghost use Rattle.spec_machine.specs.View.{state_of};
ghost use Rattle.rmi_view.specs.Seen.{HasFewWords, reply_seen};
ghost use Rattle.command_log.specs.Log.{logged_seen};
ghost use Rattle.commit_tickets.specs.Entries.{entry_of};
ghost use Rattle.commit_tickets.specs.Left.{HasGainedNone};

use crate::site::Site;
use command_core::Side;
use command_log::{CommandLog, Logged};
use memory_map::Config;
use spec_machine::Machine;
use std::alloc::AllocError;
use std::marker::Model;
use std::sync::ledger::Book;

/// The commits of all CPUs in their one order, with the books, which are the specification machine that they have led to,
/// and the side table. What counts them takes no bytes.
#[derive(Drop)]
pub struct Journal<S: Site> {
    pub(crate) config: Config,
    pub(crate) entries: CommandLog<u8>,
    pub(crate) books: Machine,
    pub(crate) side: Side,
    pub(crate) commits: Book<S>,
}

impl<S: Site> Model for Journal<S> {
    ghost use Rattle.commit_tickets.specs.View.{JournalView};

    ghost Value = { JournalView };

    ghost use Rattle.std.specs.Prelude.{◌≡◌, length, map};
    ghost use Rattle.rmm_spec.specs.Run.{IsRun};
    ghost use Rattle.rmm_spec.specs.State.{opening};
    ghost use Rattle.spec_machine.specs.View.{state_of};
    ghost use Rattle.commit_tickets.specs.Entries.{entry_of};

    ghost view = { λ j. record { config = j.config; entries = map entry_of j.entries.logged; side = j.side; room = j.entries.room } };

    ghost invariant = { λ j. IsRun (opening j.config) (map entry_of j.entries.logged) (state_of j.books)
        × (j.config ≡ S.config) × (length j.entries.logged ≡ j.commits.total) };
}

impl<S: Site> Journal<S> {
    ghost use Rattle.commit_tickets.specs.Commits.{IsOfRun};

    /// The machine's size.
    pub fn config(&self) -> Config
        ensures config { result ≡ self.now.config }
        ensures site { result ≡ S.config }
    {
        self.config
    }

    /// How many commits there are, which is the next one's ticket.
    pub fn len(&self) -> usize
        ensures count { result ≡ length self.now.entries }
        ensures of_run { IsOfRun S.config self.now }
    {
        self.entries.len()
    }

    pub fn is_empty(&self) -> bool
        ensures { IsTrue result ↔ (self.now.entries ≡ []) }
    {
        self.entries.is_empty()
    }

    /// The commit of a ticket, whose mark is its CPU.
    pub fn entry(&self, ticket: usize) -> Logged<'_, u8>
        requires { ticket < length self.now.entries }
        ensures entry { slice_get self.now.entries ticket ≡ Some (entry_of (logged_seen result)) }
        ensures few { HasFewWords (reply_seen result.reply) }
    {
        let Some(entry) = self.entries.get(ticket) else {
            unreachable!()
        };
        entry
    }

    /// Makes room for one commit more, where there is none.
    pub(crate) fn reserve(&mut self) -> Result<(), AllocError>
        ensures kept { HasGainedNone self.old self.new }
        ensures ok { OnOk result (1 ≤ self.new.room) }
        ensures full { OnErr result (self.old.room ≡ 0) }
        ensures grows { self.old.room ≤ self.new.room }
    {
        self.entries.reserve()
    }

    /// The machine in the state to which the commits have led.
    pub fn books(&self) -> &Machine
        ensures { IsRun (opening self.now.config) self.now.entries (state_of result.now) }
    {
        &self.books
    }
}
