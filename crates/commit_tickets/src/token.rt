//! The token of a CPU.

ghost use Rattle.std.specs.Prelude.{◌≡◌, ◌≤◌, map, true, OnOk, OnErr};
ghost use Rattle.commit_tickets.specs.Entries.{committed_of};
ghost use Rattle.commit_tickets.specs.Told.{RiseWithin};
ghost use Rattle.commit_tickets.specs.View.{TokenView};

use crate::fault::CommitFault;
use crate::site::Site;
use command_core::CpuPlace;
use command_log::CommandLog;
use std::alloc::AllocError;
use std::marker::Model;
use std::sync::ledger::Share;

/// What a CPU commits by: where it is, its own commits in their order, why its last try was refused, if it was, and how much
/// of the journal it was told of. Its share of the ledger takes no bytes.
#[derive(Drop)]
pub struct CpuToken<S: Site> {
    pub(crate) cpu: u8,
    pub(crate) place: CpuPlace,
    pub(crate) is_stopped: bool,
    pub(crate) mine: CommandLog<usize>,
    // set by `enter` alone
    pub(crate) fault: Option<CommitFault>,
    // how many entries of the journal it was told of
    pub(crate) seen: u64,
    pub(crate) share: Share<S>,
}

impl<S: Site> Model for CpuToken<S> {
    ghost use Rattle.commit_tickets.specs.View.{TokenView};

    ghost Value = { TokenView };

    ghost use Rattle.std.specs.Prelude.{◌≡◌, length, map};
    ghost use Rattle.commit_tickets.specs.Entries.{committed_of};
    ghost use Rattle.commit_tickets.specs.Told.{RiseWithin};

    ghost view = { λ t. record {
      cpu = t.cpu;
      place = t.place;
      is_stopped = t.is_stopped;
      mine = map committed_of t.mine.logged;
      room = t.mine.room;
      fault = t.fault;
      seen = t.seen;
    } };

    ghost invariant = { λ t. (t.share.parts ≡ 1) × (t.share.amount ≡ length t.mine.logged) × RiseWithin 0 t.seen (map committed_of t.mine.logged) };
}

impl<S: Site> CpuToken<S> {
    pub fn cpu(&self) -> u8
        ensures { result ≡ self.now.cpu }
    {
        self.cpu
    }

    /// Where the CPU is.
    pub fn place(&self) -> CpuPlace
        ensures { result ≡ self.now.place }
    {
        self.place
    }

    /// The CPU's own commits, in their order. The mark of each is its ticket, and these rise.
    pub fn mine(&self) -> &CommandLog<usize>
        ensures mine { map committed_of result.now.logged ≡ self.now.mine }
        ensures rising { RiseWithin 0 self.now.seen self.now.mine }
    {
        &self.mine
    }

    /// Why its last commit was refused, if it was.
    pub fn fault(&self) -> Option<CommitFault>
        ensures { result ≡ self.now.fault }
    {
        self.fault
    }

    /// Of how many entries of the journal, from the first on, the CPU was told.
    pub fn seen_len(&self) -> u64
        ensures { result ≡ self.now.seen }
    {
        self.seen
    }

    /// Makes room for one commit more in its list, where there is none.
    pub(crate) fn reserve(&mut self) -> Result<(), AllocError>
        ensures kept { self.new ≡ record self.old { room = self.new.room } }
        ensures ok { OnOk result (1 ≤ self.new.room) }
        ensures full { OnErr result (self.old.room ≡ 0) }
        ensures grows { self.old.room ≤ self.new.room }
    {
        self.mine.reserve()
    }

    pub fn is_stopped(&self) -> bool
        ensures { result ≡ self.now.is_stopped }
    {
        self.is_stopped
    }

    /// Stops the token. `commit` doesn't look at that.
    pub fn stop(&mut self)
        ensures { self.new ≡ record self.old { is_stopped = true } }
    {
        self.is_stopped = true;
    }
}
