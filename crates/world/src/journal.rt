//! The journal of a world.

ghost use Rattle.std.specs.Prelude.{◌≡◌, ◌≤◌, ◌<◌, ◌++◌, [], ◌∷◌, length, slice_get, Some, OnOk, OnErr};
ghost use Rattle.rmi_view.specs.Seen.{HasFewWords, reply_seen};
ghost use Rattle.command_log.specs.Log.{logged_seen};
ghost use Rattle.world.specs.Journal.{commitment_of};

use command_log::{CommandLog, Logged};
use rmi_view::{CommandRef, ReplyRef};
use rmm_spec::{Command, Reply};
use std::alloc::{AllocError, Global};
use std::marker::Model;

/// Whose call a commit is of, and the call's number.
#[derive(Clone, Copy)]
pub(crate) struct Caller {
    pub(crate) cpu: u8,
    pub(crate) number: u32,
}

/// All commits in their order.
#[derive(Drop)]
pub(crate) struct Journal {
    commits: CommandLog<Caller>,
}

impl Model for Journal {
    ghost use Rattle.world.specs.Journal.{JournalView};

    ghost Value = { JournalView };

    ghost use Rattle.std.specs.Prelude.{map};
    ghost use Rattle.world.specs.Journal.{commitment_of};

    ghost view = { λ j. record { items = map commitment_of j.commits.logged; room = j.commits.room } };
}

impl Journal {
    /// No commit yet.
    pub(crate) fn new(alloc: Global) -> Journal
        ensures { result.items ≡ [] }
    {
        Journal {
            commits: CommandLog::new(alloc),
        }
    }

    /// How many commits there are.
    pub(crate) fn len(&self) -> usize
        ensures { result ≡ length self.now.items }
    {
        self.commits.len()
    }

    /// Makes room for one commit more, where there is none.
    pub(crate) fn reserve(&mut self) -> Result<(), AllocError>
        ensures items { self.new.items ≡ self.old.items }
        ensures ok { OnOk result (1 ≤ self.new.room) }
        ensures full { OnErr result (self.old.room ≡ 0) }
    {
        self.commits.reserve()
    }

    /// Puts a commit at the end, for which there is room.
    pub(crate) fn push_reserved(&mut self, caller: Caller, command: &Command, reply: &Reply)
        requires room { 1 ≤ self.old.room }
        ensures items { self.new.items ≡ self.old.items
            ++ record { cpu = caller.cpu; number = caller.number; command = command.now; given = reply.now } ∷ [] }
    {
        self.commits
            .push_reserved(caller, CommandRef::of(command), ReplyRef::of(reply));
    }

    /// The commit at a place.
    pub(crate) fn commit(&self, place: usize) -> Logged<'_, Caller>
        requires { place < length self.now.items }
        ensures commit { slice_get self.now.items place ≡ Some (commitment_of (logged_seen result)) }
        ensures few { HasFewWords (reply_seen result.reply) }
    {
        let Some(commit) = self.commits.get(place) else {
            unreachable!()
        };
        commit
    }
}
