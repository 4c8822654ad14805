//! What a CPU is about to commit.

ghost use Rattle.std.specs.Prelude.{◌≡◌, ◌≤◌, None, IfOk, OnErr, IsTrue};
ghost use Rattle.rmm_spec.specs.Call.{call_of};
ghost use Rattle.rmi_view.specs.Seen.{HasFewWords, reply_seen};
ghost use Rattle.command_core.specs.Changed.{given_of};
ghost use Rattle.command_core.specs.Foreseen as spec;
ghost use Rattle.command_core.specs.Rooms.{IsRoomFor, makes_table};
ghost use Rattle.command_core.specs.Seen.{place_of};
ghost use Rattle.command_core.specs.Settled.{is_settled};
ghost use Rattle.granule_lock.specs.HeldCells.{hold_cells};
ghost use Rattle.commit_tickets.specs.Drafts.{IsDraft};

use crate::site::Site;
use crate::token::CpuToken;
use command_core::{Room, foresee, room_for};
use granule_lock::Hold;
use memory_map::Config;
use rmi_view::ReplyRef;
use rmm_spec::{Accepted, Change, Command, Condition, Refusal};
use std::alloc::{AllocError, Global};
use std::snapshot::Snapshot;

/// That a draft stands in the journal: by which CPU, and on what is held, it was entered. It has no bytes, and `enter` alone makes one.
#[derive(Drop)]
pub(crate) struct Entered {
    pub(crate) cpu: Snapshot<u8>,
    pub(crate) hold: Snapshot<Hold>,
}

impl Entered {
    pub(crate) fn on(cpu: &u8, hold: &Hold) -> Entered
        ensures cpu { result.cpu.value ≡ cpu.now }
        ensures hold { result.hold.value ≡ hold.now }
    {
        Entered {
            cpu: Snapshot::of(cpu),
            hold: Snapshot::of(hold),
        }
    }
}

/// What is answered to a command, the memory for its change, and whether it stands in the journal. It has no `Drop`, so that once it
/// does, it is settled.
pub struct Draft {
    pub(crate) answer: Result<Accepted, Refusal>,
    pub(crate) room: Option<Room>,
    pub(crate) entered: Option<Entered>,
}

impl Draft {
    /// A draft of nothing.
    pub(crate) fn new() -> Draft
        ensures { result.entered ≡ None }
    {
        Draft {
            answer: Err(Refusal::Misplaced(Condition::OwnShape)),
            room: None,
            entered: None,
        }
    }

    /// Drafts the commit of a command that what is held settles, by the token of its CPU and without the journal: what a side table that
    /// lists nothing answers. It takes the memory for the change and for the token's list. Where that is refused, `enter` asks for it
    /// once more. The change's is refused only where it makes a table.
    pub(crate) fn foresee<S: Site>(
        &mut self,
        alloc: Global,
        config: &Config,
        token: &mut CpuToken<S>,
        hold: &Hold,
        command: &Command,
    )
        requires fresh { self.old.entered ≡ None }
        requires site { config.now ≡ S.config }
        requires settled { IsTrue (is_settled S.config (call_of command.now) (place_of token.old.place) (hold_cells hold.now)) }
        ensures draft { IsDraft S.config command.now token.old (hold_cells hold.now) self.new }
        ensures token { token.new ≡ record token.old { room = token.new.room } }
        ensures room { token.old.room ≤ token.new.room }
    {
        self.answer = foresee(config, command, token.cpu, &token.place, hold.pairs());
        self.room = room_of(alloc, &self.answer).ok();
        let _ = token.reserve();
    }

    /// The reply.
    pub fn reply(&self) -> ReplyRef<'_>
        ensures seen { reply_seen result ≡ given_of self.now.answer }
        ensures few { HasFewWords (reply_seen result) }
    {
        match &self.answer {
            Ok(Accepted::Done { words, .. }) => ReplyRef::Ok(words.as_slice()),
            // not an answer: a stretch's end is chosen first
            Ok(Accepted::Reaches(_)) => ReplyRef::Misplaced,
            Err(refusal) => ReplyRef::refused(*refusal),
        }
    }

    /// Ends a draft that doesn't stand in the journal.
    pub(crate) fn discard(self)
        requires { self.entered ≡ None }
    {
        let Draft {
            answer: _,
            room: _,
            entered: _,
        } = self;
    }
}

/// What an answer changes.
pub(crate) fn change_of(answer: &Result<Accepted, Refusal>) -> &Change
    ensures { result.now ≡ spec.change_of answer.now }
{
    match answer {
        Ok(Accepted::Done { change, .. }) => change,
        Ok(Accepted::Reaches(_)) | Err(_) => &Change::Unchanged,
    }
}

/// The memory for what an answer changes.
pub(crate) fn room_of(alloc: Global, answer: &Result<Accepted, Refusal>) -> Result<Room, AllocError>
    ensures ok { IfOk result (IsRoomFor (spec.change_of answer.now)) }
    ensures only { OnErr result (IsTrue (makes_table (spec.change_of answer.now))) }
{
    room_for(alloc, change_of(answer))
}
