//! The journal, with the pass that knows its order.

ghost use Rattle.std.specs.Prelude.{◌≡◌, OnOk, OnErr, IsTrue};
ghost use Rattle.rmm_spec.specs.Call.{call_of};
ghost use Rattle.command_core.specs.Changed.{given_of};
ghost use Rattle.command_core.specs.Seen.{place_of};
ghost use Rattle.command_core.specs.Settled.{is_settled};
ghost use Rattle.granule_lock.specs.HeldCells.{hold_cells};
ghost use Rattle.commit_tickets.specs.Commits.{HasJournals, IsEntry};
ghost use Rattle.commit_tickets.specs.Drafts.{IsDraft};
ghost use Rattle.event_queue.specs.Stages as stages;

use commit_tickets::{CommitFault, CpuToken, Draft, Journal, JournalAccess, Site};
use event_queue::{CpuPass, OrderPass, Recorder};
use granule_lock::Hold;
use rmm_spec::Command;
use std::alloc::Global;
use std::marker::Model;

/// What lies behind the one lock: the journal, and the pass of the queue that has the same commits.
#[derive(Drop)]
pub(crate) struct Ordered<S: Site> {
    pub(crate) journal: Journal<S>,
    pub(crate) order: OrderPass,
}

impl<S: Site> Model for Ordered<S> {
    ghost use Rattle.commit_tickets.specs.View.{JournalView};

    ghost Value = { JournalView };

    ghost use Rattle.std.specs.Prelude.{◌≡◌};

    ghost view = { λ o. o.journal };

    ghost invariant = { λ o. (o.order.queue ≡ S.queue) × (o.order.entries ≡ o.journal.entries) };
}

/// A command, and what its CPU holds for it.
#[derive(Drop)]
pub(crate) struct HeldCommand<'a> {
    pub(crate) command: &'a Command,
    pub(crate) hold: &'a Hold,
}

impl<S: Site> Ordered<S> {
    /// Enters a draft by the token and the pass of its CPU. Where it comes to stand in the journal, the pass has committed its call
    /// with the draft's reply.
    pub(crate) fn enter(
        &mut self,
        alloc: Global,
        recorder: &Recorder,
        pass: &mut CpuPass,
        token: &mut CpuToken<S>,
        held: &HeldCommand<'_>,
        draft: &mut Draft,
    ) -> Result<usize, CommitFault>
        requires queue { (recorder.now.queue ≡ S.queue) × (pass.old.queue ≡ recorder.now.queue) }
        requires called { (pass.old.cpu ≡ token.old.cpu) × (pass.old.stage ≡ stages.Open held.now.command.now) }
        requires settled { IsTrue (is_settled S.config (call_of held.now.command.now) (place_of token.old.place) (hold_cells held.now.hold.now)) }
        requires draft { IsDraft S.config held.now.command.now token.old (hold_cells held.now.hold.now) draft.old }
        ensures entry { HasJournals (λ before after. (before ≡ self.old) × (after ≡ self.new)) (λ before after.
            IsEntry S.config held.now.command.now before after token.old token.new (hold_cells held.now.hold.now) draft.new result) }
        ensures committed { OnOk result (pass.new ≡ record pass.old { stage = stages.Committed (given_of draft.new.answer) }) }
        ensures kept { OnErr result (pass.new ≡ pass.old) }
    {
        let (hold, command) = (held.hold, held.command);
        let entered = self.journal.enter(alloc, token, hold, command, draft);
        if entered.is_ok() {
            recorder.commit(&mut self.order, pass, draft.reply());
        }
        entered
    }
}
