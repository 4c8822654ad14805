//! A draft comes to stand in the journal.

ghost use Rattle.std.specs.Prelude.{◌≡◌, ◌≤◌, length, None, Some, IsTrue, IfOk, IfErr, OnOk, OnErr};
ghost use Rattle.rmm_spec.specs.Call.{call_of};
ghost use Rattle.rmm_laws.specs.Whole.{side_changed};
ghost use Rattle.rmm_spec.specs.declared.version.Version.TheVariants.{Large};
ghost use Rattle.rmm_spec.specs.HistoryText.{granule_limit};
ghost use Rattle.command_core.specs.Changed.{can_count, given_of};
ghost use Rattle.command_core.specs.Foreseen as spec;
ghost use Rattle.command_core.specs.Foreseen.{IsDecision};
ghost use Rattle.command_core.specs.Rooms.{IsRoomFor};
ghost use Rattle.command_core.specs.Seen.{place_of, known_cell};
ghost use Rattle.command_core.specs.Settled.{is_settled};
ghost use Rattle.command_core.specs.Sides.{side_of};
ghost use Rattle.granule_lock.specs.HeldCells.{hold_cells};
ghost use Rattle.commit_tickets.specs.Commits.{IsEntry, IsOfRun};
ghost use Rattle.commit_tickets.specs.declared.fault.CommitFault.TheVariants.{NoMemory};
ghost use Rattle.commit_tickets.specs.Drafts.{IsDecided, IsDraft, IsEnteredOn};
ghost use Rattle.commit_tickets.specs.Faults.{DecidesTable, HasCause};
ghost use Rattle.commit_tickets.specs.Left.{HasGained, HasGainedNone, HasListed, HasFailed};
ghost use Rattle.commit_tickets.specs.View.{hold_with};

use crate::draft::{Draft, Entered, change_of, room_of};
use crate::fault::CommitFault;
use crate::journal::Journal;
use crate::site::Site;
use crate::token::CpuToken;
use command_core::{Room, Side, answer, apply_aside, bears_out};
use granule_lock::Hold;
use rmi_view::CommandRef;
use rmm_spec::{Accepted, Command, Refusal};
use std::alloc::{AllocError, Global};

/// Enters a draft into the journal, and returns its ticket. Where the side table doesn't bear the draft out, or memory was refused
/// to it, it is decided anew. Its reply is offered to the journal's books. Where they give it, the side table makes its part of the
/// change, journal and token list the commit, and the rest of the change is owed: `settle` makes it. Where they don't, or memory
/// is refused, or the journal has fewer entries than the token was told of, nothing changes but that the token keeps the fault,
/// and the draft is to be discarded. It waits for nobody.
pub(crate) fn enter<S: Site>(
    alloc: Global,
    journal: &mut Journal<S>,
    token: &mut CpuToken<S>,
    hold: &Hold,
    command: &Command,
    draft: &mut Draft,
) -> Result<usize, CommitFault>
    requires settled { IsTrue (is_settled S.config (call_of command.now) (place_of token.old.place) (hold_cells hold.now)) }
    requires draft { IsDraft S.config command.now token.old (hold_cells hold.now) draft.old }
    ensures { IsEntry S.config command.now journal.old journal.new token.old token.new (hold_cells hold.now) draft.new result }
{
    if (journal.len() as u64) < token.seen {
        token.fault = Some(CommitFault::Disagrees);
        return Err(CommitFault::Disagrees);
    }
    // what each `?` answers
    token.fault = Some(CommitFault::NoMemory);
    make_ready(alloc, journal, token, hold, command, draft)?;
    list(journal, token, hold, command, draft)
}

// Decides a draft with the side table, where that doesn't bear it out, and makes room for one commit more.
fn make_ready<S: Site>(
    alloc: Global,
    journal: &mut Journal<S>,
    token: &mut CpuToken<S>,
    hold: &Hold,
    command: &Command,
    draft: &mut Draft,
) -> Result<(), AllocError>
    requires settled { IsTrue (is_settled S.config (call_of command.now) (place_of token.old.place) (hold_cells hold.now)) }
    requires draft { IsDraft S.config command.now token.old (hold_cells hold.now) draft.old }
    ensures journal { HasGainedNone journal.old journal.new }
    ensures token { token.new ≡ record token.old { room = token.new.room } }
    ensures grows { journal.old.room ≤ journal.new.room }
    ensures token_grows { token.old.room ≤ token.new.room }
    ensures room { OnOk result (1 ≤ journal.new.room) }
    ensures token_room { OnOk result (1 ≤ token.new.room) }
    ensures decided { OnOk result (IsDecided S.config token.old.cpu command.now (hold_with journal.old token.old (hold_cells hold.now)) draft.new) }
    ensures fresh { draft.new.entered ≡ None }
    ensures cause { OnErr result (HasCause NoMemory S.config command.now journal.old token.old (hold_cells hold.now)) }
{
    decide_draft(alloc, journal, token, hold, command, draft)?;
    journal.reserve()?;
    token.reserve()
}

// Offers a decision to the books, and lists it where they give it. It takes memory for the books alone.
fn list<S: Site>(
    journal: &mut Journal<S>,
    token: &mut CpuToken<S>,
    hold: &Hold,
    command: &Command,
    draft: &mut Draft,
) -> Result<usize, CommitFault>
    requires decided { IsDecided S.config token.old.cpu command.now (hold_with journal.old token.old (hold_cells hold.now)) draft.old }
    requires fresh { draft.old.entered ≡ None }
    requires room { 1 ≤ journal.old.room }
    requires token_room { 1 ≤ token.old.room }
    requires told { token.old.seen ≤ length journal.old.entries }
    requires fault { token.old.fault ≡ Some NoMemory }
    ensures of_run { IsOfRun S.config journal.old }
    ensures ticket { IfOk result (λ ticket. ticket ≡ length journal.old.entries) }
    ensures journal { OnOk result (HasGained token.old.cpu command.now (given_of draft.old.answer) journal.old journal.new) }
    ensures side { OnOk result
        (side_of journal.new.side ≡ side_changed (known_cell (hold_cells hold.now)) (side_of journal.old.side) (spec.change_of draft.old.answer)) }
    ensures token { IfOk result (λ ticket. HasListed token.old command.now
        (record { ticket = ticket; reply = given_of draft.old.answer }) token.new) }
    ensures draft { draft.new ≡ record draft.old { entered = draft.new.entered } }
    ensures entered { OnOk result (IsEnteredOn draft.new token.old.cpu (hold_cells hold.now)) }
    ensures cause { IfErr result (λ fault. HasCause fault S.config command.now journal.old token.old (hold_cells hold.now)) }
    ensures kept_journal { OnErr result (HasGainedNone journal.old journal.new) }
    ensures kept_token { IfErr result (λ fault. HasFailed token.old fault token.new) }
    ensures kept_draft { OnErr result (draft.new.entered ≡ None) }
{
    let (view, reply) = (CommandRef::of(command), draft.reply());
    if !journal.books.offer_seen(token.cpu, view, reply)? {
        token.fault = Some(CommitFault::Disagrees);
        return Err(CommitFault::Disagrees);
    }
    token.fault = None;
    change_aside(hold, &mut journal.side, &draft.answer);
    journal.commits.add(&mut token.share, 1);
    let ticket = journal.entries.len();
    journal.entries.push_reserved(token.cpu, view, reply);
    token.mine.push_reserved(ticket, view, reply);
    token.seen = journal.entries.len() as u64;
    draft.entered = Some(Entered::on(&token.cpu, hold));
    Ok(ticket)
}

// The side table's part of what an answer changes.
fn change_aside(hold: &Hold, side: &mut Side, answer: &Result<Accepted, Refusal>)
    requires { IsTrue (can_count (granule_limit Large) (side_of side.old) (spec.change_of answer.now)) }
    ensures { side_of side.new ≡ side_changed (known_cell (hold_cells hold.now)) (side_of side.old) (spec.change_of answer.now) }
{
    apply_aside(hold.pairs(), side, change_of(answer));
}

// Leaves a draft that the side table bears out as it is, and decides any other anew.
fn decide_draft<S: Site>(
    alloc: Global,
    journal: &Journal<S>,
    token: &CpuToken<S>,
    hold: &Hold,
    command: &Command,
    draft: &mut Draft,
) -> Result<(), AllocError>
    requires settled { IsTrue (is_settled S.config (call_of command.now) (place_of token.now.place) (hold_cells hold.now)) }
    requires draft { IsDraft S.config command.now token.now (hold_cells hold.now) draft.old }
    ensures decided { OnOk result (IsDecided S.config token.now.cpu command.now (hold_with journal.now token.now (hold_cells hold.now)) draft.new) }
    ensures fresh { OnOk result (draft.new.entered ≡ None) }
    ensures table { OnErr result (DecidesTable S.config token.now.cpu command.now (hold_with journal.now token.now (hold_cells hold.now))) }
    ensures kept { OnErr result (draft.new ≡ draft.old) }
{
    if draft.room.is_some() && bears_out(&journal.config, &journal.side, command, &draft.answer) {
        return Ok(());
    }
    let (answer, room) = decided(alloc, journal, token, hold, command)?;
    draft.answer = answer;
    draft.room = Some(room);
    Ok(())
}

// What is answered with the side table, and the memory for its change.
#[inline(never)]
fn decided<S: Site>(
    alloc: Global,
    journal: &Journal<S>,
    token: &CpuToken<S>,
    hold: &Hold,
    command: &Command,
) -> Result<(Result<Accepted, Refusal>, Room), AllocError>
    requires settled { IsTrue (is_settled S.config (call_of command.now) (place_of token.now.place) (hold_cells hold.now)) }
    ensures decision { IfOk result (λ made. IsDecision S.config token.now.cpu command.now
        (hold_with journal.now token.now (hold_cells hold.now)) (given_of made.0) (spec.change_of made.0)) }
    ensures room { IfOk result (λ made. IsRoomFor (spec.change_of made.0) made.1) }
    ensures table { OnErr result (DecidesTable S.config token.now.cpu command.now (hold_with journal.now token.now (hold_cells hold.now))) }
{
    let answer = answer(
        &journal.config,
        command,
        token.cpu,
        &token.place,
        hold.pairs(),
        &journal.side,
    );
    let room = room_of(alloc, &answer)?;
    Ok((answer, room))
}
