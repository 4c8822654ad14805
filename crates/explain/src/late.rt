//! A later step with which a refused line's condition would hold.

ghost use Rattle.std.specs.Prelude.{◌≡◌, ◌↔◌, ◌+◌, ◌^◌, ◌<◌, ℕ, List, false, length, IfOk, IsTrue, MatchOption};
ghost use Rattle.certificate.specs.LineRef.{line_seen};
ghost use Rattle.explain.specs.Late.{holds, HasNoLate, IsLate, Moves, Overlap, made_by};
ghost use Rattle.explain.specs.Told.{IsTold, Names};
ghost use Rattle.history.specs.Calls.{ArePlacesOf};
ghost use Rattle.rmm_spec.specs.declared.event.Event.{Event as Recorded};
ghost use Rattle.rmm_spec.specs.HistoryText.{History as Texts, IsHistory};
ghost use Rattle.rmm_spec.specs.Linearization.{IsKnown, IsOfItsKind, ReturnsBefore, cpu_named, number_named};
ghost use Rattle.spec_machine.specs.View.{state_of};

use crate::earlier::called_by;
use crate::named_call::named_call;
use crate::replay::claimed_reply;
use certificate::{Certificate, LineRef};
use history::{History, Places};
use reasons::{Fact, LateCommit, NamedCall, Test, is_standing, passes};
use spec_machine::Machine;
use std::alloc::AllocError;

/// The first line after the index whose call overlaps this one and with which the condition holds, where it is taken after the overlapping
/// ones before it.
pub(crate) fn late_commit(
    history: &History,
    certificate: &Certificate,
    index: usize,
    machine: &Machine,
    call: &NamedCall,
    test: Test,
) -> Result<Option<LateCommit>, AllocError>
    requires within { index < length certificate.now.lines }
    requires told { IsTold history.now.recorded.events call.now }
    requires fails { holds (state_of machine.now) test ≡ false }
    ensures { IfOk result (λ found. MatchOption found
        (HasNoLate history.now.recorded.events certificate.now.lines index call.now test (state_of machine.now))
        (IsLate history.now.recorded.events certificate.now.lines index call.now test (state_of machine.now))) }
{
    let Some(places) = history.places_of(call.cpu, call.number) else {
        unreachable!()
    };
    let mut moved = machine.copy()?;
    let lines = certificate.len();
    for i in index + 1..lines {
        let line = certificate.line(i);
        if !takes(&mut moved, history, line, call, places)? {
            continue;
        }
        if is_holding(&moved, test) {
            return Ok(Some(later_step(history, i, line, test)));
        }
    }
    Ok(None)
}

// Whether the condition holds, of what is there.
fn is_holding(machine: &Machine, test: Test) -> bool
    ensures { result ≡ holds (state_of machine.now) test }
{
    is_standing(machine, test) && passes(machine, test)
}

// The step of a line, with its call.
fn later_step(history: &History, at: usize, line: LineRef<'_>, test: Test) -> LateCommit
    requires known { IsKnown history.now.recorded.events (cpu_named (line_seen line)) (number_named (line_seen line)) }
    requires few { at < 2 ^ 63 }
    ensures step { result.step ≡ at + 1 }
    ensures names { Names result.call.cpu result.call.number (line_seen line.entry) }
    ensures told { IsTold history.now.recorded.events result.call }
    ensures makes { result.makes ≡ made_by test }
{
    let (cpu, number) = called_by(line);
    LateCommit {
        step: at as u64 + 1,
        call: named_call(history, cpu, number),
        makes: made_by(test),
    }
}

// Takes the step of a line whose call overlaps the one at the places, if the machine gives the line's reply.
fn takes(
    machine: &mut Machine,
    history: &History,
    line: LineRef<'_>,
    call: &NamedCall,
    places: Places,
) -> Result<bool, AllocError>
    requires places { ArePlacesOf history.now.recorded.events call.now.cpu call.now.number places }
    ensures { IfOk result (λ taken. Moves history.now.recorded.events call.now.cpu call.now.number
        (line_seen line.entry) (state_of machine.old) taken (state_of machine.new)) }
{
    let _fact = history.well_formed();
    let (cpu, number) = called_by(line);
    let Some(other) = history.places_of(cpu, number) else {
        return Ok(false);
    };
    if !overlap(places, other) {
        return Ok(false);
    }
    if !is_of_its_kind(line, other) {
        return Ok(false);
    }
    let Some(command) = history.command_at(other.called as usize) else {
        unreachable!()
    };
    let reply = claimed_reply(history, line, other);
    machine.offer_seen(cpu, command, reply)
}

// Whether a kept line names a finished call, and an unfinished line an unfinished one.
fn is_of_its_kind(line: LineRef<'_>, places: Places) -> bool
    ensures { (events : List Recorded) → ArePlacesOf events (cpu_named (line_seen line.entry)) (number_named (line_seen line.entry)) places
        → IsTrue result ↔ IsOfItsKind events (line_seen line.entry) }
{
    match line {
        LineRef::Keep { .. } => places.returned.is_some(),
        LineRef::Unfinished { .. } => places.returned.is_none(),
    }
}

// Whether neither call returned before the other was made.
fn overlap(one: Places, other: Places) -> bool
    ensures { (h : Texts) (cpu number other_cpu other_number : ℕ) → IsHistory h → ArePlacesOf h.events cpu number one
        → ArePlacesOf h.events other_cpu other_number other → IsTrue result ↔ Overlap h.events cpu number other_cpu other_number }
{
    !is_before(one, other) && !is_before(other, one)
}

// Whether the one call returned before the other was made.
fn is_before(one: Places, other: Places) -> bool
    ensures { (h : Texts) (cpu number other_cpu other_number : ℕ) → IsHistory h → ArePlacesOf h.events cpu number one
        → ArePlacesOf h.events other_cpu other_number other → IsTrue result ↔ ReturnsBefore h.events cpu number other_cpu other_number }
{
    match one.returned {
        Some(returned) => returned < other.called,
        None => false,
    }
}

// What a condition reads where its test passes.
fn made_by(test: Test) -> Fact
    ensures { result ≡ made_by test }
{
    match test {
        Test::Tagged { granule, tag } => Fact::Tag {
            granule,
            needed: tag,
            found: Some(tag),
        },
        _ => Fact::Nothing,
    }
}
