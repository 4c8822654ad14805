//! Why a step fails.

ghost use Rattle.std.specs.Prelude.{◌≡◌, ℕ, ◌+◌, ◌<◌, length, take, slice_get, Some, IfOk};
ghost use Rattle.certificate.specs.LineRef.{line_seen};
ghost use Rattle.checker.specs.Judged.{IsLeftBy};
ghost use Rattle.explain.specs.Explained.{IsCause, reason_of};
ghost use Rattle.explain.specs.Told.{IsStep, IsTold, NamesAt};
ghost use Rattle.rmm_spec.specs.declared.verdict.Reason.TheVariants as reason;
ghost use Rattle.rmm_spec.specs.declared.verdict.Verdict.TheVariants as verdict;
ghost use Rattle.rmm_spec.specs.declared.reply.Reply.{Reply};
ghost use Rattle.rmm_spec.specs.Linearization.{IsFinished, IsKnown, IsNamed, IsOfItsKind, IsReplyOf, IsReturned, IsTooLate, NamesCall, cpu_named, number_named};
ghost use Rattle.rmm_spec.specs.HistoryText.{History as Recorded};
ghost use Rattle.rmm_spec.specs.FirstFault.{FirstFault, IsRefused, Passes};
ghost use Rattle.rmm_spec.specs.Call.{call_of};
ghost use Rattle.rmm_spec.specs.State.{State};
ghost use Rattle.rmm_spec.specs.Step.{Step, outcome};
ghost use Rattle.spec_machine.specs.View.{state_of};
ghost use Rattle.explain.specs.Refused.{IsToldOf};

use crate::before::state_before;
use crate::deciding::decision_of;
use crate::earlier::{called_by, line_made_after, line_naming};
use crate::farthest::farthest_end;
use crate::named_call::named_call;
use crate::steps::{Steps, steps_of};
use certificate::{Certificate, LineRef};
use checker::Reason;
use history::History;
use reasons::{Cause, Deciding, NamedCall, RefusedLine, StateBefore, owner_report};
use rmi_view::copied_reply;
use rmm_spec::{Accepted, Refusal, Reply};
use spec_machine::Machine;
use std::alloc::{AllocError, Global};

/// Why the step fails, with the calls that it is about. The machine is as the lines before the step leave it.
pub(crate) fn cause_of(
    alloc: Global,
    history: &History,
    certificate: &Certificate,
    machine: &Machine,
    step: u64,
    reason: Reason,
) -> Result<Cause, AllocError>
    requires fault { FirstFault reason history.now.recorded certificate.now.lines step }
    requires left { IsLeftBy (verdict.No step reason) history.now.recorded certificate.now.lines (state_of machine.now) }
    ensures reason { IfOk result (λ cause. reason_of cause ≡ reason) }
    ensures cause { IfOk result (λ cause. IsCause cause history.now.recorded certificate.now.lines step) }
{
    match reason {
        Reason::Unknown => Ok(unknown(certificate, step)),
        Reason::Repeated => {
            let (index, line) = failing_line(certificate, step);
            Ok(repeated(history, certificate, index, line))
        }
        Reason::Kind => {
            let (index, line) = failing_line(certificate, step);
            Ok(kind(history, certificate, index, line))
        }
        Reason::Order => {
            let (index, line) = failing_line(certificate, step);
            Ok(order(history, certificate, index, line))
        }
        Reason::Reply => {
            let _fact = history.well_formed();
            let (index, line) = failing_line(certificate, step);
            refused(alloc, history, certificate, machine, index, line)
        }
        Reason::Missing(cpu, number) => Ok(Cause::Missing(named_call(history, cpu, number))),
    }
}

// The line of a step, with its index.
fn failing_line(certificate: &Certificate, step: u64) -> (usize, LineRef<'_>)
    requires { IsStep certificate.now.lines step }
    ensures counted { step ≡ result.0 + 1 }
    ensures is_line { slice_get certificate.now.lines result.0 ≡ Some (line_seen result.1) }
{
    let index = (step - 1) as usize;
    (index, certificate.line(index))
}

// The line names no call of the history.
fn unknown(certificate: &Certificate, step: u64) -> Cause
    requires { IsStep certificate.now.lines step }
    ensures reason { reason_of result ≡ reason.Unknown }
    ensures cause { (history : Recorded) → IsCause result history certificate.now.lines step }
{
    let (_index, line) = failing_line(certificate, step);
    let (cpu, number) = called_by(line);
    Cause::Unknown { cpu, number }
}

// An earlier line names the call.
fn repeated(history: &History, certificate: &Certificate, index: usize, line: LineRef<'_>) -> Cause
    requires is_line { slice_get certificate.now.lines index ≡ Some (line_seen line) }
    requires known { NamesCall history.now.recorded.events (line_seen line) }
    requires named { IsNamed (take index certificate.now.lines) (cpu_named (line_seen line)) (number_named (line_seen line)) }
    ensures reason { reason_of result ≡ reason.Repeated }
    ensures cause { IsCause result history.now.recorded certificate.now.lines (index + 1) }
{
    let (cpu, number) = called_by(line);
    let earlier = line_naming(certificate, index, cpu, number);
    Cause::Repeated {
        call: named_call(history, cpu, number),
        earlier: earlier as u64 + 1,
    }
}

// The line is of the other kind than its call.
fn kind(history: &History, certificate: &Certificate, index: usize, line: LineRef<'_>) -> Cause
    requires is_line { slice_get certificate.now.lines index ≡ Some (line_seen line) }
    requires known { NamesCall history.now.recorded.events (line_seen line) }
    ensures reason { reason_of result ≡ reason.Kind }
    ensures cause { IsCause result history.now.recorded certificate.now.lines (index + 1) }
{
    let (cpu, number) = called_by(line);
    Cause::Kind {
        call: named_call(history, cpu, number),
    }
}

// The call returned before that of an earlier line was made.
fn order(history: &History, certificate: &Certificate, index: usize, line: LineRef<'_>) -> Cause
    requires is_line { slice_get certificate.now.lines index ≡ Some (line_seen line) }
    requires known { NamesCall history.now.recorded.events (line_seen line) }
    requires late { IsTooLate history.now.recorded.events (take index certificate.now.lines) (line_seen line) }
    ensures reason { reason_of result ≡ reason.Order }
    ensures cause { IsCause result history.now.recorded certificate.now.lines (index + 1) }
{
    let _fact = history.well_formed();
    let (cpu, number) = called_by(line);
    let returned = returned_at(history, cpu, number);
    let earlier = line_made_after(history, certificate, index, returned);
    let (other_cpu, other_number) = called_by(certificate.line(earlier));
    Cause::Order {
        call: named_call(history, cpu, number),
        earlier: earlier as u64 + 1,
        other: named_call(history, other_cpu, other_number),
    }
}

// The place at which a finished call returned.
fn returned_at(history: &History, cpu: u8, number: u32) -> u32
    requires known { IsKnown history.now.recorded.events cpu number }
    requires finished { IsFinished history.now.recorded.events cpu number }
    ensures { (given : Reply) × IsReturned history.now.recorded.events result cpu number given }
{
    let Some(places) = history.places_of(cpu, number) else {
        unreachable!()
    };
    let Some(returned) = places.returned else {
        unreachable!()
    };
    returned
}

// The machine doesn't give the reply that the line claims.
fn refused(
    alloc: Global,
    history: &History,
    certificate: &Certificate,
    machine: &Machine,
    index: usize,
    line: LineRef<'_>,
) -> Result<Cause, AllocError>
    requires is_line { slice_get certificate.now.lines index ≡ Some (line_seen line) }
    requires known { NamesCall history.now.recorded.events (line_seen line) }
    requires kind { IsOfItsKind history.now.recorded.events (line_seen line) }
    requires left { Passes history.now.recorded (take index certificate.now.lines) (state_of machine.now) }
    requires refuses { IsRefused history.now.recorded.events (state_of machine.now) (line_seen line) }
    ensures reason { IfOk result (λ cause. reason_of cause ≡ reason.Reply) }
    ensures cause { IfOk result (λ cause. IsCause cause history.now.recorded certificate.now.lines (index + 1)) }
{
    let (cpu, number) = called_by(line);
    let call = named_call(history, cpu, number);
    let claimed = claimed_by(history, line);
    let specified = machine.outcome(call.cpu, &call.call.command);
    let replies = Replies {
        specified: &specified,
        claimed: &claimed,
    };
    let told = told_of(alloc, history, certificate, machine, index, &call, &replies)?;
    let farthest = farthest_end(machine, &specified);
    let Told {
        deciding,
        steps,
        before,
    } = told;
    let Steps { since, put, late } = steps;
    Ok(Cause::Reply(RefusedLine {
        call,
        claimed,
        specified,
        deciding,
        since,
        put,
        late,
        before,
        farthest,
    }))
}

// What the specification answers a line's call, and what the line claims.
#[derive(Clone, Copy)]
struct Replies<'a> {
    specified: &'a Result<Accepted, Refusal>,
    claimed: &'a Reply,
}

/// What is told of a refused line besides its replies.
#[derive(Drop)]
pub(crate) struct Told {
    pub(crate) deciding: Deciding,
    pub(crate) steps: Steps,
    pub(crate) before: StateBefore,
}

// What decides that the claimed reply isn't the specified one, with the steps that it is about and the state before.
fn told_of(
    alloc: Global,
    history: &History,
    certificate: &Certificate,
    machine: &Machine,
    index: usize,
    call: &NamedCall,
    replies: &Replies<'_>,
) -> Result<Told, AllocError>
    requires within { index < length certificate.now.lines }
    requires left { Passes history.now.recorded (take index certificate.now.lines) (state_of machine.now) }
    requires told { IsTold history.now.recorded.events call.now }
    requires specified { replies.now.specified.now ≡ outcome (state_of machine.now) call.now.cpu (call_of call.now.call.command) }
    requires refused { (next : State) → ¬ Step (state_of machine.now) call.now.cpu call.now.call.command replies.now.claimed.now next }
    ensures { IfOk result (IsToldOf history.now.recorded certificate.now.lines index
        (state_of machine.now) call.now replies.now.specified.now replies.now.claimed.now) }
{
    let command = &call.call.command;
    let mut owners = Vec::new(alloc);
    owner_report(machine, &mut owners)?;
    let rows = owners.as_slice();
    let decision = decision_of(
        alloc,
        machine,
        rows,
        call.cpu,
        command,
        replies.specified,
        replies.claimed,
    )?;
    let steps = steps_of(alloc, history, certificate, machine, index, call, &decision)?;
    Ok(Told {
        deciding: decision.deciding,
        steps,
        before: state_before(machine, rows, call.cpu, &command.call()),
    })
}

// The reply that a line of its call's kind claims.
fn claimed_by(history: &History, line: LineRef<'_>) -> Reply
    requires known { NamesCall history.now.recorded.events (line_seen line) }
    requires kind { IsOfItsKind history.now.recorded.events (line_seen line) }
    ensures { IsReplyOf history.now.recorded.events (line_seen line.entry) result }
{
    match line {
        LineRef::Keep { cpu, number } => reply_of(history, cpu, number),
        LineRef::Unfinished { reply, .. } => copied_reply(reply),
    }
}

// The recorded reply of a finished call.
fn reply_of(history: &History, cpu: u8, number: u32) -> Reply
    requires known { IsKnown history.now.recorded.events cpu number }
    requires finished { IsFinished history.now.recorded.events cpu number }
    ensures { (place : ℕ) × IsReturned history.now.recorded.events place cpu number result }
{
    let Some(call) = history.call_of(cpu, number) else {
        unreachable!()
    };
    let Some(answer) = call.answer else {
        unreachable!()
    };
    answer.reply
}
