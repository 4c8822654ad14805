//! Lines of a certificate, replayed one after another.

ghost use Rattle.std.specs.Prelude.{◌≡◌, List, IfNone, IfOk, IfSome};
ghost use Rattle.certificate.specs.LineRef.{line_seen};
ghost use Rattle.explain.specs.Told.{IsTold};
ghost use Rattle.history.specs.Calls.{IsCallOf};
ghost use Rattle.run_steps.specs.Replayed.{StopsAt, TakesLine};
ghost use Rattle.rmm_spec.specs.declared.event.Event.{Event};
ghost use Rattle.rmm_spec.specs.declared.reply.Reply.{Reply};
ghost use Rattle.rmm_spec.specs.Linearization.{IsReplyOf, cpu_named, number_named};
ghost use Rattle.rmm_spec.specs.State.{opening};
ghost use Rattle.spec_machine.specs.View.{state_of};

use certificate::LineRef;
use explain::NamedCall;
use history::{Call, History};
use rmm_spec::{Accepted, Refusal, Reply};
use spec_machine::Machine;
use std::alloc::{AllocError, Global};

/// A step that was taken: its call, and what the specification answered.
#[derive(Drop)]
pub(crate) struct Taken {
    pub(crate) call: NamedCall,
    pub(crate) outcome: Result<Accepted, Refusal>,
}

/// The machine before the first line.
pub(crate) fn machine_of(alloc: Global, history: &History) -> Result<Machine, AllocError>
    ensures { IfOk result (λ machine. state_of machine ≡ opening history.now.recorded.config) }
{
    Machine::new(alloc, history.config())
}

/// Takes a line's step, where the line claims a reply of a call and the machine gives it. Else the machine stays.
pub(crate) fn take_line(
    machine: &mut Machine,
    history: &History,
    line: LineRef<'_>,
) -> Result<Option<Taken>, AllocError>
    ensures taken { IfOk result (λ told. IfSome told (λ taken.
        TakesLine history.now.recorded.events (state_of machine.old)
        (line_seen line.entry) taken.call.call.command taken.outcome (state_of machine.new))) }
    ensures call { IfOk result (λ told. IfSome told (λ taken. IsTold history.now.recorded.events taken.call)) }
    ensures cpu { IfOk result (λ told. IfSome told (λ taken. taken.call.cpu ≡ cpu_named (line_seen line.entry))) }
    ensures number { IfOk result (λ told. IfSome told (λ taken. taken.call.number ≡ number_named (line_seen line.entry))) }
    ensures stops { IfOk result (λ told. IfNone told (StopsAt history.now.recorded.events (state_of machine.old) (line_seen line.entry))) }
    ensures kept { IfOk result (λ told. IfNone told (state_of machine.new ≡ state_of machine.old)) }
{
    let (cpu, number) = called_by(line);
    let Some(call) = history.call_of(cpu, number) else {
        return Ok(None);
    };
    let Some(reply) = claimed_by(line, &call) else {
        return Ok(None);
    };
    let outcome = machine.outcome(cpu, &call.command);
    if !machine.offer(cpu, &call.command, reply)? {
        return Ok(None);
    }
    let call = NamedCall { cpu, number, call };
    Ok(Some(Taken { call, outcome }))
}

// The reply that a line claims of its call, if it claims one.
fn claimed_by<'a>(line: LineRef<'a>, call: &'a Call) -> Option<&'a Reply>
    ensures some { IfSome result (λ reply. (events : List Event)
        → IsCallOf events (cpu_named (line_seen line.entry)) (number_named (line_seen line.entry)) call.now
        → IsReplyOf events (line_seen line.entry) reply.now) }
    ensures none { IfNone result ((events : List Event) (given : Reply)
        → IsCallOf events (cpu_named (line_seen line.entry)) (number_named (line_seen line.entry)) call.now
        → ¬ IsReplyOf events (line_seen line.entry) given) }
{
    match line {
        LineRef::Unfinished { reply, .. } => Some(reply),
        LineRef::Keep { .. } => match &call.answer {
            Some(answer) => Some(&answer.reply),
            None => None,
        },
    }
}

// The CPU and the number of the call that a line names.
fn called_by(line: LineRef<'_>) -> (u8, u32)
    ensures cpu { result.0 ≡ cpu_named (line_seen line.entry) }
    ensures number { result.1 ≡ number_named (line_seen line.entry) }
{
    match line {
        LineRef::Keep { cpu, number } | LineRef::Unfinished { cpu, number, .. } => (cpu, number),
    }
}
