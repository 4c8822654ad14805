//! The calls that never returned.

ghost use Rattle.std.specs.Prelude.{◌≡◌, length, IfOk};
ghost use Rattle.explain.specs.Unfinished.{AreUnfinished, IsUnfinished};
ghost use Rattle.rmm_spec.specs.declared.command.Command.{Command};
ghost use Rattle.rmm_spec.specs.Linearization.{IsCalled, IsFinished};

use crate::earlier::line_if_any;
use crate::named_call::named_call;
use certificate::Certificate;
use history::History;
use reasons::UnfinishedCall;
use std::alloc::{AllocError, Global};

/// The calls of a history that never returned, in the order in which they were made, each with the step whose line names it.
pub(crate) fn unfinished_calls(
    alloc: Global,
    history: &History,
    certificate: &Certificate,
) -> Result<Vec<UnfinishedCall>, AllocError>
    ensures { IfOk result (λ calls. AreUnfinished history.now.recorded.events certificate.now.lines
        (length history.now.recorded.events) calls.items) }
{
    let mut calls = Vec::new(alloc);
    for place in 0..history.len() {
        let Some((cpu, number)) = history.called_at(place) else {
            continue;
        };
        if history.has_returned(cpu, number) {
            continue;
        }
        calls.push(unfinished_call(history, certificate, place, cpu, number))?;
    }
    Ok(calls)
}

// The call that is made at the place, and never returned.
fn unfinished_call(
    history: &History,
    certificate: &Certificate,
    place: usize,
    cpu: u8,
    number: u32,
) -> UnfinishedCall
    requires made { (command : Command) × IsCalled history.now.recorded.events place cpu number command }
    requires unfinished { ¬ IsFinished history.now.recorded.events cpu number }
    ensures { IsUnfinished history.now.recorded.events certificate.now.lines place result }
{
    let _fact = history.well_formed();
    UnfinishedCall {
        call: named_call(history, cpu, number),
        step: line_if_any(certificate, cpu, number),
    }
}
