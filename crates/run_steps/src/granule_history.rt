//! The steps of one granule.

ghost use Rattle.std.specs.Prelude.{◌≡◌, ◌++◌, All, IfOk, List, OnOk, map};
ghost use Rattle.explain.specs.Told.{IsTold, NamesAt};
ghost use Rattle.rmm_spec.specs.declared.line.Line.{Line};
ghost use Rattle.rmm_spec.specs.HistoryText.{History as Recorded};
ghost use Rattle.run_steps.specs.Granule.{IsHistoryOf, IsNamedStep, mark_of, told_of};
ghost use Rattle.run_steps.specs.Touched.{mark_at};

use crate::replay::{Taken, machine_of, take_line};
use crate::touches::{answer_touches, names};
use certificate::Certificate;
use explain::NamedCall;
use history::History;
use std::alloc::{AllocError, Global};

/// A step that touches a granule, or whose command names it.
#[derive(Drop)]
pub struct GranuleStep {
    /// Counted from 1.
    pub step: u64,
    pub call: NamedCall,
    /// Whether the granule got another tag by it, or the realm or the REC that it is another record.
    pub is_changed: bool,
}

/// The steps of a granule, among so many that were replayed.
#[derive(Drop)]
pub struct GranuleHistory {
    pub granule: u64,
    pub replayed: u64,
    pub steps: Vec<GranuleStep>,
}

/// The steps of the granule, in the order of the certificate, up to the first line whose reply the machine doesn't give.
pub fn granule_steps(
    alloc: Global,
    history: &History,
    certificate: &Certificate,
    granule: u64,
) -> Result<GranuleHistory, AllocError>
    ensures { IfOk result (IsHistoryOf history.now.recorded certificate.now.lines granule) }
{
    let mut machine = machine_of(alloc, history)?;
    let mut steps = Vec::new(alloc);
    for i in 0..certificate.len() {
        let Some(taken) = take_line(&mut machine, history, certificate.line(i))? else {
            return Ok(GranuleHistory {
                granule,
                replayed: i as u64,
                steps,
            });
        };
        keep_step(&mut steps, granule, i as u64 + 1, taken)?;
    }
    Ok(GranuleHistory {
        granule,
        replayed: certificate.len() as u64,
        steps,
    })
}

// Appends the step, if it touches the granule or its command names it.
fn keep_step(
    steps: &mut Vec<GranuleStep>,
    granule: u64,
    step: u64,
    taken: Taken,
) -> Result<(), AllocError>
    ensures marks { OnOk result (map mark_of steps.new.items ≡ map mark_of steps.old.items ++ mark_at granule step (told_of taken)) }
    ensures calls { OnOk result ((history : Recorded) (lines : List Line) → All (IsNamedStep history lines) steps.old.items
        → NamesAt lines step taken.call.cpu taken.call.number → IsTold history.events taken.call → All (IsNamedStep history lines) steps.new.items) }
{
    let is_changed = answer_touches(&taken.outcome, granule);
    let is_named = names(&taken.call.call.command.call(), granule);
    if is_changed || is_named {
        steps.push(GranuleStep {
            step,
            call: taken.call,
            is_changed,
        })?;
    }
    Ok(())
}
