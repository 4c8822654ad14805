//! Calls about one REC, which come in the order in which they came before.

use crate::calls::command_at;
use crate::draft::Draft;
use crate::nearness::rec_of;
use crate::precedence::{Parts, Precedence};
use crate::replay::is_a_look;
use crate::steps::Step;
use history::History;
use rmm_spec::FunctionId;
use std::cmp::min;

/// How many steps are looked back at most.
const MOST: usize = 256;

impl Draft<'_> {
    /// That the last step that changed the REC of a step before it comes before it still.
    pub(crate) fn rec_precedence(&self, history: &History, step: Step) -> Option<Precedence> {
        let rec = rec_of(command_at(history, step.called as usize)?)?;
        let before = self.steps.as_slice().get(..self.last_index(step.called))?;
        for others in 0..min(before.len(), MOST) {
            let (earlier, last) = before.split_at(
                before.len().checked_sub(others)?.checked_sub(1)?,
            );
            let last = *last.first()?;
            if changes(history, earlier, last, rec) {
                return Some(Precedence {
                    first: last.called,
                    second: step.called,
                });
            }
        }
        None
    }
}

// Whether a step after others changes the REC, by its name or as it leaves.
fn changes(history: &History, earlier: &[Step], step: Step, rec: u64) -> bool {
    let Some(command) = command_at(history, step.called as usize) else {
        return false;
    };
    if is_a_look(history, step) {
        return false;
    }
    let changed = match command.function {
        FunctionId::Exit => {
            let parts = Parts {
                early: earlier,
                late: &[],
            };
            rec_inside(history, step.cpu, parts)
        }
        _ => rec_of(command),
    };
    changed == Some(rec)
}

/// The REC that runs on the CPU after the steps.
pub(crate) fn rec_inside(history: &History, cpu: u8, steps: Parts<'_>) -> Option<u64> {
    for others in 0..steps.len() {
        let step = steps.from_end(others)?;
        if step.cpu != cpu {
            continue;
        }
        let command = command_at(history, step.called as usize)?;
        if matches!(command.function, FunctionId::RecEnter) {
            return command.words.first().copied();
        }
    }
    None
}
