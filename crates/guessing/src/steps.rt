//! Calls that stand in an order, and a machine after them.

use crate::asked::{Asked, ENTRIES, gives};
use crate::calls::{command_at, is_never, reply_of};
use crate::claims::Claim;
use crate::order::Placed;
use command_rows::Sight;
use history::History;
use memory_map::{can_be_set, entry_number};
use rmi_view::ReplyRef;
use rmm_spec::{Accepted, Reply, Ripas, Stretch};
use spec_machine::Machine;
use std::alloc::{AllocError, Global};

/// A call of an order, with the places of its events and of the event at which it was put in.
#[derive(Clone, Copy)]
pub(crate) struct Step {
    pub(crate) cpu: u8,
    /// Whether it reads or extends an extensible measurement.
    pub(crate) is_measured: bool,
    /// The RIPAS that it sets, where a REC asked for it.
    pub(crate) sets: Option<Ripas>,
    pub(crate) called: u32,
    pub(crate) returned: u32,
    pub(crate) at: u32,
}

impl Step {
    // The call, as a machine is asked for it.
    #[inline(always)]
    fn asked(self, history: &History) -> Option<Asked<'_>> {
        let reply = if is_never(self.returned) {
            None
        } else {
            Some(reply_of(history, self.returned)?)
        };
        Some(Asked {
            cpu: self.cpu,
            command: command_at(history, self.called as usize)?,
            reply,
            is_measured: self.is_measured,
        })
    }
}

/// Whether the machine gives each step its reply, and carries them out. What is claimed of those that don't return is noted.
pub(crate) fn takes_all(
    history: &History,
    machine: &mut Machine,
    steps: &[Step],
    claims: &mut Vec<Claim>,
) -> Result<bool, AllocError> {
    for step in steps {
        if !takes(history, machine, *step, claims)? {
            return Ok(false);
        }
    }
    Ok(true)
}

/// Whether the machine gives the step its reply, and carries it out. What is claimed of one that doesn't return is noted.
pub(crate) fn takes(
    history: &History,
    machine: &mut Machine,
    step: Step,
    claims: &mut Vec<Claim>,
) -> Result<bool, AllocError> {
    match step.asked(history) {
        Some(asked) => gives(machine, asked, claims),
        None => Ok(false),
    }
}

/// The same, where the claims aren't kept.
pub(crate) fn takes_all_unclaimed(
    history: &History,
    machine: &mut Machine,
    steps: &[Step],
    alloc: Global,
) -> Result<bool, AllocError> {
    let mut unkept = Vec::new(alloc);
    takes_all(history, machine, steps, &mut unkept)
}

/// Before which of the steps, the last of them, the machine may give a call its reply, from where it is on.
pub(crate) fn last_taken(
    history: &History,
    machine: Machine,
    steps: &[Step],
    call: Step,
    alloc: Global,
) -> Result<Option<usize>, AllocError> {
    let mut machine = machine;
    let mut unkept = Vec::new(alloc);
    last_taken_by(history, &mut machine, steps, call, &mut unkept)
}

// The same, where the claims are noted.
fn last_taken_by(
    history: &History,
    machine: &mut Machine,
    steps: &[Step],
    call: Step,
    claims: &mut Vec<Claim>,
) -> Result<Option<usize>, AllocError> {
    let mut last = None;
    for (index, step) in steps.iter().enumerate() {
        if would_take(history, machine, call) {
            last = Some(index);
        }
        if !takes(history, machine, *step, claims)? {
            return Ok(last);
        }
    }
    Ok(last)
}

// Whether the machine may give the step its reply.
fn would_take(history: &History, machine: &Machine, step: Step) -> bool {
    let Some(asked) = step.asked(history) else {
        return false;
    };
    let outcome = machine.outcome_seen(asked.cpu, asked.command);
    let Some(reply) = asked.reply else {
        return outcome.is_ok();
    };
    match outcome {
        Err(refusal) => reply.is(&refusal.reply()),
        Ok(Accepted::Done { words, .. }) => asked.is_measured || reply.is(&Reply::Ok(words)),
        Ok(Accepted::Reaches(stretch)) => may_reach(machine, &stretch, reply),
    }
}

// Whether each entry of the stretch may be set up to the end that is replied.
fn may_reach(machine: &Machine, stretch: &Stretch, reply: ReplyRef<'_>) -> bool {
    let ReplyRef::Ok([end]) = reply else {
        return false;
    };
    let first = entry_number(stretch.level, stretch.base);
    let last = entry_number(stretch.level, *end);
    if last <= first || last - first > ENTRIES {
        return false;
    }
    for number in first..last {
        let entry = machine.entry_at(stretch.rd, stretch.level, number);
        if !can_be_set(stretch.purpose, entry) {
            return false;
        }
    }
    true
}

/// Puts a step in before one of the steps.
pub(crate) fn insert(steps: &mut Vec<Step>, index: usize, step: Step) -> Result<(), AllocError> {
    let mut moved = step;
    for at in index..steps.len() {
        let next = steps[at];
        steps[at] = moved;
        moved = next;
    }
    steps.push(moved)?;
    Ok(())
}

/// The steps on no measurement, by their CPUs.
pub(crate) fn others(alloc: Global, steps: &[Step]) -> Result<Vec<Placed>, AllocError> {
    let mut placed = Vec::with_capacity(alloc, steps.len())?;
    for step in steps {
        if !step.is_measured {
            placed.push(Placed {
                cpu: step.cpu,
                at: step.at,
            })?;
        }
    }
    Ok(placed)
}
