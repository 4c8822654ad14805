//! Steps that are given their replies once more, in another order.

use crate::calls::{command_at, is_look, is_never, reply_of};
use crate::claims::Claim;
use crate::steps::{Step, insert, last_taken, takes, takes_all_unclaimed};
use history::History;
use spec_machine::Machine;
use std::alloc::{AllocError, Global};

/// The steps that were given their replies so far, with the machine before and after them.
#[derive(Drop)]
pub(crate) struct Replay {
    alloc: Global,
    start: Machine,
    pub(crate) machine: Machine,
    pub(crate) order: Vec<Step>,
    pub(crate) claims: Vec<Claim>,
    /// Calls that change nothing, and weren't given their replies where they stood.
    pub(crate) waiting: Vec<Step>,
}

/// A step that isn't given its reply, and how many steps were gone through before that showed.
#[derive(Clone, Copy)]
pub(crate) struct Stopped {
    pub(crate) step: Step,
    pub(crate) passed: usize,
}

/// Where a call stands that was given its reply.
#[derive(Clone, Copy)]
struct Standing {
    index: usize,
    at: u32,
}

impl Replay {
    /// No step yet.
    pub(crate) fn new(alloc: Global, start: Machine) -> Result<Replay, AllocError> {
        let machine = start.copy()?;
        Ok(Replay {
            alloc,
            start,
            machine,
            order: Vec::new(alloc),
            claims: Vec::new(alloc),
            waiting: Vec::new(alloc),
        })
    }

    /// Gives the steps up to an event their replies, one after another. A call that changes nothing may come earlier or later than it stands here, or
    /// wait where it returns after that event. Returned is the first step that isn't given its reply, where one isn't.
    pub(crate) fn take_all(
        &mut self,
        history: &History,
        steps: &[Step],
        until: u32,
    ) -> Result<Option<Stopped>, AllocError> {
        for (passed, step) in steps.iter().enumerate() {
            if let Some(step) = self.overdue(step.at) {
                return Ok(Some(Stopped { step, passed }));
            }
            if !self.take(history, *step)? {
                let step = *step;
                return Ok(Some(Stopped { step, passed }));
            }
        }
        match self.overdue(until) {
            Some(step) => Ok(Some(Stopped {
                step,
                passed: steps.len(),
            })),
            None => Ok(None),
        }
    }

    /// The machine after the steps.
    pub(crate) fn into_machine(self) -> Machine {
        self.machine
    }

    // A call that waits, and has returned by the place.
    fn overdue(&self, place: u32) -> Option<Step> {
        self.waiting
            .iter()
            .find(|step| step.returned <= place)
            .copied()
    }

    // Gives the step its reply, or has it wait.
    fn take(&mut self, history: &History, step: Step) -> Result<bool, AllocError> {
        let looks = is_a_look(history, step);
        match self.standing(history, step, looks)? {
            Some(Standing { index, at }) => {
                insert(&mut self.order, index, Step { at, ..step })?;
                if !looks {
                    self.take_waiting(history, step.at)?;
                }
                Ok(true)
            }
            None if looks => {
                self.waiting.push(step)?;
                Ok(true)
            }
            None => Ok(false),
        }
    }

    // Gives the step its reply at the end, or earlier where that is allowed, and returns where it stands. It isn't put in yet.
    fn standing(
        &mut self,
        history: &History,
        step: Step,
        may_be_earlier: bool,
    ) -> Result<Option<Standing>, AllocError> {
        if takes(history, &mut self.machine, step, &mut self.claims)? {
            return Ok(Some(Standing {
                index: self.order.len(),
                at: step.at,
            }));
        }
        if !may_be_earlier {
            return Ok(None);
        }
        self.earlier_standing(history, step)
    }

    // The last place among the steps at which the step may be given its reply, since it was made.
    fn earlier_standing(
        &self,
        history: &History,
        step: Step,
    ) -> Result<Option<Standing>, AllocError> {
        let Some(first) = self.order.iter().position(|other| other.at > step.called) else {
            return Ok(None);
        };
        let (before, since) = self.order.as_slice().split_at(first);
        let Some(index) = self.last_since(history, before, since, step)? else {
            return Ok(None);
        };
        let Some(next) = since.get(index) else {
            return Ok(None);
        };
        Ok(Some(Standing {
            index: first.saturating_add(index),
            at: next.at,
        }))
    }

    // Before which of the later steps, the last of them, the step may be given its reply.
    fn last_since(
        &self,
        history: &History,
        before: &[Step],
        since: &[Step],
        step: Step,
    ) -> Result<Option<usize>, AllocError> {
        let mut machine = self.start.copy()?;
        if takes_all_unclaimed(history, &mut machine, before, self.alloc)? {
            last_taken(history, machine, since, step, self.alloc)
        } else {
            Ok(None)
        }
    }

    // Gives those that wait their replies, where they are given them now.
    fn take_waiting(&mut self, history: &History, place: u32) -> Result<(), AllocError> {
        if self.waiting.is_empty() {
            return Ok(());
        }
        let mut left = Vec::new(self.alloc);
        for step in &self.waiting {
            if takes(history, &mut self.machine, *step, &mut self.claims)? {
                self.order.push(Step { at: place, ..*step })?;
            } else {
                left.push(*step)?;
            }
        }
        self.waiting = left;
        Ok(())
    }
}

/// Whether the step changes nothing.
pub(crate) fn is_a_look(history: &History, step: Step) -> bool {
    if is_never(step.returned) {
        return false;
    }
    match (
        command_at(history, step.called as usize),
        reply_of(history, step.returned),
    ) {
        (Some(command), Some(reply)) => is_look(command, reply),
        _ => false,
    }
}
