//! Machines after some of an order's steps, from which later steps are made once more.

use crate::draft::Draft;
use crate::steps::takes_all_unclaimed;
use history::History;
use spec_machine::Machine;
use std::alloc::{AllocError, Global};

/// How many are kept.
const KEPT: usize = 4;

/// How many steps lie at least between two that are kept, but for the last two.
const APART: usize = 1 << 10;

/// The machine after the first steps, so many.
#[derive(Drop)]
pub(crate) struct Checkpoint {
    pub(crate) steps: usize,
    pub(crate) machine: Machine,
}

/// The checkpoints of an order, by their steps.
#[derive(Drop)]
pub(crate) struct Checkpoints {
    alloc: Global,
    all: Vec<Checkpoint>,
}

impl Checkpoints {
    /// None yet.
    pub(crate) fn none(alloc: Global) -> Checkpoints {
        Checkpoints {
            alloc,
            all: Vec::new(alloc),
        }
    }

    /// The last one once more, where there is one.
    pub(crate) fn copy(&self) -> Result<Checkpoints, AllocError> {
        let mut all = Vec::new(self.alloc);
        if let Some(Checkpoint { steps, machine }) = self.all.last() {
            all.push(Checkpoint {
                steps: *steps,
                machine: machine.copy()?,
            })?;
        }
        Ok(Checkpoints {
            alloc: self.alloc,
            all,
        })
    }

    /// How many steps come before the last one.
    pub(crate) fn last_steps(&self) -> usize {
        match self.all.last() {
            Some(last) => last.steps,
            None => 0,
        }
    }

    // Drops those after more steps, and takes the last of the others. It is kept too where it lies far back.
    fn take(&mut self, steps: usize) -> Result<Option<Checkpoint>, AllocError> {
        self.all.retain(|checkpoint| checkpoint.steps <= steps);
        let Some(last) = self.all.pop() else {
            return Ok(None);
        };
        if steps.saturating_sub(last.steps) >= APART {
            self.keep(last.steps, &last.machine)?;
        }
        Ok(Some(last))
    }

    // Keeps a copy of the machine after the first steps, and at most so many machines.
    fn keep(&mut self, steps: usize, machine: &Machine) -> Result<(), AllocError> {
        let machine = machine.copy()?;
        if self.all.len() >= KEPT {
            self.all.remove(0);
        }
        self.all.push(Checkpoint { steps, machine })?;
        Ok(())
    }
}

impl Draft<'_> {
    /// The machine after the first steps, so many, with a checkpoint there.
    pub(crate) fn machine_after(
        &mut self,
        alloc: Global,
        history: &History,
        steps: usize,
    ) -> Result<Option<Machine>, AllocError> {
        let mut start = self.checkpoint_before(alloc, history, steps)?;
        if self.goes_on(alloc, history, &mut start, steps)? {
            Ok(Some(start.machine))
        } else {
            Ok(None)
        }
    }

    // Takes a checkpoint's machine on to where it is after the first steps, so many, with a checkpoint there. Whether it gets there.
    fn goes_on(
        &mut self,
        alloc: Global,
        history: &History,
        start: &mut Checkpoint,
        steps: usize,
    ) -> Result<bool, AllocError> {
        let Some(between) = self.steps.as_slice().get(start.steps..steps) else {
            return Ok(false);
        };
        if !takes_all_unclaimed(history, &mut start.machine, between, alloc)? {
            return Ok(false);
        }
        self.checkpoints.keep(steps, &start.machine)?;
        Ok(true)
    }

    // The last checkpoint after at most so many steps, or the machine before all steps where there is none.
    fn checkpoint_before(
        &mut self,
        alloc: Global,
        history: &History,
        steps: usize,
    ) -> Result<Checkpoint, AllocError> {
        match self.checkpoints.take(steps)? {
            Some(checkpoint) => Ok(checkpoint),
            None => Ok(Checkpoint {
                steps: 0,
                machine: Machine::new(alloc, history.config())?,
            }),
        }
    }
}
