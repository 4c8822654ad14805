//! A call that has to stand before calls that returned earlier.

use crate::calls::OpenCall;
use crate::claims::{Claim, put_claims};
use crate::draft::Draft;
use crate::steps::{Step, last_taken, takes, takes_all};
use history::History;
use spec_machine::Machine;
use std::alloc::{AllocError, Global};
use std::cmp::max;

/// How many calls are looked back at most.
const MOST: usize = 256;

impl<'h> Draft<'h> {
    /// Puts the CPU's call in before calls that were put in since it was made, at the last place where it is given its reply, if these are given
    /// theirs after it.
    pub(crate) fn place_earlier(
        &mut self,
        alloc: Global,
        history: &History,
        cpu: usize,
    ) -> Result<bool, AllocError> {
        let Some(call) = self.open.of(cpu).copied() else {
            return Ok(false);
        };
        let first = max(self.checkpoints.last_steps(), self.first_since(call.called));
        let Some(machine) = self.machine_after(alloc, history, first)? else {
            return Ok(false);
        };
        let Some(index) = self.index_since(alloc, history, &machine, first, &call)? else {
            return Ok(false);
        };
        let at = first.saturating_add(index);
        self.place_since(alloc, history, machine, first, at, &call)
    }

    // Before which of the steps after the first, the last of them, the call may be given its reply, where the machine is before these.
    fn index_since(
        &self,
        alloc: Global,
        history: &History,
        machine: &Machine,
        first: usize,
        call: &OpenCall<'h>,
    ) -> Result<Option<usize>, AllocError> {
        match self.steps.as_slice().get(first..) {
            Some(since) => last_taken(history, machine.copy()?, since, call.step(0), alloc),
            None => Ok(None),
        }
    }

    // Puts the call in before the step of that index, where the machine is after the first steps, if those after it are given their replies.
    fn place_since(
        &mut self,
        alloc: Global,
        history: &History,
        machine: Machine,
        first: usize,
        at: usize,
        call: &OpenCall<'h>,
    ) -> Result<bool, AllocError> {
        let Some(next) = self.steps.as_slice().get(at).copied() else {
            return Ok(false);
        };
        let mut machine = machine;
        if !self.takes_since(alloc, history, &mut machine, first, at, call)? {
            return Ok(false);
        }
        self.machine = machine;
        self.note(usize::from(call.cpu), at, next.at as usize)?;
        Ok(true)
    }

    // Whether the machine gives the steps after the first their replies, and the call its own before the step of that index, and carries them out.
    fn takes_since(
        &mut self,
        alloc: Global,
        history: &History,
        machine: &mut Machine,
        first: usize,
        at: usize,
        call: &OpenCall<'h>,
    ) -> Result<bool, AllocError> {
        let steps = self.steps.as_slice();
        let (Some(before), Some(after)) = (steps.get(first..at), steps.get(at..)) else {
            return Ok(false);
        };
        let mut claims = Vec::new(alloc);
        if !takes_between(history, machine, (before, after), call.step(0), &mut claims)? {
            return Ok(false);
        }
        put_claims(&mut self.claims, claims.as_slice())?;
        Ok(true)
    }

    // After which of the steps those come that were put in since the place.
    fn first_since(&self, place: u32) -> usize {
        let mut first = self.steps.len();
        for _step in 0..MOST {
            match self.steps.as_slice().get(..first) {
                Some([.., last]) if last.at >= place => first = first.saturating_sub(1),
                _ => return first,
            }
        }
        first
    }
}

// Whether the machine gives the steps of both parts their replies, and the call between them its own, and carries them out.
fn takes_between(
    history: &History,
    machine: &mut Machine,
    steps: (&[Step], &[Step]),
    call: Step,
    claims: &mut Vec<Claim>,
) -> Result<bool, AllocError> {
    let (before, after) = steps;
    Ok(
        takes_all(history, machine, before, claims)?
            && takes(history, machine, call, claims)?
            && takes_all(history, machine, after, claims)?,
    )
}
