//! The calls of kept orders as a tree, where what orders have in common stands once.

use guessing::{Claim, Placed};
use rmi_view::copied_reply;
use rmm_spec::{Line, Reply};
use std::alloc::{AllocError, Global};

/// How many steps up to one are looked at for what a call is claimed to have been answered.
const RECENT: usize = 16;

/// A call, what it is claimed to have been answered where it is open, and the step before it.
#[derive(Clone, Copy)]
struct Step {
    placed: Placed,
    // which of the claims it has, counted from 1; 0 where it returns
    claim: usize,
    before: usize,
}

/// The calls of an order, and what those that are open are claimed to have been answered.
#[derive(Drop)]
pub(crate) struct Steps {
    pub(crate) placed: Vec<Placed>,
    pub(crate) claims: Vec<Claim>,
}

impl Steps {
    /// The CPUs of the calls.
    pub(crate) fn cpus(&self, alloc: Global) -> Result<Vec<u8>, AllocError> {
        let mut cpus = Vec::with_capacity(alloc, self.placed.len())?;
        for placed in &self.placed {
            cpus.push(placed.cpu)?;
        }
        Ok(cpus)
    }
}

/// The last steps of orders lead to their first ones. A step is told by its number, counted from 1; 0 stands before the first. No clause speaks
/// of the calls: whoever takes them has a machine give every reply once more.
#[derive(Drop)]
pub(crate) struct Trail {
    pub(crate) alloc: Global,
    steps: Vec<Step>,
    claims: Vec<Claim>,
}

impl Trail {
    /// No step yet.
    pub(crate) fn new(alloc: Global) -> Self {
        Trail {
            alloc,
            steps: Vec::new(alloc),
            claims: Vec::new(alloc),
        }
    }

    /// Takes the call of a line after a step, put in at the place of an event, and returns the new step.
    pub(crate) fn push(
        &mut self,
        before: usize,
        line: &Line,
        at: usize,
    ) -> Result<usize, AllocError> {
        let (cpu, claim) = match line {
            Line::Keep { cpu, .. } => (*cpu, 0),
            Line::Unfinished { cpu, reply, .. } => {
                self.claims.push(Claim {
                    cpu: *cpu,
                    reply: copied_reply(reply),
                })?;
                (*cpu, self.claims.len())
            }
        };
        self.steps.push(Step {
            placed: Placed {
                cpu,
                at: u32::try_from(at).unwrap_or(u32::MAX),
            },
            claim,
            before,
        })?;
        Ok(self.steps.len())
    }

    /// The calls up to a step, in their order.
    pub(crate) fn up_to(&self, alloc: Global, last: usize) -> Result<Steps, AllocError> {
        let mut steps = Steps {
            placed: Vec::new(alloc),
            claims: Vec::new(alloc),
        };
        let mut at = last;
        for _step in 0..self.steps.len() {
            let Some(step) = self.step(at) else {
                break;
            };
            steps.placed.push(step.placed)?;
            self.take_claim(step.claim, &mut steps.claims)?;
            at = step.before;
        }
        steps.placed.reverse();
        Ok(steps)
    }

    /// What an open call of the CPU is claimed to have been answered, where it is one of the last calls up to a step.
    pub(crate) fn claim_of(&self, last: usize, cpu: u8) -> Option<&Reply> {
        let mut at = last;
        for _step in 0..RECENT {
            let step = self.step(at)?;
            if step.placed.cpu == cpu {
                let claim = self.claims.get(step.claim.checked_sub(1)?)?;
                return Some(&claim.reply);
            }
            at = step.before;
        }
        None
    }

    fn step(&self, number: usize) -> Option<Step> {
        self.steps.get(number.checked_sub(1)?).copied()
    }

    // Appends a claim, where there is one of that number.
    fn take_claim(&self, number: usize, claims: &mut Vec<Claim>) -> Result<(), AllocError> {
        let Some(index) = number.checked_sub(1) else {
            return Ok(());
        };
        let Some(Claim { cpu, reply }) = self.claims.get(index) else {
            return Ok(());
        };
        claims.push(Claim {
            cpu: *cpu,
            reply: copied_reply(reply),
        })?;
        Ok(())
    }
}
