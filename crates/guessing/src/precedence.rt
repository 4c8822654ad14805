//! Which calls have to come before which, so that a RIPAS is what was read.

use crate::ripas::{RipasLook, RipasWrite};
use crate::steps::Step;
use history::History;
use rmm_spec::Ripas;
use std::alloc::{AllocError, Global};
use std::cmp::min;

/// How many steps are looked back at most.
const MOST: usize = 1 << 14;

/// A call that has to come before another, by the places where they were made.
#[derive(Clone, Copy)]
pub(crate) struct Precedence {
    pub(crate) first: u32,
    pub(crate) second: u32,
}

/// A step that changes the RIPAS.
#[derive(Clone, Copy)]
struct Written {
    step: Step,
    destroys: bool,
}

/// The steps that change the RIPAS, the last first, with what has to come before what already.
#[derive(Drop)]
struct Writes<'k> {
    alloc: Global,
    look: RipasLook,
    known: &'k [Precedence],
    passed: Vec<Written>,
}

/// Two parts of an order, one after the other.
#[derive(Clone, Copy)]
pub(crate) struct Parts<'s> {
    pub(crate) early: &'s [Step],
    pub(crate) late: &'s [Step],
}

impl Parts<'_> {
    /// How many steps they have.
    pub(crate) fn len(&self) -> usize {
        self.early.len().saturating_add(self.late.len())
    }

    /// The step that so many others follow.
    pub(crate) fn from_end(&self, others: usize) -> Option<Step> {
        match others.checked_sub(self.late.len()) {
            Some(rest) => from_end(self.early, rest),
            None => from_end(self.late, others),
        }
    }
}

// The step that so many others follow.
fn from_end(steps: &[Step], others: usize) -> Option<Step> {
    let index = steps.len().checked_sub(others)?.checked_sub(1)?;
    steps.get(index).copied()
}

/// What has to come before what, beside what is known, so that a look after the steps reads what it read. A step that can have left that comes
/// before the look; each that changed it since comes before that step, or after the look. The last such step is taken, or none where the entry was
/// EMPTY at first. Empty where there is none.
pub(crate) fn precedences(
    alloc: Global,
    history: &History,
    look: RipasLook,
    steps: Parts<'_>,
    known: &[Precedence],
) -> Result<Vec<Precedence>, AllocError> {
    let mut writes = Writes {
        alloc,
        look,
        known,
        passed: Vec::new(alloc),
    };
    writes.found_in(history, steps)
}

/// That a step which stands after a look has to come before it, where the look may read what that step leaves.
pub(crate) fn later_precedence(
    history: &History,
    look: RipasLook,
    rest: &[Step],
    known: &[Precedence],
) -> Option<Precedence> {
    for step in rest {
        let precedence = Precedence {
            first: step.called,
            second: look.called,
        };
        if step.called == look.called || step.called >= look.returned {
            continue;
        }
        let may_follow = match look.write_of(history, *step) {
            Some(write) => look.may_follow(write),
            None => false,
        };
        if may_follow && !is_decided(precedence, known) {
            return Some(precedence);
        }
    }
    None
}

impl Writes<'_> {
    // What has to come before what, so that the look reads what one of the steps leaves, or what was there at first. Empty where that can't be.
    fn found_in(
        &mut self,
        history: &History,
        steps: Parts<'_>,
    ) -> Result<Vec<Precedence>, AllocError> {
        for others in 0..min(steps.len(), MOST) {
            let Some(step) = steps.from_end(others) else {
                break;
            };
            if let Some(write) = self.look.write_of(history, step) {
                let found = self.with_last(step, write)?;
                if !found.is_empty() {
                    return Ok(found);
                }
                self.pass(step, write)?;
            }
            if self.are_all_after(step) {
                return Ok(Vec::new(self.alloc));
            }
        }
        if steps.len() > MOST || !self.look.read.is(Ripas::Empty) {
            return Ok(Vec::new(self.alloc));
        }
        self.all_later()
    }

    // Passes a step that changes the RIPAS.
    fn pass(&mut self, step: Step, write: RipasWrite) -> Result<(), AllocError> {
        self.passed.push(Written {
            step,
            destroys: matches!(write, RipasWrite::Destroys),
        })?;
        Ok(())
    }

    // What has to come before what, so that the look reads what this step leaves, or what is left of it once the page is taken back.
    fn with_last(&self, step: Step, write: RipasWrite) -> Result<Vec<Precedence>, AllocError> {
        if self.look.may_follow(write) {
            let found = self.found(step, false)?;
            if !found.is_empty() {
                return Ok(found);
            }
        }
        match write {
            RipasWrite::Sets(ripas) if self.destroys() && self.look.read.is_left_of(ripas) => {
                self.found(step, true)
            }
            _ => Ok(Vec::new(self.alloc)),
        }
    }

    // Whether the page is taken back by one of those that were passed.
    fn destroys(&self) -> bool {
        self.passed.iter().any(|written| written.destroys)
    }

    // The same, where those that take the page back come between the step and the look, or don't. Empty where that can't be.
    fn found(&self, last: Step, between: bool) -> Result<Vec<Precedence>, AllocError> {
        let mut found = Vec::new(self.alloc);
        for written in self.passed.iter().rev() {
            let Some(precedence) = self.precedence(*written, last, between) else {
                return Ok(Vec::new(self.alloc));
            };
            if is_known(precedence.turned(), self.known) {
                return Ok(Vec::new(self.alloc));
            }
            if !is_known(precedence, self.known) {
                found.push(precedence)?;
            }
        }
        let precedence = Precedence {
            first: last.called,
            second: self.look.called,
        };
        if !is_decided(precedence, self.known) {
            found.push(precedence)?;
        }
        Ok(found)
    }

    // What has to come before what, so that all come after the look: it reads what was there at first. Empty where that can't be.
    fn all_later(&self) -> Result<Vec<Precedence>, AllocError> {
        let mut found = Vec::new(self.alloc);
        for written in self.passed.iter().rev() {
            let precedence = Precedence {
                first: self.look.called,
                second: written.step.called,
            };
            if self.look.called >= written.step.returned
                || is_known(precedence.turned(), self.known)
            {
                return Ok(Vec::new(self.alloc));
            }
            if !is_known(precedence, self.known) {
                found.push(precedence)?;
            }
        }
        Ok(found)
    }

    // Where a change that was passed comes: before the last one, after the look, or between them.
    fn precedence(&self, written: Written, last: Step, between: bool) -> Option<Precedence> {
        let passed = written.step;
        let look = self.look;
        let (first, second) = if between && written.destroys {
            (passed.called, look.called)
        } else if passed.called < last.returned {
            (passed.called, last.called)
        } else if look.called < passed.returned {
            (look.called, passed.called)
        } else {
            return None;
        };
        Some(Precedence { first, second })
    }

    // Whether one of those that were passed has to come after this step and all before it, and before the look.
    fn are_all_after(&self, step: Step) -> bool {
        self.passed.iter().any(|written| {
            !written.destroys
                && step.at <= written.step.called
                && written.step.returned <= self.look.called
        })
    }
}

impl Precedence {
    // The other way round.
    fn turned(self) -> Precedence {
        Precedence {
            first: self.second,
            second: self.first,
        }
    }
}

/// Whether it is one of those that are known, or the other way round.
pub(crate) fn is_decided(precedence: Precedence, known: &[Precedence]) -> bool {
    is_known(precedence, known) || is_known(precedence.turned(), known)
}

/// Whether it is one of those that are known.
pub(crate) fn is_known(precedence: Precedence, known: &[Precedence]) -> bool {
    known.iter().any(|one| one.first == precedence.first && one.second == precedence.second)
}
