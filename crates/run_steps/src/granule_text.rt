//! The steps of a granule, as lines.

use crate::granule_history::{GranuleHistory, GranuleStep};
use std::fmt;

impl fmt::Display for GranuleHistory {
    fn fmt<W: fmt::Write>(&self, f: &mut fmt::Formatter<W>) -> fmt::Result {
        let (granule, replayed, told) = (self.granule, self.replayed, self.steps.len());
        write!(f, "granule {granule:x}: {told} of {replayed} steps\n")?;
        for step in &self.steps {
            write!(f, "{step}")?;
        }
        Ok(())
    }
}

impl fmt::Display for GranuleStep {
    fn fmt<W: fmt::Write>(&self, f: &mut fmt::Formatter<W>) -> fmt::Result {
        let (step, call) = (self.step, &self.call);
        if self.is_changed {
            write!(f, "step {step} changes it: {call}")
        } else {
            write!(f, "step {step} names it: {call}")
        }
    }
}
