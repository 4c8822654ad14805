//! How often each condition of each command refused.

ghost use Rattle.std.specs.Prelude.{◌≡◌, length};
ghost use Rattle.run_steps.specs.Places.{place_count};

use crate::places::place_of;
use rmm_spec::{Condition, FunctionId};

/// Counts of the lines that were replayed, by their function and the condition that refused it, or none.
#[derive(Drop)]
pub struct ConditionCounts {
    pub replayed: u64,
    pub(crate) counts: Vec<u64>,
    ghost whole: { length counts.items ≡ place_count },
}

impl ConditionCounts {
    ghost use Rattle.run_steps.specs.Counts.{counts_at};

    /// How many lines call the function and are refused for the condition, or are accepted.
    pub fn count(&self, function: FunctionId, refused: Option<Condition>) -> u64
        ensures { result ≡ counts_at self.now function refused }
    {
        self.counts[place_of(function, refused)]
    }
}
