//! Reports over the steps of a run: what happened to one granule, and how often each condition refused.
//! It promises that the lines of a certificate are replayed one after another, up to the first whose reply the machine doesn't give; that
//! of them exactly those are told whose change touches the granule or whose command names it; and that each count is that of the lines
//! which the specification answers so, with a line each. What a change doesn't touch it leaves as it was. Other texts are for people.
//! The program `rmmexplain` depends on it.
#![tactic(auto)]

mod condition_counts;
mod count_lines;
mod counting;
mod granule_history;
mod granule_text;
mod laws;
mod places;
mod replay;
mod touches;

pub use condition_counts::ConditionCounts;
pub use count_lines::append_counts;
pub use counting::count_conditions;
pub use granule_history::{GranuleHistory, GranuleStep, granule_steps};
pub use laws::{places_differ, untouched};
