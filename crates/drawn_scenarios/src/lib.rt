//! Scenarios and commands that are drawn from a seed, and programs of commands that are one realm's life.
//! They are drawn beside the specification machine, so that most commands would be accepted if no CPU kept another waiting.
//! No clause says what is drawn; the same seed gives the same on every machine and in every build.
//! What is drawn is a scenario, as `scenario` has it. Nothing here waits.
//! `rmmdraw` and the benchmarks depend on it.
#![tactic(auto)]

mod deep_emptying;
mod deep_lives;
mod deep_making;
mod deep_running;
mod deep_words;
mod dice;
mod draft;
mod drafting;
mod drawing;
mod edges;
mod lives;
mod pages;
mod plan;
mod schedule;
mod sharing;
mod words;

pub use deep_lives::{DEEP_SPAN, DeepLife};
pub use dice::Dice;
pub use draft::{Draft, scenario_of};
pub use drafting::{carry_out, drafted_command};
pub use drawing::Granules;
pub use edges::edged_command;
pub use lives::{LENGTH, Life, command};
pub use pages::Pages;
pub use plan::Plan;
pub use sharing::Sharing;
