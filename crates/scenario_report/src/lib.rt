//! A report of a scenario file for people: what it runs, or its first fault and what was expected there.
//! It promises that the fault reported is the first that the bytes have, that a file is called good exactly where it states a
//! scenario, that a command or number reported as wrong stands in it and is wrong (`specs/Flaws.antt`), and that a report is appended whole
//! or not at all. Commands and turns are reported by name. Nothing here waits, and nothing is read but the bytes that are given.
//! The program `rmmexplain` depends on it.
#![tactic(auto)]

mod commands;
mod finding;
mod flaw;
mod flaw_text;
mod key;
mod keys;
mod numbers;
mod place;
mod reporting;
mod scenario_text;
mod turns;

pub use commands::wrong_command;
pub use flaw::Flaw;
pub use key::{Key, Number};
pub use numbers::{Numbers, wrong_number};
pub use reporting::report;
pub use scenario::ScenarioFault;
pub use scenario_text::ScenarioText;
