//! What the program `rmmcheck` does, as one call over any runtime: its files, its output and its exit status.
//! `run` has `rmmcheck_arguments` read its arguments, and `check_command` check two files; or it plays one, in turns (`play_turns`) or on threads
//! (`play_threads`).
//! It promises that a sink takes nothing before a run's text is whole, and that each fault has its cause, and its line and its status by one table;
//! that of refused memory is only that a source was refused it, gave a byte or was read to its end.
//! Which bytes a file holds is beyond any contract. The program `rmmcheck` depends on it.
#![tactic(auto)]

mod fault;
mod play;
mod play_fault;
mod program;
mod steps;

pub use check_command::{JudgeFault, judge};
pub use devices::Sink;
pub use play::{play_threads, play_turns};
pub use play_fault::PlayFault;
pub use program::run;
