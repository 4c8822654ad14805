//! Judges what two devices give, or two files, and writes the verdict's line to a third, up to the exit status of a program.
//! `judge` reads the history to its end and then the certificate, and `check_sources` is the same for the files at two paths.
//! `run` takes two paths as its words, without `clap`, over which each crate is slow to prove; `ends_with` and `end_check` have the statuses.
//! It promises that a verdict is that of the bytes that were read, and that each fault has its cause, and its line and its status by one table.
//! The programs `check_only`, `rmmexplain` and `rmmfind` depend on it, and `run_commands` and `file_programs`.
#![tactic(auto)]

mod ending;
mod fault;
mod judgement;
mod program;
mod takers;

pub use ending::{Ending, ends_with};
pub use fault::{CheckFault, Fault, Paths};
pub use judgement::{JudgeFault, judge};
pub use program::{check_files, check_sources, end_check, opened, run, words_of};
