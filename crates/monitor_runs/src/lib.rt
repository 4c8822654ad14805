//! Runs of a monitor on threads, one for each CPU, and what they print.
//! It promises that the texts are those of a closed run: each CPU's calls are the first commands of its program, up to its end, to a commit
//! that was refused or to a full queue; and the certificate is the journal, a linearization of the history, so that the verdict is `yes`
//! with the count of its lines. A run that breaks off appends nothing. That a run ends, only tests show; what waits may wait for ever.
//! `run_commands` depends on it.
#![tactic(auto)]

mod cpu;
mod run;
mod working;

pub use run::threads_text;
pub use world_runs::{RunFault, Verdict};
