//! Runs of the world of turns, as a scenario has them, and what any run leaves as text: history, certificate and the verdict's line.
//! It promises that exactly those three texts are appended, with a verdict that is right of the two, or nothing; and that those of a world
//! are of the one to which the listed turns lead, and after them turns of all CPUs in a ring, up to the limit or until all stand still, so that
//! a scenario has one text (`runs_are_one`). Why a run breaks off, in turns or on threads, is one enum.
//! Nothing here waits. `monitor_runs` and `run_commands` depend on it.
#![tactic(auto)]

mod fault;
mod laws;
mod playing;
mod printing;
mod run;

pub use checker::Verdict;
pub use fault::RunFault;
pub use laws::runs_are_one;
pub use printing::print_run;
pub use run::run_text;
