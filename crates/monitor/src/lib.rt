//! The monitor on running threads: what a CPU's thread calls for a command, and what a scribe makes of the run. Calls may wait.
//! It promises what each answer of `execute` leaves of the CPU's token and pass and of the cells that it held, that no granule stays locked
//! after it, and that a refused commit has its cause; that a drain appends what it took; and that a close gives each CPU's whole list as
//! history and the journal as certificate, which is a linearization of it, where a call comes after all that its token was told of.
//! `monitor_runs` and `bench` run their threads through it.
#![tactic(auto)]

mod close_fault;
mod closing;
mod executing;
mod gate;
mod journal_lines;
mod locked_journal;
mod monitor;
mod ordered;
mod queue;
mod refused;
mod soon;
mod told_order;

pub use certificate::Certificate;
pub use close_fault::CloseFault;
pub use commit_tickets::{CpuToken, Done, Site, meet};
pub use event_queue::{CpuPass, History, ScribePass, fit_a_history};
pub use gate::{Gate, Open};
pub use monitor::Monitor;
pub use queue::Queue;
pub use refused::Refused;
pub use told_order::{lines_stand_at_tickets, told_calls_come_first};
