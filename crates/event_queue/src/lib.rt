//! Events of running CPUs, on their way through a bounded queue into a history, and the order in which their calls commit.
//! It promises that each CPU's events, drained and queued, are its pass's own list, under every schedule of the threads; and that once
//! all passes are back its part of the history is that whole list, and the commits are an order of the calls that keeps real time. A
//! refused push found the queue full; what a drain takes stands in the history, and memory is refused to it only where that has no room.
//! Calls here may wait for other threads and promise where they return. `monitor` and `monitor_runs` depend on it.
#![tactic(auto)]

mod book;
mod cpu_pass;
mod full;
mod order_pass;
mod recorder;
mod rest;
mod scribe_pass;

pub use cpu_pass::CpuPass;
pub use full::Full;
pub use history::History;
pub use order_pass::OrderPass;
pub use recorder::{MOST_QUEUED, Recorder};
pub use rest::fit_a_history;
pub use scribe_pass::ScribePass;
