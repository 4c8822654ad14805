//! What a CPU is to execute.

use rmm_spec::Command;

/// A program, and after how many commands its CPU is stopped, if it is.
#[derive(Drop)]
pub(crate) struct Job {
    pub(crate) program: Vec<Command>,
    pub(crate) stop: Option<usize>,
}

impl Job {
    /// The program, in the middle of which the CPU is stopped where that is wished.
    pub(crate) fn new(program: Vec<Command>, is_stopped: bool) -> Job {
        let middle = program.len() / 2;
        let stop = if is_stopped { Some(middle) } else { None };
        Job { program, stop }
    }
}
