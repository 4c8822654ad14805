//! What a CPU passes with its granules locked.

use rmm_spec::Command;

/// What each command passes once, between its last take and its commit: its granules are locked then, and the journal isn't.
/// A test holds a CPU up there.
pub trait Gate {
    fn pass(&self, cpu: u8, command: &Command);
}

/// A gate that holds nobody up.
#[derive(Clone, Copy)]
pub struct Open;

impl Gate for Open {
    fn pass(&self, _cpu: u8, _command: &Command) {}
}
