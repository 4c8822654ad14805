//! Calls that are open while another returns.

use crate::done::Done;

/// The open call of a CPU: what it does to a register, and the place of its return, where it returns.
#[derive(Clone, Copy)]
pub(crate) struct OpenCall {
    pub(crate) cpu: u8,
    pub(crate) done: Done,
    pub(crate) returned: Option<u32>,
}
