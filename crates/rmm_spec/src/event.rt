//! What a history records.

use crate::command::Command;
use crate::reply::Reply;

/// A call or a return. `number` counts the calls of its CPU from 0.
#[derive(Drop)]
pub enum Event {
    Called {
        cpu: u8,
        number: u32,
        command: Command,
    },
    Returned {
        cpu: u8,
        number: u32,
        reply: Reply,
    },
}
