//! What a certificate claims.

use crate::reply::Reply;

/// One step of the claimed order: the call `number` of a CPU committed here.
#[derive(Drop)]
pub enum Line {
    /// A finished call, which gave the reply that the history records.
    Keep { cpu: u8, number: u32 },
    /// An unfinished call that took effect all the same, with the reply that it would have given.
    Unfinished { cpu: u8, number: u32, reply: Reply },
}
