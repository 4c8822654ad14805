//! What a call is answered.

use arrayvec::ArrayVec;

/// The answer to a command.
#[derive(Debug, Drop, PartialEq)]
pub enum Reply {
    /// The command was carried out, and gives these words.
    Ok(ArrayVec<u64, 10>),
    /// A condition didn't hold, and nothing changed: a status and its index.
    Err(u8, u8),
    /// Such a command isn't given where the CPU is: inside of a REC, outside of one, or in one that waits to leave. Nothing changed.
    Misplaced,
}
