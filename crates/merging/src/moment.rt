//! What a CPU does with a command.

use rmi_view::{CommandRef, ReplyRef};

/// A moment of a call, whose command or reply lies elsewhere.
#[derive(Clone, Copy)]
pub enum MomentRef<'a> {
    /// The command was called.
    Call(CommandRef<'a>),
    /// It took effect, and is to give this reply.
    Commit(ReplyRef<'a>),
    /// It returned.
    Return(ReplyRef<'a>),
}

/// A moment of a CPU, with the line of the text that says so.
#[derive(Clone, Copy)]
pub struct HappenedRef<'a> {
    pub line: u32,
    pub cpu: u8,
    pub moment: MomentRef<'a>,
}
