//! A command and a reply seen where their words lie: one borrowed view of each, from a line of text to the machine.
//! It promises that a view stands for one command or reply, `command_seen` and `reply_seen`, and copies none of its words.
//! A command of its own has room for ten words, and each move of it copies them all.
//! Nothing here takes memory, waits or fails.
//! Histories, the machine and the checker depend on it.
#![tactic(auto)]

mod caller;
mod command;
mod reply;
mod words;

pub use caller::{Caller, caller_of, misplacement};
pub use command::{CommandRef, copied_command};
pub use reply::{ReplyRef, copied_reply};
