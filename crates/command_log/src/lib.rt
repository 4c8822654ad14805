//! Commands and what they were answered, listed in less memory than a vector of them, each with a mark of its caller's.
//! A command of its own and a reply of its own have room for ten words each, of which most have two or three: here the words of all stand
//! in one vector, and an entry tells where its own are.
//! It promises that entries stay as they were put in, and that room for one more is refused only where there is none.
//! The journals of worlds and of threads stand on it, and the tokens of CPUs.
#![tactic(auto)]

mod line;
mod log;

pub use line::Logged;
pub use log::CommandLog;
