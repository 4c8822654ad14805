//! The arguments of the program `rmmcheck`, and what they ask for.
//! `request_given` accepts arguments exactly where `clap`'s own definition finds no fault in them, and returns what they ask for.
//! The command is one table of subcommands, in `specs/Words.antt`: a further one is a row there, with what it asks for.
//! Like `file_programs` it depends on `clap`, which is slow to prove; nothing is opened or printed.
//! `run_commands` depends on it.
#![tactic(auto)]

mod words;

pub use words::{Request, WordsFault, request_given};
