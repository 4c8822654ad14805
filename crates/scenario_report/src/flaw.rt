//! What is at fault in a scenario.

use crate::key::{Key, Number};

/// What is at fault in a scenario's document.
#[derive(Clone, Copy)]
pub enum Flaw<'t> {
    /// A scenario has no such key.
    Unknown {
        key: &'t str,
    },
    /// The key has to be there.
    Missing {
        key: Key,
    },
    /// The key holds a value of another kind.
    Kind {
        key: Key,
    },
    /// The number is out of its range.
    Range {
        number: Number,
        stated: i64,
    },
    /// There isn't one program for each CPU.
    Programs {
        cpus: i64,
        programs: usize,
    },
    /// There are more commands than a history has room for.
    Commands,
    /// The text of that number, counted from 0, in the CPU's program is no command.
    Command {
        cpu: usize,
        number: usize,
        text: &'t str,
    },
    /// The text of that index among the turns is none of so many CPUs.
    Turn {
        index: usize,
        text: &'t str,
        cpus: u8,
    },
}
