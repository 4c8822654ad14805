//! What a failed comparison of a journal with tokens leaves.

ghost use Rattle.std.specs.Prelude.{◌≡◌};

use command_log::CommandLog;
use std::fmt;
use std::fmt::{Debug, Formatter, Write};
use std::snapshot::Snapshot;

/// That the entries of a journal aren't what tokens list. `Journal::compare` alone makes one, of the entries that it compared. It has
/// no bytes.
#[derive(Drop)]
pub struct Unlisted {
    pub(crate) entries: Snapshot<CommandLog<u8>>,
}

impl Unlisted {
    pub(crate) fn of(entries: &CommandLog<u8>) -> Unlisted
        ensures { result.entries.value ≡ entries.now }
    {
        Unlisted {
            entries: Snapshot::of(entries),
        }
    }
}

impl Debug for Unlisted {
    fn fmt<W: Write>(&self, f: &mut Formatter<W>) -> fmt::Result {
        f.write_str("Unlisted")
    }
}
