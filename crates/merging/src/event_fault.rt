//! Why a text is no recording.

ghost use Rattle.std.specs.Prelude.{◌≡◌};
ghost use Rattle.merging.specs.declared.event_fault.EventsFault.TheVariants.{NoMemory};

use std::alloc::AllocError;
use thiserror::Error;

/// Why no table was made of a text.
#[derive(Clone, Copy, Debug, Error)]
pub enum EventsFault {
    /// The first line with which the text is no beginning of a recording, counted from 1.
    #[error("line {0} is bad")]
    BadLine(u64),
    /// The line has the stamp of one before it.
    #[error("line {0}: the stamp of an earlier line")]
    StampTwice(u64),
    /// Memory was refused for an event of the text.
    #[error("no memory")]
    NoMemory,
}

impl From<AllocError> for EventsFault {
    ghost from_gives = { λ _ e. e ≡ NoMemory };

    fn from(_error: AllocError) -> EventsFault {
        EventsFault::NoMemory
    }
}
