//! Why a text is no history.

ghost use Rattle.std.specs.Prelude.{◌≡◌};
ghost use Rattle.history.specs.declared.fault.HistoryFault.TheVariants.{NoMemory};

use std::alloc::AllocError;
use thiserror::Error;

/// Why no history was read.
#[derive(Clone, Copy, Debug, Error)]
pub enum HistoryFault {
    /// The first line with which the text is no beginning of a history, counted from 1.
    #[error("line {0} is bad")]
    BadLine(u64),
    /// Memory was refused for an event of the text.
    #[error("no memory")]
    NoMemory,
}

impl From<AllocError> for HistoryFault {
    ghost from_gives = { λ _ e. e ≡ NoMemory };

    fn from(_error: AllocError) -> Self {
        HistoryFault::NoMemory
    }
}
