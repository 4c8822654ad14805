//! Why a commit is refused.

ghost use Rattle.std.specs.Prelude.{◌≡◌};
ghost use Rattle.commit_tickets.specs.declared.fault.CommitFault.TheVariants.{NoMemory};

use std::alloc::AllocError;
use thiserror::Error;

/// Why nothing was committed. After either fault the journal, the token and what is held are as before, but that the token keeps
/// the fault.
#[derive(Clone, Copy, Debug, Error)]
pub enum CommitFault {
    /// Memory was refused: for the journal's or the token's list, or for a table that the command makes.
    #[error("no memory")]
    NoMemory,
    /// The books don't give the reply that the held cells give, or the journal has fewer entries than the token was told of.
    #[error("the journal disagrees with the held cells or the token")]
    Disagrees,
}

impl From<AllocError> for CommitFault {
    ghost from_gives = { λ _ fault. fault ≡ NoMemory };

    fn from(_error: AllocError) -> CommitFault {
        CommitFault::NoMemory
    }
}
