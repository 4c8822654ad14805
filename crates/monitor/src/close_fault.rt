//! Why a run isn't closed.

ghost use Rattle.std.specs.Prelude.{◌≡◌};
ghost use Rattle.monitor.specs.declared.close_fault.CloseFault.TheVariants.{NoMemory};

use commit_tickets::Unlisted;
use std::alloc::AllocError;
use thiserror::Error;

/// Why a run gives neither history nor certificate. Nothing of it is left.
#[derive(Debug, Drop, Error)]
pub enum CloseFault {
    /// Memory was refused to the history or to the certificate.
    #[error("no memory")]
    NoMemory,
    /// The journal's commits of some CPU aren't what its token lists.
    #[error("the journal and the tokens disagree")]
    Disagrees(Unlisted),
}

impl From<AllocError> for CloseFault {
    ghost from_gives = { λ _ fault. fault ≡ NoMemory };

    fn from(_error: AllocError) -> CloseFault {
        CloseFault::NoMemory
    }
}
