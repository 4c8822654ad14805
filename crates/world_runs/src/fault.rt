//! Why a run broke off.

ghost use Rattle.std.specs.Prelude.{◌≡◌};
ghost use Rattle.world_runs.specs.declared.fault.RunFault.TheVariants.{NoMemory, Thread};

use std::alloc::AllocError;
use std::thread::SpawnError;
use thiserror::Error;

/// Why a run printed nothing.
#[derive(Clone, Copy, Debug, Error)]
pub enum RunFault {
    #[error("no memory")]
    NoMemory,
    /// The journal's entries of some CPU aren't its token's list.
    #[error("the journal and a CPU's list disagree")]
    Disagrees,
    #[error("a thread can't be started")]
    Thread,
}

impl From<AllocError> for RunFault {
    ghost from_gives = { λ _ fault. fault ≡ NoMemory };

    fn from(_error: AllocError) -> RunFault {
        RunFault::NoMemory
    }
}

impl<F: Drop> From<SpawnError<F>> for RunFault {
    ghost from_gives = { λ _ fault. fault ≡ Thread };

    fn from(_refused: SpawnError<F>) -> RunFault {
        RunFault::Thread
    }
}
