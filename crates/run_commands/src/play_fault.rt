//! Why nothing, or not all, was printed of a scenario.

ghost use Rattle.std.specs.Prelude.{◌≡◌};
ghost use Rattle.run_commands.specs.declared.play_fault.PlayFault.TheVariants.{NoMemory, Write};
ghost use Rattle.run_commands.specs.Plays.{fault_of_read, fault_of_run, fault_of_scenario};

use devices::{ReadError, WriteError};
use scenario::ScenarioFault;
use std::alloc::AllocError;
use thiserror::Error;
use world_runs::RunFault;

/// What ended it. The first fault met ends the run.
#[derive(Clone, Copy, Debug, Error)]
pub enum PlayFault {
    #[error("the scenario can't be read")]
    Read,
    /// The bytes state no scenario, for this cause, which isn't refused memory.
    #[error("the bytes state no scenario")]
    Scenario(ScenarioFault),
    #[error("the run can't be written")]
    Write,
    #[error("no memory")]
    NoMemory,
    #[error("a thread can't be started")]
    Thread,
    /// The journal's entries of some CPU aren't its token's list.
    #[error("the journal and a CPU's list disagree")]
    Disagrees,
}

impl From<AllocError> for PlayFault {
    ghost from_gives = { λ _ fault. fault ≡ NoMemory };

    fn from(_error: AllocError) -> PlayFault {
        PlayFault::NoMemory
    }
}

impl From<ReadError> for PlayFault {
    ghost from_gives = { λ error fault. fault ≡ fault_of_read error };

    fn from(error: ReadError) -> PlayFault {
        match error {
            ReadError::Device => PlayFault::Read,
            ReadError::NoMemory => PlayFault::NoMemory,
        }
    }
}

impl From<ScenarioFault> for PlayFault {
    ghost from_gives = { λ refused fault. fault ≡ fault_of_scenario refused };

    fn from(refused: ScenarioFault) -> PlayFault {
        match refused {
            ScenarioFault::NoMemory => PlayFault::NoMemory,
            _ => PlayFault::Scenario(refused),
        }
    }
}

impl From<RunFault> for PlayFault {
    ghost from_gives = { λ broken fault. fault ≡ fault_of_run broken };

    fn from(broken: RunFault) -> PlayFault {
        match broken {
            RunFault::NoMemory => PlayFault::NoMemory,
            RunFault::Disagrees => PlayFault::Disagrees,
            RunFault::Thread => PlayFault::Thread,
        }
    }
}

impl From<WriteError> for PlayFault {
    ghost from_gives = { λ _ fault. fault ≡ Write };

    fn from(_error: WriteError) -> PlayFault {
        PlayFault::Write
    }
}
