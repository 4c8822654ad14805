//! Why a scenario isn't read.

ghost use Rattle.std.specs.Prelude.{◌≡◌};
ghost use Rattle.scenario.specs.declared.fault.ScenarioFault.TheVariants.{NoMemory};

use std::alloc::{AllocError, AllocFailed};
use thiserror::Error;

/// Why bytes aren't read as a scenario: the first cause that they have, in this order, or that memory was refused.
#[derive(Clone, Copy, Debug, PartialEq, Error)]
pub enum ScenarioFault {
    /// They aren't UTF-8, or no TOML document.
    #[error("no TOML document")]
    NoDocument,
    /// A key is missing, unknown, or holds a value of another kind.
    #[error("a key is missing, unknown or of another kind")]
    WrongKey,
    /// A number is out of its range, there isn't one program for each CPU, or there are too many commands.
    #[error("a number is out of range")]
    OutOfRange,
    /// A command can't be read.
    #[error("a command can't be read")]
    NoCommand,
    /// A turn can't be read, or there is no such CPU.
    #[error("a turn can't be read")]
    NoTurn,
    /// Memory was refused.
    #[error("no memory")]
    NoMemory,
}

impl From<AllocError> for ScenarioFault {
    ghost from_gives = { λ _ fault. fault ≡ NoMemory };

    fn from(_error: AllocError) -> ScenarioFault {
        ScenarioFault::NoMemory
    }
}

impl<T: Drop> From<AllocFailed<T>> for ScenarioFault {
    ghost from_gives = { λ _ fault. fault ≡ NoMemory };

    fn from(_error: AllocFailed<T>) -> ScenarioFault {
        ScenarioFault::NoMemory
    }
}
