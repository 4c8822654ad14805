//! Why no history and certificate were made, or not written whole.

ghost use Rattle.std.specs.Prelude.{◌≡◌};
ghost use Rattle.merging.specs.declared.fault.WriteFault.TheVariants.{NoMemory};

use std::alloc::AllocError;
use thiserror::Error;

/// Why a moment can't be next on its CPU.
#[derive(Clone, Copy, Debug, Error)]
pub enum Refusal {
    #[error("no such CPU")]
    NoSuchCpu,
    #[error("a later line of its CPU has an earlier stamp")]
    OutOfOrder,
    #[error("a call while another one of its CPU is open")]
    CallInCall,
    #[error("a commit outside of a call")]
    CommitOutside,
    #[error("a second commit of its call")]
    CommitTwice,
    #[error("a return outside of a call")]
    ReturnOutside,
    #[error("a return without a commit")]
    ReturnUncommitted,
    #[error("another reply than the one that was committed")]
    OtherReply,
    #[error("the history or the certificate has a million lines")]
    Full,
}

/// Why events were not merged.
#[derive(Clone, Copy, Debug, Error)]
pub enum MergeFault {
    /// No event has this stamp, and one has a later one.
    #[error("no event has the stamp {0}")]
    Hole(u32),
    /// The event of this line is refused.
    #[error("line {0}: {1}")]
    Refused(u32, Refusal),
}

/// Why both texts weren't written whole.
#[derive(Clone, Copy, Debug, Error)]
pub enum WriteFault {
    #[error("the history's output failed")]
    History,
    #[error("the certificate's output failed")]
    Certificate,
    #[error("no memory")]
    NoMemory,
}

impl From<AllocError> for WriteFault {
    ghost from_gives = { λ _ e. e ≡ NoMemory };

    fn from(_error: AllocError) -> WriteFault {
        WriteFault::NoMemory
    }
}
