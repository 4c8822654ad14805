//! Why a command wasn't executed to its end.

use commit_tickets::{CommitFault, Done};
use thiserror::Error;

/// Why a command wasn't executed to its end. After each of them but the first the CPU executes nothing more.
#[derive(Debug, Drop, Error)]
pub enum Refused {
    /// The queue was full at the call: nothing was recorded, nothing ran, and the same command may be executed again.
    #[error("the queue was full at the call")]
    Full,
    /// Memory was refused to the commit: the call is open, and nothing ran.
    #[error("no memory")]
    NoMemory,
    /// The queue was full at the return: the command ran and stands in the journal, and its call is open.
    #[error("the queue was full at the return")]
    Unrecorded(Done),
    /// The CPU was stopped before: nothing was recorded, and nothing ran.
    #[error("the CPU is stopped")]
    Stopped,
    /// The journal's books don't give the reply that the locked granules give, or the journal has fewer entries than the token
    /// was told of: the call is open, and nothing ran.
    #[error("the granules and the journal disagree")]
    Disagrees,
}

impl Refused {
    ghost use Rattle.std.specs.Prelude.{◌≡◌};
    ghost use Rattle.monitor.specs.Executed.{refused_for};

    /// The refusal that a fault of the commit leads to.
    pub(crate) fn for_fault(fault: CommitFault) -> Refused
        ensures { result ≡ refused_for fault }
    {
        match fault {
            CommitFault::NoMemory => Refused::NoMemory,
            CommitFault::Disagrees => Refused::Disagrees,
        }
    }
}
