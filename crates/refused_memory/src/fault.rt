//! Why nothing is printed.

use history::HistoryFault;
use monitor::CloseFault;
use rmi_codec::CodecFault;
use std::alloc::{AllocError, AllocFailed};
use thiserror::Error;

/// Why nothing is printed. Its `Display` is its line on standard error.
#[derive(Clone, Copy, Debug, Error)]
pub(crate) enum Fault {
    #[error("refused_memory: no memory")]
    NoMemory,
    #[error("refused_memory: no such row")]
    NoSuchRow,
    #[error("refused_memory: cannot write")]
    CannotWrite,
    /// A run that isn't as it is written down here.
    #[error("refused_memory: {0}")]
    Wrong(&'static str),
}

impl Fault {
    pub(crate) fn status(self) -> u8 {
        match self {
            Fault::NoMemory | Fault::CannotWrite => 3,
            Fault::NoSuchRow => 2,
            Fault::Wrong(_) => 1,
        }
    }
}

impl From<AllocError> for Fault {
    fn from(_error: AllocError) -> Fault {
        Fault::NoMemory
    }
}

impl<T: Drop> From<AllocFailed<T>> for Fault {
    fn from(_error: AllocFailed<T>) -> Fault {
        Fault::NoMemory
    }
}

impl From<CodecFault> for Fault {
    fn from(_fault: CodecFault) -> Fault {
        Fault::Wrong("a line that can't be read")
    }
}

impl From<HistoryFault> for Fault {
    fn from(fault: HistoryFault) -> Fault {
        match fault {
            HistoryFault::NoMemory => Fault::NoMemory,
            HistoryFault::BadLine(_) => Fault::Wrong("a history that can't be read"),
        }
    }
}

impl From<CloseFault> for Fault {
    fn from(fault: CloseFault) -> Fault {
        match fault {
            CloseFault::NoMemory => Fault::NoMemory,
            CloseFault::Disagrees(_) => Fault::Wrong("the journal and the tokens disagree"),
        }
    }
}
