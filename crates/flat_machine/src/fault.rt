//! Why a step isn't taken.

use std::alloc::{AllocError, AllocFailed};
use thiserror::Error;

/// Memory was refused, or what a step needs isn't there, though every machine that took accepted steps alone has it.
#[derive(Debug, Drop, Error)]
pub enum FlatFault {
    #[error("no memory")]
    NoMemory,
    #[error("a record that a step needs isn't there")]
    Missing,
}

impl From<AllocError> for FlatFault {
    fn from(_error: AllocError) -> FlatFault {
        FlatFault::NoMemory
    }
}

impl<T: Drop> From<AllocFailed<T>> for FlatFault {
    fn from(_error: AllocFailed<T>) -> FlatFault {
        FlatFault::NoMemory
    }
}
