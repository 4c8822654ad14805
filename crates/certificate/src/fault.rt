//! Why a certificate isn't read.

ghost use Rattle.std.specs.Prelude.{◌≡◌};
ghost use Rattle.certificate.specs.declared.fault.CertFault.TheVariants.{NoMemory};

use std::alloc::AllocError;
use thiserror::Error;

/// Why a text isn't read as a certificate.
#[derive(Clone, Copy, Debug, Error)]
pub enum CertFault {
    /// The first line with which the text is no beginning of a certificate, counted from 1.
    #[error("line {0} is bad")]
    BadLine(u64),
    /// Memory was refused for a line of the text.
    #[error("no memory")]
    NoMemory,
}

impl From<AllocError> for CertFault {
    ghost from_gives = { λ _ e. e ≡ NoMemory };

    fn from(_error: AllocError) -> CertFault {
        CertFault::NoMemory
    }
}
