//! How much was done, and in what time.

use std::io;
use std::time::Duration;

/// So many events or commands, and how long they took.
#[derive(Clone, Copy)]
pub(crate) struct Timing {
    pub(crate) count: u64,
    pub(crate) time: Duration,
}

impl Timing {
    /// Nothing, in no time.
    pub(crate) fn none() -> Timing {
        Timing {
            count: 0,
            time: Duration::ZERO,
        }
    }

    /// This and the other, one after the other.
    pub(crate) fn and(self, other: Timing) -> Timing {
        Timing {
            count: self.count.wrapping_add(other.count),
            time: self.time.saturating_add(other.time),
        }
    }

    /// Prints the count and the nanoseconds.
    pub(crate) fn print(self, rt: &impl Print) -> io::Result<()> {
        println!(rt; "{} {}", self.count, self.time.as_nanos())
    }
}
