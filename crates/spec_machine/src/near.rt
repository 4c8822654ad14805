//! Where tables were found before.

ghost use Rattle.std.specs.Prelude.{◌<◌};

use memory_map::GRANULE_BYTES;
use std::alloc::{AllocError, Global};

/// How many granules are kept.
const SLOTS: usize = 256;

/// The numbers of granules are below this.
const NUMBERS: u64 = 1 << 32;

/// Granules in which tables were found, each by what was looked for. What lies in one may have changed since, so who takes a granule
/// from here looks at it.
#[derive(Drop)]
pub(crate) struct Near {
    // by their numbers, on the heap since the machine is moved
    granules: Box<[u32; SLOTS]>,
}

impl Near {
    /// Nothing was found yet.
    pub(crate) fn new(alloc: Global) -> Result<Near, AllocError> {
        match Box::new(alloc, [0; SLOTS]) {
            Ok(granules) => Ok(Near { granules }),
            Err(_) => Err(AllocError),
        }
    }

    /// Where the realm's table of that number at the level may lie.
    pub(crate) fn granule(&self, rd: u64, level: u8, number: u64) -> u64 {
        u64::from(self.granules[slot(rd, level, number)]) * GRANULE_BYTES
    }

    /// The realm's table of that number at the level was found, where a granule is given.
    pub(crate) fn keep(&mut self, rd: u64, level: u8, number: u64, granule: Option<u64>) {
        if let Some(granule) = granule {
            let kept = granule / GRANULE_BYTES % NUMBERS;
            self.granules[slot(rd, level, number)] = kept as u32;
        }
    }
}

// Where it is kept in which granule such a table lies: tables of one realm, and the same of two realms, mostly have slots of their own.
fn slot(rd: u64, level: u8, number: u64) -> usize
    ensures { result < 256 }
{
    let key = rd ^ number ^ (u64::from(level) << 40);
    (key.wrapping_mul(0x9e37_79b9_7f4a_7c15) >> 40) as usize % SLOTS
}
