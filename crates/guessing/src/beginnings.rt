//! What may come after a reading of a measurement, the likeliest first.

use crate::calls::CPUS;
use crate::lanes::{Counts, Heads, Lanes};
use crate::odds::Odds;
use realm_desc::Rem;
use std::alloc::{AllocError, Global};
use std::cmp::Reverse;
use std::collections::BinaryHeap;

/// How many beginnings are kept at most.
const MOST: usize = 1 << 17;

/// Extensions that come after the last reading, one after another.
#[derive(Clone, Copy)]
pub(crate) struct Beginning {
    /// How many calls of each CPU stand before its end.
    pub(crate) counts: Counts,
    /// The measurement after them.
    pub(crate) value: Rem,
    odds: Odds,
    last: Option<Last>,
}

/// The place of a beginning's last extension, and the number of the beginning without it.
#[derive(Clone, Copy)]
struct Last {
    place: usize,
    before: usize,
}

/// The number of a beginning, and the CPU whose next call comes after it.
#[derive(Clone, Copy, PartialEq, Eq, PartialOrd, Ord)]
struct Untried {
    odds: Odds,
    before: usize,
    cpu: usize,
}

/// A beginning, and the CPU whose next call is to be tried after it.
#[derive(Clone, Copy)]
pub(crate) struct Longer {
    pub(crate) beginning: Beginning,
    pub(crate) cpu: usize,
    odds: Odds,
    before: usize,
}

/// The beginnings that were tried, and those that may be tried next.
#[derive(Drop)]
pub(crate) struct Beginnings {
    alloc: Global,
    tried: Vec<Beginning>,
    untried: BinaryHeap<Reverse<Untried>>,
}

impl Beginning {
    /// No extension, after so many calls of each CPU.
    pub(crate) fn empty(counts: Counts, value: Rem) -> Beginning {
        Beginning {
            counts,
            value,
            odds: Odds::NONE,
            last: None,
        }
    }
}

impl Longer {
    /// The beginning with the extension at the place, after which the measurement has that value.
    pub(crate) fn with(&self, place: usize, value: Rem) -> Beginning {
        let mut counts = self.beginning.counts;
        if let Some(count) = counts.get_mut(self.cpu) {
            *count = count.saturating_add(1);
        }
        let before = self.before;
        Beginning {
            counts,
            value,
            odds: self.odds,
            last: Some(Last { place, before }),
        }
    }
}

impl Beginnings {
    /// None was tried.
    pub(crate) fn new(alloc: Global) -> Beginnings {
        Beginnings {
            alloc,
            tried: Vec::new(alloc),
            untried: BinaryHeap::new(alloc),
        }
    }

    /// A reading was found, from which on others are tried.
    pub(crate) fn clear(&mut self) {
        self.tried.clear();
        self.untried.clear();
    }

    /// Takes the likeliest that wasn't tried, where there is one and no more were tried than may be kept.
    pub(crate) fn next(&mut self) -> Option<Longer> {
        if self.tried.len() >= MOST {
            return None;
        }
        let Reverse(Untried { odds, before, cpu }) = self.untried.pop()?;
        let beginning = self.tried.as_slice().get(before).copied()?;
        Some(Longer {
            beginning,
            cpu,
            odds,
            before,
        })
    }

    /// Adds one that was tried, after which these calls are the CPUs' next.
    pub(crate) fn add(
        &mut self,
        beginning: Beginning,
        heads: &Heads,
        lanes: &Lanes<'_>,
    ) -> Result<(), AllocError> {
        let before = self.tried.len();
        let so_far = beginning.odds;
        self.tried.push(beginning)?;
        for cpu in 0..CPUS {
            if let Some(odds) = lanes.odds(heads, cpu, so_far) {
                self.untried.push(Reverse(Untried { odds, before, cpu }))?;
            }
        }
        Ok(())
    }

    /// Appends the places of the beginning's extensions, in their order.
    pub(crate) fn append_places(
        &self,
        beginning: &Beginning,
        places: &mut Vec<usize>,
    ) -> Result<(), AllocError> {
        let mut backwards = Vec::new(self.alloc);
        let mut last = beginning.last;
        for _ in 0..=self.tried.len() {
            let Some(Last { place, before }) = last else {
                break;
            };
            backwards.push(place)?;
            last = match self.tried.as_slice().get(before) {
                Some(tried) => tried.last,
                None => None,
            };
        }
        for place in backwards.iter().rev() {
            places.push(*place)?;
        }
        Ok(())
    }
}
