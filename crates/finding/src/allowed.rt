//! Tries that a search for the order of a measurement's calls is granted.

use crate::offers::Offers;
use crate::survey::FIRST;
use crate::watch::Watch;
use guessing::Tries;
use std::cmp::min;

/// How many tries are granted at once.
const GRANTED: u64 = 256;

/// So many tries at most, while the watch lets the search go on.
#[derive(Drop)]
pub(crate) struct Allowed<'w, W> {
    watch: &'w mut W,
    left: u64,
    granted: u64,
}

impl<'w, W> Allowed<'w, W> {
    /// So many may be granted.
    pub(crate) fn new(watch: &'w mut W, left: u64) -> Allowed<'w, W> {
        Allowed {
            watch,
            left,
            granted: 0,
        }
    }

    /// Counts those that were granted.
    pub(crate) fn count(&self, offers: &mut Offers) {
        offers.add(self.granted);
    }
}

impl<W: Watch> Tries for Allowed<'_, W> {
    fn more(&mut self) -> usize {
        let more = min(self.left, GRANTED);
        if more == 0 || !self.watch.goes_on(FIRST) {
            return 0;
        }
        self.left = self.left.saturating_sub(more);
        self.granted = self.granted.saturating_add(more);
        more as usize
    }
}
