//! A measurement's calls, by their CPUs.

use crate::calls::CPUS;
use crate::odds::{Odds, Open, odds_against};
use crate::registers::{NEVER, Use};
use std::alloc::{AllocError, Global};
use std::cmp::min;

/// How many calls of each CPU stand in an order.
pub(crate) type Counts = [u32; CPUS];

/// The first call of each CPU that doesn't stand in an order.
pub(crate) type Heads = [Option<Use>; CPUS];

/// The calls of each CPU, one after another.
#[derive(Drop)]
pub(crate) struct Lanes<'u> {
    uses: &'u [Use],
    // their places among the measurement's calls
    places: [Vec<usize>; CPUS],
    // how many events the history has
    end: u32,
}

impl<'u> Lanes<'u> {
    /// The calls of a history that has so many events.
    pub(crate) fn of(alloc: Global, uses: &'u [Use], end: u32) -> Result<Lanes<'u>, AllocError> {
        let mut places = std::array::from_fn(|_cpu| Vec::new(alloc));
        for (place, used) in uses.iter().enumerate() {
            if let Some(lane) = places.get_mut(usize::from(used.cpu)) {
                lane.push(place)?;
            }
        }
        Ok(Lanes { uses, places, end })
    }

    /// The place of the CPU's first call that doesn't stand in the order.
    pub(crate) fn next(&self, counts: &Counts, cpu: usize) -> Option<usize> {
        let count = counts.get(cpu)?;
        let lane = self.places.get(cpu)?;
        lane.as_slice().get(*count as usize).copied()
    }

    /// The CPUs' first calls that don't stand in the order.
    pub(crate) fn heads(&self, counts: &Counts) -> Heads {
        let mut heads = [None; CPUS];
        for cpu in 0..CPUS {
            if let Some(place) = self.next(counts, cpu) {
                heads[cpu] = self.uses.get(place).copied();
            }
        }
        heads
    }

    /// How unlikely the CPU's call comes next, where it is an extension that may, after others that are so unlikely.
    pub(crate) fn odds(&self, heads: &Heads, cpu: usize, before: Odds) -> Option<Odds> {
        let Some(Some(used)) = heads.get(cpu) else {
            return None;
        };
        let bound = min(first_return(heads), self.end);
        if !used.extends || used.called > bound {
            return None;
        }
        let own = Open::of(used, before.at, self.end);
        let mut against = before.against;
        let mut count = 0u32;
        for (other, head) in heads.iter().enumerate() {
            let Some(head) = head else {
                continue;
            };
            let open = Open::of(head, before.at, self.end);
            if open.is_before(bound) {
                count = count.saturating_add(1);
            }
            if other != cpu {
                against = against.saturating_add(odds_against(own, open));
            }
        }
        let at = own.first_of(count, bound);
        Some(Odds { against, at })
    }
}

/// The first return of the calls.
pub(crate) fn first_return(heads: &Heads) -> u32 {
    let mut first = NEVER;
    for head in heads {
        if let Some(head) = head {
            first = min(first, head.returned);
        }
    }
    first
}
