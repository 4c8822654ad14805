//! A call that is given its reply once other open calls are put in.

use crate::calls::{CPUS, is_never};
use crate::draft::Draft;
use crate::nearness::{Nearness, nearness_of, need_of};
use history::History;
use std::alloc::{AllocError, Global};

impl Draft<'_> {
    /// Puts in the CPU's call, after others that are open where it isn't given its reply without them: near ones before others.
    pub(crate) fn place_with_others(
        &mut self,
        alloc: Global,
        history: &History,
        cpu: usize,
        place: usize,
    ) -> Result<bool, AllocError> {
        if self.place_call(cpu, place)? {
            self.place_looks(cpu, place)?;
            return Ok(true);
        }
        if self.place_after(cpu, place, Nearness::Close)?
            || self.place_after(cpu, place, Nearness::Loose)?
        {
            return Ok(true);
        }
        if self.place_reordered(alloc, history, cpu, place)? {
            self.place_looks(cpu, place)?;
            return Ok(true);
        }
        self.place_after(cpu, place, Nearness::Apart)
    }

    // The same, after those that are as near as this, the one that returns next first. After each that is put in all are tried once more.
    fn place_after(
        &mut self,
        cpu: usize,
        place: usize,
        furthest: Nearness,
    ) -> Result<bool, AllocError> {
        let Some(own) = self.open.of(cpu).copied() else {
            return Ok(false);
        };
        let need = need_of(&self.machine, &own);
        let mut last = place;
        for _other in 0..CPUS * CPUS {
            let Some(call) = self.open.next_return(last) else {
                return Ok(false);
            };
            last = call.returned as usize;
            if call.is_placed
                || !nearness_of(&self.machine, &own, &need, call).is_within(furthest)
            {
                continue;
            }
            if is_never(call.returned) && matches!(furthest, Nearness::Apart) {
                return Ok(false);
            }
            let other = usize::from(call.cpu);
            if self.places_both(other, cpu, place)? {
                return Ok(true);
            }
            if !self.open.waits(other) {
                last = place;
            }
        }
        Ok(false)
    }

    // Puts in one CPU's call and then another's, where the machine gives them their replies.
    fn places_both(&mut self, first: usize, cpu: usize, place: usize) -> Result<bool, AllocError> {
        if !self.place_call(first, place)? {
            return Ok(false);
        }
        self.place_looks(first, place)?;
        if self.open.waits(cpu) && !self.place_call(cpu, place)? {
            return Ok(false);
        }
        self.place_looks(cpu, place)?;
        Ok(true)
    }
}
