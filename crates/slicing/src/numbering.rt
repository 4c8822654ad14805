//! The numbers of kept calls in a slice.

use crate::call_at::{CallAt, call_at};
use crate::entered::is_entered_after;
use crate::keeping::Keeping;
use crate::links::number_of;
use crate::plan::Plan;
use history::History;
use std::alloc::AllocError;

/// How far back calls are looked for that are open where the first kept call is made.
const FAR: u32 = 1 << 12;

/// What is counted of each CPU.
#[derive(Clone, Copy)]
struct Count {
    /// The number of its next call in the slice.
    next: u32,
    /// Whether it is inside of a REC there.
    inside: bool,
}

/// The plan with the numbers of the calls that are kept, and with the granules that are lent.
pub(crate) fn numbered(keeping: Keeping<'_>) -> Result<Option<Plan>, AllocError> {
    let mut keeping = keeping;
    if keeping.numbers_all()? {
        Ok(Some(keeping.plan))
    } else {
        Ok(None)
    }
}

impl Keeping<'_> {
    // Lends granules, and gives the kept calls their numbers. Whether each of these calls lies in the history.
    fn numbers_all(&mut self) -> Result<bool, AllocError> {
        self.plan.lend_all(&self.granules)?;
        let start = start_before(self.history, self.plan.first);
        self.plan.start(start, self.count)?;
        self.kept.sort_unstable();
        Ok(self.number_kept())
    }

    // Gives the kept calls their numbers, one after another. Whether each of them lies in the history.
    fn number_kept(&mut self) -> bool {
        let Ok(lent) = u32::try_from(self.plan.lent.len()) else {
            return false;
        };
        let mut counts = [Count {
            next: 0,
            inside: false,
        }; 8];
        counts[0].next = lent;
        'kept: for place in &self.kept {
            if self.count as usize > self.history.len() || *place >= self.count {
                return false;
            }
            if let Some(call) = call_at(self.history, self.count, *place) {
                self.plan.number(&mut counts, &call);
                self.plan
                    .enter(self.history, self.count, &self.keeps, &counts, &call);
            }
        }
        true
    }
}

/// A place from which on those calls were made that are open at a place, if not too far back.
fn start_before(history: &History, place: u32) -> u32 {
    let mut is_seen = [false; 8];
    let mut left = history.config().cpus();
    let mut start = place;
    'events: for back in 1..FAR {
        let at = place.saturating_sub(back);
        if left == 0 || at as usize >= history.len() {
            break;
        }
        start = at;
        let Some((cpu, _number)) = history.called_at(at as usize) else {
            continue 'events;
        };
        let Some(is_seen) = is_seen.get_mut(usize::from(cpu)) else {
            continue 'events;
        };
        if !*is_seen {
            left = left.saturating_sub(1);
        }
        *is_seen = true;
    }
    start
}

impl Plan {
    // Lends the granules that are noted to be lent.
    fn lend_all(&mut self, granules: &[u64]) -> Result<(), AllocError> {
        'granules: for granule in granules {
            let Some(mark) = self.marks.get_mut(number_of(*granule)) else {
                continue 'granules;
            };
            if mark.lending.is_none() {
                continue 'granules;
            }
            mark.lending = u32::try_from(self.lent.len()).ok();
            self.lent.push(*granule)?;
        }
        Ok(())
    }

    // No event from a place on has a number, up to so many.
    fn start(&mut self, from: u32, count: u32) -> Result<(), AllocError> {
        self.from = from;
        'places: for _place in from..count {
            self.numbers.push(None)?;
            self.entered.push(false)?;
        }
        Ok(())
    }

    // Gives the next kept call its number, by the places of its events.
    fn number(&mut self, counts: &mut [Count; 8], call: &CallAt<'_>) {
        let Some(of_cpu) = counts.get_mut(usize::from(call.cpu)) else {
            return;
        };
        let number = Some(of_cpu.next);
        of_cpu.next = of_cpu.next.saturating_add(1);
        let at = self.index_of(call.place);
        if let Some(entered) = self.entered.get_mut(at) {
            *entered = of_cpu.inside;
        }
        if let Some(called) = self.numbers.get_mut(at) {
            *called = number;
        }
        let back = self.index_of(call.back());
        if let Some(returned) = self.numbers.get_mut(back) {
            *returned = number;
        }
        of_cpu.inside = is_entered_after(self, call);
    }

    // After a call that leaves its CPU inside of a REC, the CPU's calls up to the next that is kept are made there.
    fn enter(
        &mut self,
        history: &History,
        count: u32,
        keeps: &[bool],
        counts: &[Count; 8],
        call: &CallAt<'_>,
    ) {
        if !counts
            .get(usize::from(call.cpu))
            .is_some_and(|of_cpu| of_cpu.inside)
        {
            return;
        }
        for further in 1..count {
            let number = call.number.saturating_add(further);
            let Some(places) = history.places_of(call.cpu, number) else {
                return;
            };
            let at = self.index_of(places.called);
            if let Some(entered) = self.entered.get_mut(at) {
                *entered = true;
            }
            let back = count.saturating_sub(places.called) as usize;
            if places.called >= count || keeps.get(back).copied().unwrap_or(true) {
                return;
            }
        }
    }

    // How far a place is from the first.
    fn index_of(&self, place: u32) -> usize {
        match place.checked_sub(self.from) {
            Some(index) => index as usize,
            None => usize::MAX,
        }
    }
}
