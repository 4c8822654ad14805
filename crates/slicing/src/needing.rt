//! Which earlier calls a kept call needs, and where it needs none.

use crate::call_at::CallAt;
use crate::keeping::{Depth, Keeping};
use crate::kinds::is_hosts;
use crate::links::number_of;
use crate::plan::{NEVER, Source, Unused};
use crate::sources::unused_before;
use command_words::{Name, named};
use rmm_spec::{Call, Tag};
use std::alloc::AllocError;
use std::cmp::min;

/// How many calls of a CPU are looked at for one that was carried out inside of a REC.
const NEAR: u32 = 1 << 8;

impl<'h> Keeping<'h> {
    // A granule that the call needs in use was made so before, if by no other call that is kept, and what the last call names may be to be known.
    // A call inside of a REC follows one that entered it.
    pub(crate) fn look_before(&mut self, call: &CallAt<'_>) -> Result<(), AllocError> {
        let is_known_before = !matches!(self.depth, Depth::Shown) && call.place == self.last;
        'names: for name in named(&call.call).as_slice() {
            let in_use = !matches!(name.tag, Tag::Delegated | Tag::Undelegated);
            let is_first = self.plan.mark_of(name.granule).first >= call.place;
            if is_known_before {
                self.look_back(name.granule, call.place)?;
            } else if in_use && is_first {
                self.add_before(name.granule, call.place)?;
            }
        }
        if !is_hosts(&call.call) {
            self.add_previous(call)?;
        }
        self.add_inside(call)
    }

    // What the last call names is noted where calls left it unused that aren't kept, and else the latest that may have changed it is to be kept.
    fn look_back(&mut self, granule: u64, place: u32) -> Result<(), AllocError> {
        if matches!(self.depth, Depth::Left) {
            if let Some((unused, lent)) = unused_before(self.history, self.count, place, granule) {
                return self.note_unused(granule, unused, lent);
            }
        }
        self.add_before(granule, place)?;
        Ok(())
    }

    // Notes why a granule is unused, and lends it if need be.
    fn note_unused(&mut self, granule: u64, unused: Unused, lent: bool) -> Result<(), AllocError> {
        self.plan.first = min(self.plan.first, unused.begins());
        self.plan.sources.push(Source { granule, unused })?;
        let Some(mark) = self.plan.marks.get_mut(number_of(granule)) else {
            return Ok(());
        };
        mark.lending = if lent { Some(0) } else { None };
        if mark.first == NEVER && lent {
            self.granules.push(granule)?;
        }
        Ok(())
    }

    // The latest call that was made before a place and may have changed the granule is to be kept, if there is one.
    fn add_before(&mut self, granule: u64, place: u32) -> Result<bool, AllocError> {
        match self.window.before(granule, place)? {
            Some(before) => {
                self.pending.push(before)?;
                Ok(true)
            }
            None => Ok(false),
        }
    }

    // After a call that enters a REC, or is made inside of it, the next is to be kept too.
    fn add_inside(&mut self, call: &CallAt<'_>) -> Result<(), AllocError> {
        let stays = match &call.call {
            Call::RecEnter { .. } => call.is_done(),
            Call::Exit => false,
            other => !is_hosts(other),
        };
        if stays {
            self.add_next(call)?;
        }
        Ok(())
    }

    // The CPU's call before one is to be kept, but for those that were refused or only look.
    fn add_previous(&mut self, call: &CallAt<'_>) -> Result<(), AllocError> {
        for back in 1..NEAR {
            let Some(number) = call.number.checked_sub(back) else {
                return Ok(());
            };
            if self.adds(call.cpu, number)? {
                return Ok(());
            }
        }
        Ok(())
    }

    // So is that after one.
    fn add_next(&mut self, call: &CallAt<'_>) -> Result<(), AllocError> {
        for further in 1..NEAR {
            let number = call.number.saturating_add(further);
            if self.adds(call.cpu, number)? {
                return Ok(());
            }
        }
        Ok(())
    }

    // Whether there is no such call of the CPU, or it is to be kept now, since it wasn't refused and doesn't only look.
    fn adds(&mut self, cpu: u8, number: u32) -> Result<bool, AllocError> {
        let Some(places) = self.history.places_of(cpu, number) else {
            return Ok(true);
        };
        let Some(call) = self.window.call(places.called) else {
            return Ok(true);
        };
        if call.changes_nothing() {
            return Ok(false);
        }
        self.pending.push(places.called)?;
        Ok(true)
    }

    // Where a kept call doesn't know a granule that it names, an earlier one on that granule is to be kept.
    pub(crate) fn add_unknown(&mut self) -> Result<(), AllocError> {
        'kept: for index in 0..self.kept.len() {
            let Some(place) = self.kept.get(index).copied() else {
                return Ok(());
            };
            if let Some(call) = self.window.call(place) {
                self.add_for(&call)?;
            }
        }
        Ok(())
    }

    // The same for one call.
    fn add_for(&mut self, call: &CallAt<'_>) -> Result<(), AllocError> {
        'names: for name in named(&call.call).as_slice() {
            if self.knows(call, name) {
                continue 'names;
            }
            let added = self.add_before(name.granule, call.place)?;
            self.fails = self.fails || !added;
        }
        Ok(())
    }

    // Whether the call knows a granule that it names, as far as can be said before granules are lent.
    fn knows(&self, call: &CallAt<'_>, name: &Name) -> bool {
        let is_lent = self.plan.mark_of(name.granule).lending.is_some();
        let is_unused = match name.tag {
            Tag::Delegated => is_lent,
            Tag::Undelegated => !is_lent,
            _ => false,
        };
        if is_unused && call.shows_names() || self.plan.unused_of(name.granule).is_some() {
            return true;
        }
        match self.plan.mark_of(name.granule).known {
            Some(known) => self.back_at(known) < call.place,
            None => false,
        }
    }
}
