//! Guesses at orders of a history's first parts.

use crate::draft::Draft;
use crate::guessed::{DraftSoFar, drafted};
use crate::registers::Register;
use crate::solving::order_found;
use crate::tries::Tries;
use history::{EventRef, History};
use std::alloc::{AllocError, Global};
use std::cmp::min;

/// A history's first events with their calls put in, from which on longer first parts are gone through.
#[derive(Drop)]
pub struct FirstParts<'h> {
    history: &'h History,
    draft: Draft<'h>,
    // how many events they are
    from: usize,
    // whether each call that returns there is put in
    explained: bool,
    // of each measurement whether its calls have an order in which each reads what it read
    read: Vec<bool>,
}

impl<'h> FirstParts<'h> {
    /// Puts in the calls of the first events, so many. What the parts end with should come after each return of a call that is made there.
    pub fn new<T: Tries>(
        alloc: Global,
        history: &'h History,
        from: usize,
        tries: &mut T,
    ) -> Result<FirstParts<'h>, AllocError> {
        let DraftSoFar { draft, unexplained } = drafted(alloc, history, from)?;
        let read = which_read(alloc, history, draft.registers.all.as_slice(), tries)?;
        Ok(FirstParts {
            history,
            draft,
            from,
            explained: unexplained.is_none(),
            read,
        })
    }

    /// How many events up to the place are gone through for the part that ends there.
    pub fn events_up_to(&self, place: u32) -> u64 {
        (u64::from(place) + 1).saturating_sub(self.from as u64)
    }

    /// Whether an order of the calls of the first events, so many, is guessed.
    pub fn has_order<T: Tries>(
        &self,
        alloc: Global,
        count: usize,
        tries: &mut T,
    ) -> Result<bool, AllocError> {
        if !self.explained {
            return Ok(false);
        }
        let until = u32::try_from(count).unwrap_or(u32::MAX);
        let mut draft = self.draft.copy(alloc, until)?;
        if !self.goes_on(alloc, &mut draft, count)? {
            return Ok(false);
        }
        self.reads_all(alloc, &draft, tries)
    }

    // Whether the draft takes the events after the first ones, up to so many. Then the calls that are open there are added to their measurements.
    fn goes_on(
        &self,
        alloc: Global,
        draft: &mut Draft<'h>,
        count: usize,
    ) -> Result<bool, AllocError> {
        for place in self.from..min(count, self.history.len()) {
            let event = self.history.event(place);
            if !draft.take(alloc, self.history, place, EventRef::of(&event))? {
                return Ok(false);
            }
        }
        draft.add_open_calls(self.history)?;
        Ok(true)
    }

    // Whether the calls on each measurement have an order in which each reads what it read. Those of the first events were asked.
    fn reads_all<T: Tries>(
        &self,
        alloc: Global,
        draft: &Draft<'h>,
        tries: &mut T,
    ) -> Result<bool, AllocError> {
        for (index, register) in draft.registers.all.as_slice().iter().enumerate() {
            let known = match (self.draft.registers.all.get(index), self.read.get(index)) {
                (Some(before), Some(read)) if before.uses.len() == register.uses.len() => {
                    Some(*read)
                }
                _ => None,
            };
            let read = match known {
                Some(read) => read,
                None => is_read(alloc, self.history, register, tries)?,
            };
            if !read {
                return Ok(false);
            }
        }
        Ok(true)
    }
}

// Of each measurement whether its calls have an order in which each reads what it read.
fn which_read<T: Tries>(
    alloc: Global,
    history: &History,
    registers: &[Register],
    tries: &mut T,
) -> Result<Vec<bool>, AllocError> {
    let mut read = Vec::new(alloc);
    for register in registers {
        read.push(is_read(alloc, history, register, tries)?)?;
    }
    Ok(read)
}

// Whether a measurement's calls have an order in which each reads what it read.
fn is_read<T: Tries>(
    alloc: Global,
    history: &History,
    register: &Register,
    tries: &mut T,
) -> Result<bool, AllocError> {
    let found = order_found(alloc, history, register, tries)?;
    Ok(found.unread.is_none())
}
