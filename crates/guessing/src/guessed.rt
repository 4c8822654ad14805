//! The guess.

use crate::claims::Claim;
use crate::draft::Draft;
use crate::order::{Arranged, with_uses};
use crate::registers::Unread;
use crate::steps::others;
use crate::tries::Tries;
use history::History;
use std::alloc::{AllocError, Global};

/// An order that is guessed.
#[derive(Drop)]
pub struct GuessedOrder {
    /// The CPUs of its calls, one after another: of all calls that return, or of those up to the return that it doesn't explain.
    pub cpus: Vec<u8>,
    /// What those of its calls that don't return are claimed to have been answered.
    pub claims: Vec<Claim>,
    /// The place of that return.
    pub unexplained: Option<u32>,
    /// The first reading of a measurement, if any, that gave another value than in the order.
    pub unread: Option<Unread>,
}

/// The calls that are put in, event by event, up to the first return that isn't explained.
#[derive(Drop)]
pub(crate) struct DraftSoFar<'h> {
    pub(crate) draft: Draft<'h>,
    pub(crate) unexplained: Option<u32>,
}

/// Guesses an order of the history's calls.
pub fn guess<T: Tries>(
    alloc: Global,
    history: &History,
    tries: &mut T,
) -> Result<GuessedOrder, AllocError> {
    let DraftSoFar {
        mut draft,
        unexplained,
    } = drafted(alloc, history, history.len())?;
    draft.add_open_calls(history)?;
    let placed = others(alloc, draft.steps.as_slice())?;
    let Arranged { cpus, unread } = with_uses(alloc, history, placed, &draft.registers, tries)?;
    let Draft { claims, .. } = draft;
    Ok(GuessedOrder {
        cpus,
        claims,
        unexplained,
        unread,
    })
}

/// Puts the calls of the first events in, so many.
pub(crate) fn drafted<'h>(
    alloc: Global,
    history: &'h History,
    count: usize,
) -> Result<DraftSoFar<'h>, AllocError> {
    let mut draft = Draft::new(alloc, history, u32::MAX)?;
    let mut unexplained = None;
    let mut events = history.events();
    for place in 0..count {
        let Some(event) = events.next() else {
            break;
        };
        if !draft.take(alloc, history, place, event)? {
            unexplained = u32::try_from(place).ok();
            break;
        }
    }
    Ok(DraftSoFar { draft, unexplained })
}
