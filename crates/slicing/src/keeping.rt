//! Which calls a slice keeps: the one that returns last, and those on which it depends.
//! A granule that the first of them needs as an unused one is taken for unused up to there, whatever was done with it before.

use crate::call_at::CallAt;
use crate::kinds::changeable;
use crate::links::number_of;
use crate::numbering::numbered;
use crate::plan::{NEVER, Plan};
use crate::window::Window;
use command_words::Name;
use history::History;
use rmm_spec::{Event, Reply, Tag};
use std::alloc::{AllocError, Global};
use std::cmp::min;

/// How often calls are added, since others change the same granules at the same time as the first of those that are kept.
const ROUNDS: u32 = 64;

/// How many calls on a granule are looked at that were made before the first that is kept, and may return after that one was made.
const OVERLAPS: u32 = 8;

/// How many calls a slice keeps at most.
const MOST: usize = 1 << 12;

/// How a slice comes to know what its last call names.
#[derive(Clone, Copy)]
pub enum Depth {
    /// By the call's reply, where that shows it.
    Shown,
    /// By earlier calls: those that made it so are kept, but for what others left unused.
    Left,
    /// By earlier calls that made it so, which are kept.
    Made,
}

/// A plan that is being made.
#[derive(Drop)]
pub(crate) struct Keeping<'h> {
    pub(crate) history: &'h History,
    pub(crate) count: u32,
    pub(crate) window: Window<'h>,
    pub(crate) plan: Plan,
    /// The place of the call that returns last.
    pub(crate) last: u32,
    pub(crate) depth: Depth,
    /// The places of the kept calls.
    pub(crate) kept: Vec<u32>,
    /// Whether the call that is made at a place is kept, by how far the place is back from the last event.
    pub(crate) keeps: Vec<bool>,
    /// The places of calls that are to be kept.
    pub(crate) pending: Vec<u32>,
    /// The granules that kept calls may change.
    pub(crate) granules: Vec<u64>,
    /// Whether a call was to be kept that can't be.
    pub(crate) fails: bool,
}

/// The plan for the last of the first events, so many, where there is one.
pub(crate) fn plan_for(
    alloc: Global,
    history: &History,
    count: u32,
    depth: Depth,
) -> Result<Option<Plan>, AllocError> {
    let Some(last) = last_call(history, count, depth) else {
        return Ok(None);
    };
    let mut keeping = Keeping::new(alloc, history, count, last, depth)?;
    if keeping.keeps_all()? {
        numbered(keeping)
    } else {
        Ok(None)
    }
}

/// The place of the call that returns last of the first events, if the last is a return, and its reply is of use.
fn last_call(history: &History, count: u32, depth: Depth) -> Option<u32> {
    let last = count.checked_sub(1)?;
    if last as usize >= history.len() {
        return None;
    }
    let Event::Returned { cpu, number, reply } = history.event(last as usize) else {
        return None;
    };
    match depth {
        Depth::Shown if !shows_more(&reply) => None,
        _ => Some(history.places_of(cpu, number)?.called),
    }
}

/// Whether the reply shows what the call names, and something else.
fn shows_more(reply: &Reply) -> bool {
    match reply {
        Reply::Ok(words) => !words.is_empty(),
        Reply::Err(status, _) => *status != 1,
        Reply::Misplaced => false,
    }
}

impl<'h> Keeping<'h> {
    fn new(
        alloc: Global,
        history: &'h History,
        count: u32,
        last: u32,
        depth: Depth,
    ) -> Result<Keeping<'h>, AllocError> {
        let mut pending = Vec::new(alloc);
        pending.push(last)?;
        Ok(Keeping {
            history,
            count,
            window: Window::new(alloc, history, count)?,
            plan: Plan::new(alloc, history.config().granules())?,
            last,
            depth,
            kept: Vec::new(alloc),
            keeps: Vec::new(alloc),
            pending,
            granules: Vec::new(alloc),
            fails: false,
        })
    }

    // Keeps the calls that are to be kept, round by round, until there are no others. Whether all could be kept.
    fn keeps_all(&mut self) -> Result<bool, AllocError> {
        'rounds: for _round in 0..ROUNDS {
            self.keep_pending()?;
            if self.fails || self.kept.len() > MOST {
                return Ok(false);
            }
            self.add_unknown()?;
            if self.pending.is_empty() {
                return Ok(true);
            }
        }
        Ok(false)
    }

    // Keeps the calls that are to be kept, and those that must be then.
    fn keep_pending(&mut self) -> Result<(), AllocError> {
        'pending: for _event in 0..self.history.len() {
            if self.kept.len() > MOST {
                return Ok(());
            }
            let Some(place) = self.pending.pop() else {
                return Ok(());
            };
            self.keep(place)?;
        }
        Ok(())
    }

    // Keeps the call that is made at a place.
    fn keep(&mut self, place: u32) -> Result<(), AllocError> {
        self.window.cover(place)?;
        let Some(call) = self.window.call(place) else {
            return Ok(());
        };
        if self.is_marked(place)? {
            return Ok(());
        }
        self.plan.first = min(self.plan.first, place);
        self.kept.push(place)?;
        'names: for name in changeable(&call.call).as_slice() {
            self.change(&call, name)?;
        }
        self.look_before(&call)
    }

    // Whether the call at a place is kept already. Now it is.
    fn is_marked(&mut self, place: u32) -> Result<bool, AllocError> {
        let back = self.back_to(place);
        'events: for _event in self.keeps.len()..back.saturating_add(1) {
            self.keeps.push(false)?;
        }
        let Some(keeps) = self.keeps.get_mut(back) else {
            return Ok(true);
        };
        let was = *keeps;
        *keeps = true;
        Ok(was)
    }

    // How far a place is back from the last event.
    fn back_to(&self, place: u32) -> usize {
        self.count.saturating_sub(place) as usize
    }

    // A kept call may change a granule: those that did so at the same time or after it are to be kept.
    fn change(&mut self, call: &CallAt<'_>, name: &Name) -> Result<(), AllocError> {
        let known = self.earlier(self.plan.mark_of(name.granule).known, call);
        let Some(mark) = self.plan.marks.get_mut(number_of(name.granule)) else {
            return Ok(());
        };
        let old = mark.first;
        mark.known = known;
        if old <= call.place {
            return Ok(());
        }
        mark.first = call.place;
        mark.lending = match name.tag {
            Tag::Delegated => Some(0),
            _ => None,
        };
        if old == NEVER {
            self.granules.push(name.granule)?;
        }
        self.reach(name.granule, call.place)?;
        self.overlap(name.granule, call.place)
    }

    // The one of two kept calls that returns first, by the places at which they were made.
    fn earlier(&self, known: Option<u32>, call: &CallAt<'_>) -> Option<u32> {
        match known {
            Some(place) if self.back_at(place) <= call.back() => Some(place),
            _ => Some(call.place),
        }
    }

    // The place at which the call returns that is made at a place, or one after each of a history.
    pub(crate) fn back_at(&self, place: u32) -> u32 {
        match self.window.call(place) {
            Some(call) => call.back(),
            None => NEVER,
        }
    }

    // The granule's calls that were made from a place on are to be kept.
    fn reach(&mut self, granule: u64, place: u32) -> Result<(), AllocError> {
        'links: for _event in 0..self.history.len() {
            let Some(link) = self.window.links.link(self.window.links.latest(granule)) else {
                return Ok(());
            };
            if link.place < place {
                return Ok(());
            }
            self.pending.push(link.place)?;
            self.window.links.go_past(granule, link);
        }
        Ok(())
    }

    // So are those that were made before it, and return after it if at all.
    fn overlap(&mut self, granule: u64, place: u32) -> Result<(), AllocError> {
        let mut number = self.window.links.latest(granule);
        'links: for _link in 0..OVERLAPS {
            let Some(link) = self.window.links.link(number) else {
                return Ok(());
            };
            if self.back_at(link.place) >= place {
                self.pending.push(link.place)?;
            }
            number = link.before;
        }
        Ok(())
    }
}
