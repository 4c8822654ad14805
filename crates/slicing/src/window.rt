//! The calls from a place on, which goes back as far as it must.

use crate::call_at::{CallAt, call_at};
use crate::kinds::changeable;
use crate::links::{Link, Links};
use history::History;
use std::alloc::{AllocError, Global};
use std::cmp::min;

/// The calls from a place on among a history's first events.
#[derive(Drop)]
pub(crate) struct Window<'h> {
    history: &'h History,
    count: u32,
    from: u32,
    pub(crate) links: Links,
    /// The earliest call of each CPU, by its place.
    called: [Option<u32>; 8],
}

impl<'h> Window<'h> {
    /// No call of the first events, so many.
    pub(crate) fn new(
        alloc: Global,
        history: &'h History,
        count: u32,
    ) -> Result<Window<'h>, AllocError> {
        Ok(Window {
            history,
            count,
            from: min(count as usize, history.len()) as u32,
            links: Links::new(alloc, history.config().granules())?,
            called: [None; 8],
        })
    }

    /// The call that is made at a place.
    pub(crate) fn call(&self, place: u32) -> Option<CallAt<'h>> {
        let count = min(self.count as usize, self.history.len()) as u32;
        if place < count {
            call_at(self.history, count, place)
        } else {
            None
        }
    }

    /// Goes back until each CPU's latest call before a place is gone back to, if there is one.
    pub(crate) fn cover(&mut self, place: u32) -> Result<(), AllocError> {
        for _event in 0..self.from {
            if self.covers(place) || !self.go_back()? {
                return Ok(());
            }
        }
        Ok(())
    }

    // Whether each CPU's latest call before a place is gone back to.
    fn covers(&self, place: u32) -> bool {
        let cpus = usize::from(self.history.config().cpus());
        self.called.iter().take(cpus).all(|called| match called {
            Some(called) => *called < place,
            None => false,
        })
    }

    /// The granule's latest call before a place that may have changed it.
    pub(crate) fn before(&mut self, granule: u64, place: u32) -> Result<Option<u32>, AllocError> {
        let mut last = self.links.latest(granule);
        for _event in 0..self.from {
            if self.earlier(last, place).is_some() || !self.go_back()? {
                break;
            }
            if last.is_none() {
                last = self.links.latest(granule);
            }
        }
        Ok(self.earlier(last, place).map(|link| link.place))
    }

    // The first link from one on whose call was made before a place.
    fn earlier(&self, number: Option<u32>, place: u32) -> Option<Link> {
        let mut number = number;
        for _link in 0..8 {
            let link = self.links.link(number)?;
            if link.place < place {
                return Some(link);
            }
            number = link.before;
        }
        None
    }

    // Goes back by one event, unless that was the first.
    fn go_back(&mut self) -> Result<bool, AllocError> {
        if self.from == 0 {
            return Ok(false);
        }
        self.from -= 1;
        if let Some(call) = self.call(self.from) {
            self.note(&call)?;
        }
        Ok(true)
    }

    // Notes a call that is made before all others that are.
    fn note(&mut self, call: &CallAt<'_>) -> Result<(), AllocError> {
        if let Some(called) = self.called.get_mut(usize::from(call.cpu)) {
            *called = Some(call.place);
        }
        if call.changes_nothing() {
            return Ok(());
        }
        'names: for name in changeable(&call.call).as_slice() {
            self.links.push(name.granule, call.place)?;
        }
        Ok(())
    }
}
