//! Which calls may have changed a granule, the latest first.

use crate::plan::GRANULE;
use std::alloc::{AllocError, Global};

/// A call that may have changed a granule, and the one before it.
#[derive(Clone, Copy)]
pub(crate) struct Link {
    /// The place at which it was made.
    pub(crate) place: u32,
    pub(crate) before: Option<u32>,
}

/// The first and the last link of a granule, by their numbers.
#[derive(Clone, Copy)]
struct Ends {
    latest: Option<u32>,
    earliest: Option<u32>,
}

/// The calls that may have changed each granule.
#[derive(Drop)]
pub(crate) struct Links {
    links: Vec<Link>,
    /// By the granules' numbers.
    ends: Vec<Ends>,
}

impl Links {
    pub(crate) fn new(alloc: Global, granules: u64) -> Result<Links, AllocError> {
        let none = Ends {
            latest: None,
            earliest: None,
        };
        let ends = vec![in alloc; none; granules as usize]?;
        Ok(Links {
            links: Vec::new(alloc),
            ends,
        })
    }

    /// Links a call to a granule, before those that are linked to it.
    pub(crate) fn push(&mut self, granule: u64, place: u32) -> Result<(), AllocError> {
        let Ok(number) = u32::try_from(self.links.len()) else {
            return Ok(());
        };
        let Some(ends) = self.ends.get_mut(number_of(granule)) else {
            return Ok(());
        };
        if let Some(earliest) = ends.earliest {
            if let Some(link) = self.links.get_mut(earliest as usize) {
                link.before = Some(number);
            }
        }
        ends.earliest = Some(number);
        if ends.latest.is_none() {
            ends.latest = Some(number);
        }
        self.links.push(Link {
            place,
            before: None,
        })?;
        Ok(())
    }

    pub(crate) fn link(&self, number: Option<u32>) -> Option<Link> {
        self.links.get(number? as usize).copied()
    }

    /// The number of the granule's latest link that isn't gone through.
    pub(crate) fn latest(&self, granule: u64) -> Option<u32> {
        self.ends.get(number_of(granule))?.latest
    }

    /// The link and those after it are gone through.
    pub(crate) fn go_past(&mut self, granule: u64, link: Link) {
        if let Some(ends) = self.ends.get_mut(number_of(granule)) {
            ends.latest = link.before;
        }
    }
}

/// The number of the granule that begins at an address, or one that no granule has.
pub(crate) fn number_of(granule: u64) -> usize {
    if granule.is_multiple_of(GRANULE) {
        (granule / GRANULE) as usize
    } else {
        usize::MAX
    }
}
