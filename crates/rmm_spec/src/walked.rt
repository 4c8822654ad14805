//! Where a walk ends.

use crate::entry::Entry;

/// The end of a walk through a realm's translation tables (DEN0137, RTT walk): the level of the deepest table that covers the
/// address, the granule that it lies in, and its entry for the address.
#[derive(Clone, Copy)]
pub struct Walked {
    pub level: u8,
    pub granule: u64,
    pub entry: Entry,
}
