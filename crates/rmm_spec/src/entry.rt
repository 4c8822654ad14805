//! What a translation table says of one stretch of a realm's address space.

use crate::tag::Ripas;

/// One entry of a translation table (DEN0137, RTT entry): in the protected half one of the first two,
/// in the unprotected half one of the last two, and in either a link to the table of the next level.
#[derive(Clone, Copy, PartialEq)]
pub enum Entry {
    /// No granule, and what the realm was told of the stretch.
    Unassigned(Ripas),
    /// The data granule at this address.
    Assigned(Ripas, u64),
    /// The granule that holds the table of the next level.
    Table(u64),
    /// No page of the host.
    UnassignedNs,
    /// The host's page at this address.
    AssignedNs(u64),
}

/// What is looked for among the entries of a table.
#[derive(Clone, Copy)]
pub enum EntryTest {
    /// One that keeps its table in use.
    Live,
    /// A link to a table.
    Link,
    /// One that isn't unassigned as this one is.
    Unlike(Entry),
}
