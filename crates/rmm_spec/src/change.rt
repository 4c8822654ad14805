//! What an accepted command changes, in words alone: what it makes of a record is read from the record that is there.

use crate::entry::Entry;
use crate::tag::{Ripas, Tag};

/// What becomes of a realm's record.
#[derive(Clone, Copy)]
pub enum RealmUpdate {
    /// It may run, and can't be built any further.
    Activated,
    /// None of its RECs may be entered again.
    TurnedOff,
    /// One REC more was made, and measured.
    RecCounted {
        mpidr: u8,
        flags: u64,
    },
    /// One page was measured. Its digest counts where the flags ask for it.
    PageMeasured {
        ipa: u64,
        flags: u64,
        digest: [u64; 4],
    },
    /// A stretch of its memory was measured.
    StretchMeasured {
        base: u64,
        top: u64,
    },
    /// One of its extensible measurements, counted from 1, was extended by the first bytes of the values.
    MeasurementExtended {
        index: u8,
        size: u8,
        values: [u64; 8],
    },
}

/// What becomes of a REC's record.
#[derive(Clone, Copy)]
pub enum RecUpdate {
    /// It runs on the CPU, and what it asked for is done with.
    Entered { cpu: u8 },
    /// It runs no longer, and nothing is pending.
    Exited,
    /// It asks its host for a RIPAS of the stretch from base up to top.
    RipasRequested { base: u64, top: u64, ripas: Ripas },
    /// It calls its host with a number.
    HostCalled { imm: u16 },
    /// It may not be entered again.
    TurnedOff,
    /// It leaves to its host because the whole realm is turned off.
    SystemTurnedOff,
    /// What it asked for is done up to this address.
    RequestMoved { base: u64 },
}

/// A realm's record, by the address of its descriptor, with what becomes of it.
#[derive(Clone, Copy)]
pub struct RealmChange {
    pub rd: u64,
    pub update: RealmUpdate,
}

/// A REC's record, by its address, with what becomes of it.
#[derive(Clone, Copy)]
pub struct RecChange {
    pub rec: u64,
    pub update: RecUpdate,
}

/// A granule that gets another tag.
#[derive(Clone, Copy)]
pub struct TagChange {
    pub granule: u64,
    pub tag: Tag,
}

/// What becomes of entries of one table that are no links, by the number of each at its level.
#[derive(Clone, Copy)]
pub enum EntryChange {
    /// One is replaced.
    Replaced { number: u64, entry: Entry },
    /// From the first up to but not the last each has this RIPAS.
    RipasSet { first: u64, last: u64, ripas: Ripas },
}

/// What an accepted command changes: one of ten kinds.
#[derive(Clone, Copy)]
pub enum Change {
    /// Nothing changes.
    Unchanged,
    /// A granule is lent or taken back.
    Retagged(TagChange),
    /// A realm is made, with its root.
    RealmMade {
        rd: u64,
        root: u64,
        width: u8,
        level: u8,
        vmid: u8,
        algo: u8,
    },
    /// A realm is gone, with its root.
    RealmDestroyed {
        rd: u64,
        root: u64,
    },
    /// A REC is made, with its auxiliary granules.
    RecMade {
        rd: u64,
        rec: u64,
        mpidr: u8,
        flags: u64,
        aux0: u64,
        aux1: u64,
    },
    /// A REC is gone, with its auxiliary granules.
    RecDestroyed {
        rec: u64,
        aux0: u64,
        aux1: u64,
    },
    /// Records of a realm and of a REC are replaced.
    RecordsChanged {
        realm: Option<RealmChange>,
        rec: Option<RecChange>,
    },
    /// A table is put in below an entry, of which each of its own is a copy.
    TableMade {
        rd: u64,
        level: u8,
        number: u64,
        rtt: u64,
        entry: Entry,
    },
    /// A table is taken out, and the entry above it becomes this one.
    TableDestroyed {
        rd: u64,
        level: u8,
        number: u64,
        rtt: u64,
        entry: Entry,
    },
    /// Entries of one table are changed, with a data granule's tag and with records.
    EntriesChanged {
        rd: u64,
        level: u8,
        entries: EntryChange,
        page: Option<TagChange>,
        realm: Option<RealmChange>,
        rec: Option<RecChange>,
    },
}
