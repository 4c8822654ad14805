//! What a row asks of a state.

use rmm_spec::{Removal, Tag};

/// What is asked of a word of the command, whatever the state.
#[derive(Clone, Copy)]
pub enum WordTest {
    AtMost(u64),
    Below(u64),
    /// From the first to the second.
    Between(u64, u64),
    /// A page begins there.
    Page,
    /// An entry of the level begins there; past level 3 one of that.
    Entry(u64),
    /// A realm's addresses can have so many bits.
    Width,
    /// The tables of a realm with so many bits begin at the level.
    RootOf(u64),
    /// It is below another word, which stands at this place.
    BelowWord { index: u8, word: u64 },
    /// It is another one than the word at this place.
    Apart { index: u8, word: u64 },
}

/// What is asked of a realm. Addresses are in bytes.
#[derive(Clone, Copy)]
pub enum RealmTest {
    /// It is NEW.
    New,
    /// It isn't NEW.
    Begun,
    /// It isn't SYSTEM_OFF.
    On,
    /// Its next REC has the index.
    NextIndex(u64),
    /// Its root is above the level.
    StartsAbove(u64),
    /// Its root is at the level or above it.
    StartsBy(u64),
    /// The address is one of its space.
    Within(u64),
    /// The address is in the protected half.
    Protected(u64),
    /// The address is in the other half.
    Unprotected(u64),
    /// The end is in the protected half or at its end.
    EndsProtected(u64),
}

/// What is asked of a REC.
#[derive(Clone, Copy)]
pub enum RecTest {
    /// It runs on no CPU.
    Ready,
    Runnable,
    /// It is one of the realm.
    OwnedBy(u64),
    /// It has a request.
    Requesting,
    /// Its request begins there.
    From(u64),
    /// Its request ends there or further on.
    By(u64),
}

/// The state of an entry.
#[derive(Clone, Copy)]
pub enum EntryKind {
    Unassigned,
    Assigned,
    UnassignedNs,
    AssignedNs,
    Table,
}

/// What is asked of where a walk ends.
#[derive(Clone, Copy)]
pub enum WalkTest {
    /// At the level up to which it goes.
    Reaches,
    Is(EntryKind),
    /// At no table.
    NoTable,
    /// At RIPAS RAM.
    Ram,
    /// At an entry that begins with the address.
    Begins(u64),
    /// At an entry that ends by the top, where it begins at the base.
    EndsBy { base: u64, top: u64 },
}

/// One test of a state.
#[derive(Clone, Copy)]
pub enum Test {
    /// Nothing of the state: the word at the place among the command's alone.
    OfWord {
        index: u8,
        word: u64,
        asked: WordTest,
    },
    /// The CPU is outside of RECs.
    Outside {
        cpu: u8,
    },
    /// The CPU is inside a REC.
    Inside {
        cpu: u8,
    },
    /// The REC has no pending exit.
    Idle {
        rec: u64,
    },
    /// The granule has the tag.
    Tagged {
        granule: u64,
        tag: Tag,
    },
    /// The version has the hash.
    Hash {
        algo: u64,
    },
    /// No realm has the VMID.
    VmidFree {
        vmid: u8,
    },
    OfRealm {
        rd: u64,
        asked: RealmTest,
    },
    OfRec {
        rec: u64,
        asked: RecTest,
    },
    /// Of the REC's realm.
    OfOwner {
        rec: u64,
        asked: RealmTest,
    },
    /// No REC is one of the realm.
    NoRec {
        rd: u64,
    },
    /// The realm has no table below its root.
    NoLink {
        rd: u64,
    },
    OfWalk {
        rd: u64,
        ipa: u64,
        level: u8,
        asked: WalkTest,
    },
    /// The table of the level for the address can be taken out.
    Removable {
        removal: Removal,
        rd: u64,
        ipa: u64,
        level: u8,
    },
}
