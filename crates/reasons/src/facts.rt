//! What the condition that decided a refusal read of the state.

use crate::WordTest;
use realm_desc::{PendingExit, RipasRequest};
use rmm_spec::{RealmState, Tag};

/// What RTT_READ_ENTRY reports of an entry, as the words of its reply.
#[derive(Clone, Copy, Default)]
pub struct EntryRead {
    pub level: u64,
    pub state: u64,
    pub address: u64,
    pub ripas: u64,
}

/// What a condition read: a word of the command that isn't as it has to be, or one fact of the state. Addresses are in bytes; `rd` and `rec` are
/// those of a realm's descriptor and of a REC.
#[derive(Clone, Copy)]
pub enum Fact {
    /// Nothing: what it is about isn't there.
    Nothing,
    /// The word at the place among the command's, from 0 on, which isn't as it has to be.
    Word {
        index: u8,
        word: u64,
        asked: WordTest,
    },
    /// The CPU is inside the REC, or outside of RECs.
    Place {
        cpu: u8,
        rec: Option<u64>,
    },
    /// Why the REC inside which the CPU is waits to leave.
    Pending {
        rec: u64,
        pending: PendingExit,
    },
    /// A granule hasn't the tag. Nothing is found where the word is no granule's address.
    Tag {
        granule: u64,
        needed: Tag,
        found: Option<Tag>,
    },
    /// The realm has the VMID.
    Vmid {
        vmid: u64,
        rd: u64,
    },
    /// How far the realm has come.
    State {
        rd: u64,
        state: RealmState,
    },
    /// The index that the realm's next REC has.
    NextIndex {
        rd: u64,
        next_index: u8,
    },
    /// The realm's address space: how many bits its addresses have, and the level of its root.
    Space {
        rd: u64,
        width: u8,
        start_level: u8,
    },
    /// The REC is one of the realm.
    RecLeft {
        rd: u64,
        rec: u64,
    },
    /// The REC is one of this realm.
    Owner {
        rec: u64,
        rd: u64,
    },
    /// The REC runs on the CPU.
    Runs {
        rec: u64,
        cpu: u8,
    },
    /// The REC isn't runnable.
    Stopped {
        rec: u64,
    },
    /// What the REC asked of its host, if it asked.
    Request {
        rec: u64,
        request: Option<RipasRequest>,
    },
    /// The entry at which the walk for the address ends.
    Entry {
        rd: u64,
        ipa: u64,
        read: EntryRead,
    },
    /// An entry of the table that is to go, or of the root, with the first address that it covers: it keeps the table in use, or
    /// isn't as the table's first.
    InUse {
        rd: u64,
        ipa: u64,
        read: EntryRead,
    },
}
