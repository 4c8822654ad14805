//! The state before a step, as far as its command names it.

use crate::facts::EntryRead;
use arrayvec::ArrayVec;
use realm_desc::{PendingExit, RipasRequest};
use rmm_spec::{RealmState, Tag};

/// A granule that a command names, with its tag and the realm that it belongs to. Nothing is found where the word is no granule's
/// address.
#[derive(Clone, Copy, Default)]
pub struct GranuleBefore {
    pub granule: u64,
    pub tag: Option<Tag>,
    pub rd: Option<u64>,
}

/// A realm.
#[derive(Clone, Copy)]
pub struct RealmBefore {
    pub rd: u64,
    pub state: RealmState,
    pub width: u8,
    pub start_level: u8,
    pub vmid: u8,
    pub algo: u8,
    pub root: u64,
    pub next_index: u8,
}

/// A REC.
#[derive(Clone, Copy)]
pub struct RecBefore {
    pub rec: u64,
    pub rd: u64,
    pub index: u8,
    pub runnable: bool,
    /// The CPU that it runs on, where it runs.
    pub cpu: Option<u8>,
    pub request: Option<RipasRequest>,
    pub pending: Option<PendingExit>,
}

/// The entries on a walk, from the root's on.
#[derive(Drop)]
pub struct WalkBefore {
    pub ipa: u64,
    pub entries: ArrayVec<EntryRead, 4>,
}

/// What a command names, in the state before its step. The REC of a realm's call is the one that its CPU is inside, and the realm
/// the one that is named or the REC's.
#[derive(Drop)]
pub struct StateBefore {
    pub granules: ArrayVec<GranuleBefore, 4>,
    pub realm: Option<RealmBefore>,
    pub rec: Option<RecBefore>,
    pub walk: Option<WalkBefore>,
}
