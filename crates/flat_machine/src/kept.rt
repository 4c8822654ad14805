//! What is kept of a granule, and where a table or an entry is kept.

ghost use Rattle.std.specs.Prelude.{◌≡◌};

use realm_desc::{Realm, Rec};
use rmm_spec::Tag;

/// A granule's state, with the realm or the REC that lies in it.
#[derive(Clone, Copy)]
pub(crate) enum Kept {
    Undelegated,
    Delegated,
    Rd(Realm),
    Rec(Rec),
    RecAux,
    Data,
    Rtt,
}

impl Kept {
    ghost use Rattle.std.specs.Prelude.{◌≡◌};
    ghost use Rattle.flat_machine.specs.Flat.{tag_of};

    /// The state alone.
    pub(crate) fn tag(&self) -> Tag
        ensures { result ≡ tag_of self.now }
    {
        match self {
            Kept::Undelegated => Tag::Undelegated,
            Kept::Delegated => Tag::Delegated,
            Kept::Rd(_) => Tag::Rd,
            Kept::Rec(_) => Tag::Rec,
            Kept::RecAux => Tag::RecAux,
            Kept::Data => Tag::Data,
            Kept::Rtt => Tag::Rtt,
        }
    }

    /// A granule of that state, where no record goes with it.
    pub(crate) fn bare(tag: Tag) -> Option<Kept> {
        match tag {
            Tag::Undelegated => Some(Kept::Undelegated),
            Tag::Delegated => Some(Kept::Delegated),
            Tag::RecAux => Some(Kept::RecAux),
            Tag::Data => Some(Kept::Data),
            Tag::Rtt => Some(Kept::Rtt),
            Tag::Rd | Tag::Rec => None,
        }
    }
}

/// A realm by the address of its descriptor, a level, and the number of a table or an entry at that level.
#[derive(Clone, Copy, Drop, PartialEq, Eq, Hash)]
pub(crate) struct Spot {
    pub(crate) rd: u64,
    pub(crate) level: u8,
    pub(crate) number: u64,
}
