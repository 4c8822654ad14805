//! What is kept of one granule.

use crate::descriptor::Descriptor;
use realm_desc::Rec;
use rmm_spec::Tag;
use rtt_table::Table;

/// A granule's state with what lies in it (DEN0137, granule state), so that the two agree.
#[derive(Default, Drop)]
pub enum Cell {
    #[default]
    Undelegated,
    Delegated,
    Rd(Descriptor),
    Rec(Rec),
    RecAux,
    Data,
    Rtt(Table),
}

impl Cell {
    ghost use Rattle.std.specs.Prelude.{◌≡◌};
    ghost use Rattle.rmm_spec.specs.Cell.{tag_of};
    ghost use Rattle.granule_cells.specs.Seen.{cell_of};

    /// The granule's state alone.
    pub fn tag(&self) -> Tag
        ensures { result ≡ tag_of (cell_of self.now) }
    {
        match self {
            Cell::Undelegated => Tag::Undelegated,
            Cell::Delegated => Tag::Delegated,
            Cell::Rd(_) => Tag::Rd,
            Cell::Rec(_) => Tag::Rec,
            Cell::RecAux => Tag::RecAux,
            Cell::Data => Tag::Data,
            Cell::Rtt(_) => Tag::Rtt,
        }
    }
}
