//! The cells of granules that hold nothing.

ghost use Rattle.std.specs.Prelude.{◌≡◌, IsTrue};
ghost use Rattle.rmm_spec.specs.Cell as whole;
ghost use Rattle.rmm_laws.specs.Whole.{cell_with_tag};
ghost use Rattle.granule_cells.specs.Seen.{cell_of};
ghost use Rattle.granule_cells.specs.Changes.{is_plain};

use crate::Cell;
use rmm_spec::Tag;

/// The cell of a granule that holds nothing but its state.
#[inline(always)]
pub fn plain_cell(tag: Tag) -> Cell
    requires { IsTrue (is_plain tag) }
    ensures { (before : whole.Cell) → cell_of result ≡ cell_with_tag tag before }
{
    match tag {
        Tag::Undelegated => Cell::Undelegated,
        Tag::Delegated => Cell::Delegated,
        Tag::RecAux => Cell::RecAux,
        Tag::Data => Cell::Data,
        Tag::Rd | Tag::Rec | Tag::Rtt => unreachable!(),
    }
}
