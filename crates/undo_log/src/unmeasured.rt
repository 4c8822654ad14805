//! Whether two cells are the same, but for what was measured.

ghost use Rattle.std.specs.Prelude.{◌≡◌, IsTrue};
ghost use Rattle.granule_cells.specs.OneCell.{cell_seen};
ghost use Rattle.spec_machine.specs.Unmeasured.{unmeasured_cell};

use crate::same::{same_but_measurements, same_cell};
use granule_cells::CellView;

/// Whether two cells are the same but for what was measured.
pub(crate) fn like_cells(one: CellView<'_>, other: CellView<'_>) -> bool
    ensures { IsTrue result → unmeasured_cell (cell_seen one.entry) ≡ unmeasured_cell (cell_seen other.entry) }
{
    match one {
        CellView::Rd(realm) => match other {
            CellView::Rd(second) => same_but_measurements(realm, second),
            _ => false,
        },
        _ => same_cell(one, other),
    }
}
