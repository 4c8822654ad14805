//! What lies in a granule, looked at where it is.

ghost use Rattle.std.specs.Prelude.{◌≡◌};
ghost use Rattle.granule_cells.specs.Seen.{cell_of};
ghost use Rattle.granule_cells.specs.OneCell.{cell_seen};

use crate::Cell;
use realm_desc::{Realm, Rec};
use rtt_table::Table;

/// A cell as whoever keeps it shows it.
#[derive(Clone, Copy)]
pub enum CellView<'a> {
    Undelegated,
    Delegated,
    Rd(&'a Realm),
    Rec(&'a Rec),
    RecAux,
    Data,
    Rtt(&'a Table),
}

impl<'a> CellView<'a> {
    /// A cell, seen where it lies.
    #[inline(always)]
    pub fn of(cell: &'a Cell) -> CellView<'a>
        ensures { cell_seen result ≡ cell_of cell.now }
    {
        match cell {
            Cell::Undelegated => CellView::Undelegated,
            Cell::Delegated => CellView::Delegated,
            Cell::Rd(descriptor) => CellView::Rd(descriptor.realm()),
            Cell::Rec(rec) => CellView::Rec(rec),
            Cell::RecAux => CellView::RecAux,
            Cell::Data => CellView::Data,
            Cell::Rtt(table) => CellView::Rtt(table),
        }
    }
}
