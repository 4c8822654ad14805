//! What keeps the cells of granules, however they lie.

ghost use Rattle.std.specs.Prelude.{◌≡◌, ℕ, Bool, IsTrue};
ghost use Rattle.rmm_spec.specs.Cell as whole;
ghost use Rattle.rmm_spec.specs.Cell.{put};
ghost use Rattle.granule_cells.specs.Seen.{cell_of};
ghost use Rattle.rmm_laws.specs.Whole.{changed_at};
ghost use Rattle.granule_cells.specs.OneCell.{cell_changed, cell_seen, FitsCell};

use crate::Cell;
use crate::cell_change::CellChange;
use crate::cell_view::CellView;

/// Cells, each of a granule. A cell is put in in place of another, or is changed where it lies.
pub trait CellStore {
    // what lies at each address
    ghost cells_in: { Self → ℕ → whole.Cell };

    // what stays, whatever becomes of cells
    ghost Kept: { Type 0 };

    ghost kept: { Self → Self.Kept };

    // by which it is known whether the cell of a granule can be put in
    ghost has: { Self.Kept → ℕ → Bool };

    /// What lies in the granule.
    fn cell(&self, granule: u64) -> CellView<'_>
        ensures { cell_seen result ≡ Self.cells_in self.now granule };

    /// Puts a cell in the place of the one that is there, and returns that.
    fn put(&mut self, granule: u64, cell: Cell) -> Cell
        requires { IsTrue (Self.has (Self.kept self.old) granule) }
        ensures kept { Self.kept self.new ≡ Self.kept self.old }
        ensures cells { Self.cells_in self.new ≡ put (Self.cells_in self.old) granule (cell_of cell) }
        ensures given { cell_of result ≡ Self.cells_in self.old granule };

    /// Changes the cell that is there, where it lies. One that isn't what the change means stays.
    fn change(&mut self, granule: u64, change: CellChange)
        requires { FitsCell (Self.cells_in self.old granule) change }
        ensures kept { Self.kept self.new ≡ Self.kept self.old }
        ensures cells { Self.cells_in self.new ≡ changed_at (Self.cells_in self.old) granule (cell_changed change) };
}
