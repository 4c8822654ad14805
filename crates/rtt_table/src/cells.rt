//! What a walk reads: tables by the address of their granule.

ghost use Rattle.std.specs.Prelude.{◌≡◌, option_copied, List};
ghost use Rattle.rmm_spec.specs.TableCells.{TableCell, table_in, ArePlaced};

use crate::Table;
use memory_map::Pa;

/// A set of tables, each in a granule of its own.
pub trait Cells {
    ghost cells: { Self → List TableCell };

    /// The table in the granule at an address, if there is one.
    fn table(&self, pa: Pa) -> Option<&Table>
        ensures { option_copied result ≡ table_in (cells self.now) pa };

    ghost are_placed: { (c : Self) → ArePlaced (cells c) };
}
