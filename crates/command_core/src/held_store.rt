//! Held cells as what a change is made of.

use crate::held_pairs::HeldPairs;
use granule_cells::{Cell, CellChange, CellStore, CellView, change_cell};
use memory_map::Pa;

impl CellStore for HeldPairs {
    ghost use Rattle.std.specs.Prelude.{ℕ, ◌==◌, List};
    ghost use Rattle.std.specs.List.{list_any};
    ghost use Rattle.rmm_spec.specs.Local.{granules_held};
    ghost use Rattle.command_core.specs.Pairs.{pair_cells};
    ghost use Rattle.command_core.specs.Seen.{known_cell};

    ghost cells_in = { λ held. known_cell (pair_cells held) };

    ghost Kept = { List ℕ };

    ghost kept = { λ held. granules_held (pair_cells held) };

    ghost has = { λ granules granule. list_any (λ other. other == granule) granules };

    fn cell(&self, granule: u64) -> CellView<'_> {
        match self.cell(Pa::new(granule)) {
            Some(cell) => CellView::of(cell),
            None => CellView::Undelegated,
        }
    }

    fn put(&mut self, granule: u64, cell: Cell) -> Cell {
        self.swap(Pa::new(granule), cell)
    }

    fn change(&mut self, granule: u64, change: CellChange) {
        let Some(place) = self.find(Pa::new(granule)) else {
            return;
        };
        change_cell(&mut self.cells[place], change);
    }
}
