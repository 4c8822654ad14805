//! Held cells beside their granules.

ghost use Rattle.std.specs.Prelude.{◌≡◌, ◌≤◌, length, IsTrue};
ghost use Rattle.command_core.specs.Seen.{are_distinct};

use arrayvec::ArrayVec;
use granule_cells::Cell;
use memory_map::Pa;
use std::mem::replace;

/// Up to six cells, each of a granule of its own, in the order in which they were taken. None is copied.
#[derive(Drop)]
pub struct HeldPairs {
    granules: ArrayVec<Pa, 6>,
    pub(crate) cells: ArrayVec<Cell, 6>,
    ghost same_count: { length cells.items ≡ length granules.items },
    ghost few: { length granules.items ≤ 6 },
    ghost distinct: { IsTrue (are_distinct granules.items) },
}

impl HeldPairs {
    ghost use Rattle.std.specs.Prelude.{◌≡◌, ◌++◌, ◌∷◌, [], ◌<◌, ◌==◌, false, Some, length, option_copied, option_map, position};
    ghost use Rattle.rmm_spec.specs.Local.{granules_held};
    ghost use Rattle.world_laws.specs.Replaced.{held_at, replaced_cells};
    ghost use Rattle.command_core.specs.Pairs.{pair_cells, paired, without_cell};
    ghost use Rattle.command_core.specs.Seen.{cell_of, cell_in, is_held};

    /// No cells.
    #[tactic(auto, unfolding(crate::specs::Pairs::pair_cells))]
    pub fn new() -> HeldPairs
        ensures { pair_cells result ≡ [] }
    {
        HeldPairs {
            granules: ArrayVec::new(),
            cells: ArrayVec::new(),
        }
    }

    /// Their granules.
    pub fn held(&self) -> &[Pa]
        ensures { result.now ≡ granules_held (pair_cells self.now) }
    {
        &self.granules
    }

    /// The cell of a granule, where it is held.
    pub fn cell(&self, pa: Pa) -> Option<&Cell>
        ensures { option_map cell_of (option_copied result) ≡ cell_in pa (pair_cells self.now) }
    {
        let place = self.find(pa)?;
        Some(&self.cells[place])
    }

    /// Puts another cell in the place of one that is held, and returns that.
    pub fn swap(&mut self, pa: Pa, cell: Cell) -> Cell
        requires { IsTrue (is_held pa (pair_cells self.old)) }
        ensures cells { pair_cells self.new ≡ replaced_cells (pair_cells self.old) pa (cell_of cell) }
        ensures given { cell_in pa (pair_cells self.old) ≡ Some (cell_of result) }
    {
        let place = self.place_of(pa);
        replace(&mut self.cells[place], cell)
    }

    /// One cell more, of a granule that isn't held yet.
    pub fn push(&mut self, pa: Pa, cell: Cell)
        requires room { length (pair_cells self.old) < 6 }
        requires new { is_held pa (pair_cells self.old) ≡ false }
        ensures { pair_cells self.new ≡ pair_cells self.old ++ held_at pa (cell_of cell) ∷ [] }
    {
        self.granules.push(pa);
        self.cells.push(cell);
    }

    /// Takes a held cell out.
    pub fn remove(&mut self, pa: Pa) -> Cell
        requires { IsTrue (is_held pa (pair_cells self.old)) }
        ensures cells { pair_cells self.new ≡ without_cell pa (pair_cells self.old) }
        ensures given { cell_in pa (pair_cells self.old) ≡ Some (cell_of result) }
    {
        let place = self.place_of(pa);
        self.granules.remove(place);
        self.cells.remove(place)
    }

    /// The granules, and the cells in the same order.
    #[tactic(auto, unfolding(crate::specs::Pairs::pair_cells))]
    pub fn into_parts(self) -> (ArrayVec<Pa, 6>, ArrayVec<Cell, 6>)
        ensures pairs { paired result.0.items result.1.items ≡ pair_cells self }
        ensures same_count { length result.1.items ≡ length result.0.items }
    {
        let HeldPairs { granules, cells } = self;
        (granules, cells)
    }

    // Where a held granule stands.
    fn place_of(&self, pa: Pa) -> usize
        requires { IsTrue (is_held pa (pair_cells self.now)) }
        ensures { position (λ granule. granule == pa) self.now.granules.items ≡ Some result }
    {
        let Some(place) = self.find(pa) else {
            unreachable!()
        };
        place
    }

    // Where a granule stands, if it is held.
    pub(crate) fn find(&self, pa: Pa) -> Option<usize>
        ensures { result ≡ position (λ granule. granule == pa) self.now.granules.items }
    {
        self.granules.iter().position(|granule| *granule == pa)
    }
}
