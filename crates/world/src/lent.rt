//! Cells that a turn is lent: taken out of a machine's and put back after the turn, which takes no memory.

ghost use Rattle.std.specs.Prelude.{◌≡◌, ℕ, ◌≤◌, vec_len, length, IsTrue, Contains};
ghost use Rattle.std.specs.List.{All};
ghost use Rattle.rmm_spec.specs.Lookup.{is_granule};
ghost use Rattle.rmm_spec.specs.Local.{granules_held, put_all};
ghost use Rattle.command_core.specs.Pairs.{pair_cells};
ghost use Rattle.command_core.specs.Seen.{are_distinct};
ghost use Rattle.world.specs.Granules.{cells_of};
ghost use Rattle.world.specs.Lent.{cells_at};

use crate::cells::Cells;
use command_core::{Cell, HeldPairs};
use memory_map::Pa;
use std::mem::replace;

/// The cells of granules that differ, in their order.
pub(crate) fn lend(cells: &mut Cells, granules: &[Pa]) -> HeldPairs
    requires few { length granules.now ≤ 6 }
    requires distinct { IsTrue (are_distinct granules.now) }
    requires granules { All (λ pa. IsTrue (is_granule (vec_len cells.old.list) pa)) granules.now }
    ensures size { vec_len cells.new.list ≡ vec_len cells.old.list }
    ensures granules { granules_held (pair_cells result) ≡ granules.now }
    ensures lent { pair_cells result ≡ cells_at (cells_of cells.old) granules.now }
    ensures kept { (x : ℕ) → (Contains granules.now x → ⊥) → cells_of cells.new x ≡ cells_of cells.old x }
{
    let mut lent = HeldPairs::new();
    for pa in granules {
        let cell = cells.replace(*pa, Cell::Undelegated);
        lent.push(*pa, cell);
    }
    lent
}

/// Puts the cells back.
pub(crate) fn give_back(lent: HeldPairs, cells: &mut Cells)
    requires { All (λ pa. IsTrue (is_granule (vec_len cells.old.list) pa)) (granules_held (pair_cells lent)) }
    ensures size { vec_len cells.new.list ≡ vec_len cells.old.list }
    ensures cells { cells_of cells.new ≡ put_all (cells_of cells.old) (pair_cells lent) }
{
    let (granules, mut left) = lent.into_parts();
    for (place, pa) in granules.iter().enumerate() {
        let cell = replace(&mut left[place], Cell::Undelegated);
        cells.replace(*pa, cell);
    }
}
