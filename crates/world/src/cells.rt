//! The cells of a machine.

ghost use Rattle.std.specs.Prelude.{◌≡◌, ◌/◌, vec_len, IsTrue, IfOk};
ghost use Rattle.rmm_spec.specs.Lookup.{is_granule};
ghost use Rattle.rmm_spec.specs.Cell.{put};
ghost use Rattle.rmm_spec.specs.Cell as whole;
ghost use Rattle.command_core.specs.Seen.{cell_of};
ghost use Rattle.world.specs.Granules.{cells_of};

use command_core::Cell;
use memory_map::{Config, GRANULE_BYTES, Pa};
use std::alloc::{AllocError, Global};
use std::mem::replace;

/// A cell for each granule, in the order of their addresses.
#[derive(Drop)]
pub(crate) struct Cells {
    pub(crate) list: Vec<Cell>,
}

#[tactic(auto, unfolding(crate::specs::Granules::cells_of))]
impl Cells {
    /// The host has every granule.
    pub(crate) fn new(alloc: Global, config: &Config) -> Result<Cells, AllocError>
        ensures size { IfOk result (λ cells. vec_len cells.list ≡ config.now.granules) }
        ensures cells { IfOk result (λ cells. cells_of cells ≡ (λ _. whole.Undelegated)) }
    {
        let granules = config.granules() as usize;
        let mut list = Vec::new(alloc);
        list.reserve(granules)?;
        for _place in 0..granules {
            list.push_reserved(Cell::Undelegated);
        }
        Ok(Cells { list })
    }

    /// Puts another cell in the place of a granule's, and returns that.
    pub(crate) fn replace(&mut self, pa: Pa, cell: Cell) -> Cell
        requires { IsTrue (is_granule (vec_len self.old.list) pa) }
        ensures size { vec_len self.new.list ≡ vec_len self.old.list }
        ensures cells { cells_of self.new ≡ put (cells_of self.old) pa (cell_of cell) }
        ensures given { cell_of result ≡ cells_of self.old pa }
    {
        replace(&mut self.list[place(pa)], cell)
    }
}

/// Where what is kept of a granule stands.
pub(crate) fn place(pa: Pa) -> usize
    ensures { result ≡ pa / 4096 }
{
    (pa.address() / GRANULE_BYTES) as usize
}
