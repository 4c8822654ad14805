//! All granules of a machine.

ghost use Rattle.std.specs.Prelude.{◌≡◌, ◌<◌, ◌++◌, ◌∷◌, [], false, length, IsTrue, IfOk};
ghost use Rattle.rmm_spec.specs.Lookup.{is_granule};
ghost use Rattle.world_laws.specs.Replaced.{held_at};
ghost use Rattle.command_core.specs.Seen.{cell_of, is_held};
ghost use Rattle.granule_cells.specs.declared.cell.Cell.{Cell};
ghost use Rattle.command_core.specs.Pairs.{without_cell};
ghost use Rattle.granule_lock.specs.HeldCells.{freed_cells, hold_cells, IsLastHeld};

use crate::granule::Granule;
use crate::hold::Hold;
use memory_map::{Config, GRANULE_BYTES, Pa};
use std::alloc::{AllocError, Global};
use std::marker::Model;
use std::sync::Wait;

/// The granules of a machine, which all CPUs share. A granule's lock is free while its cell is home. A hold is used with
/// one of these alone: a cell given to another would take the place of one there.
#[derive(Drop)]
pub struct Granules {
    granules: Vec<Granule>,
}

impl Model for Granules {
    ghost use Rattle.std.specs.Prelude.{vec_len};
    ghost use Rattle.granule_lock.specs.HeldCells.{GranulesView};

    ghost Value = { GranulesView };

    ghost view = { λ g. record { granules = vec_len g.granules } };
}

impl Granules {
    /// Every granule of a machine, undelegated and held by nobody. Memory is refused only for the table of locks.
    pub fn new(alloc: Global, config: &Config) -> Result<Granules, AllocError>
        ensures { IfOk result (λ made. made.granules ≡ config.now.granules) }
    {
        let mut granules = Vec::new(alloc);
        granules.resize_with(config.granules() as usize, Granule::new)?;
        Ok(Granules { granules })
    }

    /// Waits until the granule's cell is home, and moves it to the end of what is held. It takes no memory.
    pub fn take<R: Wait>(&self, rt: &R, hold: &mut Hold, pa: Pa)
        requires granule { IsTrue (is_granule self.now.granules pa) }
        requires room { length (hold_cells hold.old) < 6 }
        requires new { is_held pa (hold_cells hold.old) ≡ false }
        ensures { (cell : Cell) × (hold_cells hold.new ≡ hold_cells hold.old ++ held_at pa (cell_of cell) ∷ []) }
    {
        hold.push(pa, self.granule(pa).take(rt));
    }

    /// Moves a held cell home, and leaves the others as they are. It takes no memory, and waits for nobody who holds a cell.
    pub fn give<R: Wait>(&self, rt: &R, hold: &mut Hold, pa: Pa)
        requires granule { IsTrue (is_granule self.now.granules pa) }
        requires held { IsTrue (is_held pa (hold_cells hold.old)) }
        ensures cells { hold_cells hold.new ≡ without_cell pa (hold_cells hold.old) }
        ensures freed { IsLastHeld pa (hold_cells hold.old) → freed_cells hold.new ≡ freed_cells hold.old }
    {
        self.granule(pa).give(rt, hold.remove(pa));
    }

    /// The lock of a granule.
    #[tactic(auto, using(std::proofs::lemmas::Bool::Decides::nat_tests), unfolding(rmm_spec::specs::Lookup::is_granule))]
    fn granule(&self, pa: Pa) -> &Granule
        requires { IsTrue (is_granule self.now.granules pa) }
    {
        &self.granules[(pa.address() / GRANULE_BYTES) as usize]
    }
}
