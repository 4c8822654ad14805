//! The cells that a CPU holds.

ghost use Rattle.std.specs.Prelude.{◌≡◌, Some};

use command_core::{Cell, CpuPlace, HeldPairs, Room, apply_held};
use memory_map::Pa;
use rmm_spec::Change;
use std::snapshot::Snapshot;

/// A cell on its way between its granule and a hold. It has no `Drop`: it is put among those that are held, or it goes home.
pub(crate) struct Away {
    cell: Cell,
}

impl Away {
    pub(crate) fn of(cell: Cell) -> Away
        ensures { result.cell ≡ cell }
    {
        Away { cell }
    }

    /// Puts the cell into its home.
    pub(crate) fn go_home(self, home: &mut Option<Cell>)
        ensures { home.new ≡ Some self.cell }
    {
        let Away { cell } = self;
        *home = Some(cell);
    }
}

/// What was held as freeing began. It has no bytes.
#[derive(Drop)]
struct Freed {
    pairs: Snapshot<HeldPairs>,
}

impl Freed {
    ghost use Rattle.std.specs.Prelude.{◌≡◌};
    ghost use Rattle.granule_lock.specs.HeldCells.{cells_of, hold_cells};

    fn of(hold: &Hold) -> Freed
        ensures { cells_of result ≡ hold_cells hold.now }
    {
        Freed {
            pairs: Snapshot::of(&hold.pairs),
        }
    }
}

/// Up to six cells with their granules, in the order in which they were taken. Only a take adds one. It has no `Drop`, so that
/// each granule gets a cell home before it ends: the one that was taken, or the one that a change put in its place.
pub struct Hold {
    pub(crate) pairs: HeldPairs,
    // set by `begin_freeing` alone
    freed: Option<Freed>,
}

impl Hold {
    ghost use Rattle.std.specs.Prelude.{◌≡◌, ◌++◌, ◌∷◌, [], ◌<◌, false, Some, length, IsTrue};
    ghost use Rattle.world_laws.specs.Replaced.{held_at, replaced_all};
    ghost use Rattle.command_core.specs.Changed.{fits_cells, new_cells, new_place, AreHeld};
    ghost use Rattle.command_core.specs.Pairs.{pair_cells, without_cell};
    ghost use Rattle.command_core.specs.Rooms.{IsRoomFor};
    ghost use Rattle.command_core.specs.Seen.{cell_of, cell_in, is_held, place_of};
    ghost use Rattle.granule_lock.specs.HeldCells.{freed_cells, hold_cells, IsLastHeld};

    /// No cells.
    pub fn new() -> Hold
        ensures { hold_cells result ≡ [] }
    {
        Hold {
            pairs: HeldPairs::new(),
            freed: None,
        }
    }

    /// The cells beside their granules.
    pub fn pairs(&self) -> &HeldPairs
        ensures { result.now ≡ self.now.pairs }
    {
        &self.pairs
    }

    /// Makes a change of what is held and of the CPU's place, with the room that was taken for it.
    pub fn apply(&mut self, place: &mut CpuPlace, change: &Change, room: Room)
        requires held { AreHeld (hold_cells self.old) change.now }
        requires fits { IsTrue (fits_cells (hold_cells self.old) change.now) }
        requires room { IsRoomFor change.now room }
        ensures cells { hold_cells self.new ≡ replaced_all (hold_cells self.old) (new_cells (hold_cells self.old) change.now) }
        ensures place { place_of place.new ≡ new_place (hold_cells self.old) (place_of place.old) change.now }
    {
        apply_held(&mut self.pairs, place, change, room);
    }

    /// Ends a hold of no cells.
    pub fn end(self)
        requires { hold_cells self ≡ [] }
    {
        let Hold { pairs: _, freed: _ } = self;
    }

    /// All that is held is to be freed: it keeps, for contracts alone, what that is, as long as nothing but the cell taken last is
    /// taken out.
    pub(crate) fn begin_freeing(&mut self)
        ensures cells { hold_cells self.new ≡ hold_cells self.old }
        ensures freed { freed_cells self.new ≡ hold_cells self.old }
    {
        let freed = Freed::of(self);
        self.freed = Some(freed);
    }

    /// One cell more, of a granule that isn't held yet.
    pub(crate) fn push(&mut self, pa: Pa, away: Away)
        requires room { length (hold_cells self.old) < 6 }
        requires new { is_held pa (hold_cells self.old) ≡ false }
        ensures { hold_cells self.new ≡ hold_cells self.old ++ held_at pa (cell_of away.cell) ∷ [] }
    {
        let Away { cell } = away;
        self.pairs.push(pa, cell);
    }

    /// Takes a held cell out.
    pub(crate) fn remove(&mut self, pa: Pa) -> Away
        requires { IsTrue (is_held pa (hold_cells self.old)) }
        ensures cells { hold_cells self.new ≡ without_cell pa (hold_cells self.old) }
        ensures freed { IsLastHeld pa (hold_cells self.old) → freed_cells self.new ≡ freed_cells self.old }
        ensures given { cell_in pa (hold_cells self.old) ≡ Some (cell_of result.cell) }
    {
        Away {
            cell: self.pairs.remove(pa),
        }
    }
}
