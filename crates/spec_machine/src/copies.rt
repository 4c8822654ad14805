//! A machine once more, with all that it keeps.

ghost use Rattle.std.specs.Prelude.{◌≡◌, ◌≤◌, length, IfOk, vec_capacity};

use crate::cell_list::CellList;
use crate::granules::Granules;
use crate::machine::Machine;
use crate::near::Near;
use crate::places::{CPUS, Places};
use crate::slot::{HousedRec, Slot};
use crate::slot_list::SlotList;
use granule_cells::{CpuPlace, Descriptor};
use std::alloc::{AllocError, Global};

impl Machine {
    ghost use Rattle.std.specs.Prelude.{◌≡◌, IfOk};
    ghost use Rattle.spec_machine.specs.View.{state_of};

    /// A machine in the same state, to which no offer was made yet.
    pub fn copy(&self) -> Result<Machine, AllocError>
        ensures state { IfOk result (λ machine. state_of machine ≡ state_of self.now) }
        ensures offers { IfOk result (λ machine. machine.offers ≡ 0) }
    {
        let alloc = self.granules.alloc;
        let list = self.granules.list.copy(alloc)?;
        let side = self.granules.side.copy(alloc)?;
        let places = self.granules.places.copy(alloc)?;
        let near = Near::new(alloc)?;
        let granules = Granules {
            alloc,
            list,
            side,
            places,
            near,
        };
        Ok(Machine {
            granules,
            offers: 0,
        })
    }
}

#[tactic(auto, unfolding(crate::specs::Whole::cells_of))]
impl CellList {
    ghost use Rattle.std.specs.Prelude.{◌≡◌, IfOk};
    ghost use Rattle.spec_machine.specs.Whole.{cells_of};

    /// The same cells once more.
    pub(crate) fn copy(&self, alloc: Global) -> Result<CellList, AllocError>
        ensures size { IfOk result (λ list. list.config ≡ self.now.config) }
        ensures cells { IfOk result (λ list. cells_of list ≡ cells_of self.now) }
    {
        let places = self.places.copy(alloc)?;
        let cells = self.cells.copy(alloc)?;
        Ok(CellList {
            config: self.config,
            places,
            cells,
        })
    }
}

impl SlotList {
    ghost use Rattle.std.specs.Prelude.{◌≡◌, IfOk};

    /// The same cells once more, with as much room.
    pub(crate) fn copy(&self, alloc: Global) -> Result<SlotList, AllocError>
        ensures { IfOk result (λ list. list ≡ self.now) }
    {
        let room = self.slots.capacity();
        let slots = copied_slots(alloc, self.slots.as_slice(), room)?;
        let recs = copied_recs(alloc, self.recs.as_slice(), room)?;
        Ok(SlotList { slots, recs })
    }
}

#[tactic(auto, unfolding(crate::specs::Whole::places_of))]
impl Places {
    ghost use Rattle.std.specs.Prelude.{◌≡◌, IfOk};
    ghost use Rattle.spec_machine.specs.Whole.{places_of};

    /// The same places once more.
    pub fn copy(&self, alloc: Global) -> Result<Places, AllocError>
        ensures { IfOk result (λ p. places_of p ≡ places_of self.now) }
    {
        let mut places = vec![in alloc; CpuPlace::Outside; CPUS]?;
        places.copy_from_slice(self.places.as_slice());
        Ok(Places { places })
    }
}

// The same slots once more, with so much room.
fn copied_slots(alloc: Global, slots: &[Slot], room: usize) -> Result<Vec<Slot>, AllocError>
    requires { length slots.now ≤ room }
    ensures items { IfOk result (λ copy. copy.items ≡ slots.now) }
    ensures room { IfOk result (λ copy. vec_capacity copy ≡ room) }
{
    let mut copy = Vec::with_capacity(alloc, room)?;
    for slot in slots {
        copy.push_reserved(copied_slot(alloc, slot)?);
    }
    Ok(copy)
}

fn copied_slot(alloc: Global, slot: &Slot) -> Result<Slot, AllocError>
    ensures { IfOk result (λ copy. copy ≡ slot.now) }
{
    match slot {
        Slot::Undelegated => Ok(Slot::Undelegated),
        Slot::Delegated => Ok(Slot::Delegated),
        Slot::Rd(descriptor) => Ok(Slot::Rd(Descriptor::new(alloc, *descriptor.realm())?)),
        Slot::Rec(number) => Ok(Slot::Rec(*number)),
        Slot::RecAux => Ok(Slot::RecAux),
        Slot::Data => Ok(Slot::Data),
        Slot::Rtt(table) => Ok(Slot::Rtt(table.copy(alloc)?)),
    }
}

// The same RECs once more, with so much room.
fn copied_recs(alloc: Global, recs: &[HousedRec], room: usize) -> Result<Vec<HousedRec>, AllocError>
    ensures items { IfOk result (λ copy. copy.items ≡ recs.now) }
    ensures room { IfOk result (λ copy. room ≤ vec_capacity copy) }
{
    let mut copy = Vec::with_capacity(alloc, room)?;
    copy.extend_from_slice(recs)?;
    Ok(copy)
}
