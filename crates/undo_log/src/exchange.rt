//! A patch that is put in, and taken back.

ghost use Rattle.std.specs.Prelude.{◌≡◌, reverse};
ghost use Rattle.granule_cells.specs.Sides.{side_of, with_vmid};
ghost use Rattle.undo_log.specs.Patches.{put_all, put_in, standing_in};
ghost use Rattle.undo_log.specs.declared.patch.Replaced.TheVariants.{RecCount};

use crate::patch::{Patch, Replaced};
use granule_cells::{CellStore, Side};
use memory_map::{Pa, granule_at};
use spec_machine::{Granules, Machine};
use std::mem::{swap, take};

impl Patch {
    ghost use Rattle.std.specs.Prelude.{◌≡◌};
    ghost use Rattle.undo_log.specs.Patches.{patched, standing_of, IsWhole};

    /// Puts in what the patch has, and leaves in it what was there: the patch leads back.
    pub fn exchange(&mut self, machine: &mut Machine)
        requires { IsWhole (patched self.old (standing_of machine.old)) }
        ensures there { standing_of machine.new ≡ patched self.old (standing_of machine.old) }
        ensures back { patched self.new (standing_of machine.new) ≡ standing_of machine.old }
    {
        self.items.reverse();
        exchange_each(&mut machine.granules, self.items.as_mut_slice());
    }
}

// Puts in each of them, the first one first, and leaves in its place what was there.
fn exchange_each(granules: &mut Granules, items: &mut [Replaced])
    ensures there { standing_in granules.new ≡ put_all (reverse items.old) (standing_in granules.old) }
    ensures back { put_all items.new (standing_in granules.new) ≡ standing_in granules.old }
{
    for item in items {
        exchange_one(granules, item);
    }
}

// Puts one in, and leaves in its place what was there.
fn exchange_one(granules: &mut Granules, item: &mut Replaced)
    ensures there { standing_in granules.new ≡ put_in item.old (standing_in granules.old) }
    ensures back { put_in item.new (standing_in granules.new) ≡ standing_in granules.old }
{
    match item {
        Replaced::Cell { granule, cell } => {
            if granule_at(&granules.list.config, *granule).is_some() {
                let given = take(cell);
                *cell = granules.list.put(*granule, given);
            }
        }
        Replaced::Vmid { vmid, realm } => exchange_vmid(&mut granules.side, *vmid, realm),
        Replaced::RecCount { rd, count } => exchange_count(granules, *rd, count),
        Replaced::Places(places) => swap(&mut granules.places, places),
    }
}

// Gives the VMID to the realm, or frees it, and leaves the realm that had it.
fn exchange_vmid(side: &mut Side, vmid: u8, realm: &mut Option<Pa>)
    ensures there { side_of side.new ≡ with_vmid (side_of side.old) vmid realm.old }
    ensures back { with_vmid (side_of side.new) vmid realm.new ≡ side_of side.old }
{
    let given = *realm;
    *realm = side.realm_with(vmid);
    side.set_vmid(vmid, given);
}

// Counts so many RECs of the realm, where a granule lies at its address, and leaves how many there were.
fn exchange_count(granules: &mut Granules, rd: Pa, count: &mut u32)
    ensures there { standing_in granules.new ≡ put_in (RecCount rd count.old) (standing_in granules.old) }
    ensures back { put_in (RecCount rd count.new) (standing_in granules.new) ≡ standing_in granules.old }
{
    let _fact = granules.list.config.granules();
    if granule_at(&granules.list.config, rd.address()).is_some() {
        let given = *count;
        *count = granules.side.counted(rd);
        granules.side.set_count(rd, given);
    }
}
