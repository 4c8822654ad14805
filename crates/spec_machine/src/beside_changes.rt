//! What a change makes of the VMIDs, of the counts of RECs and of the CPUs' places.

ghost use Rattle.std.specs.Prelude.{◌≡◌, ◌+◌, IsTrue};
ghost use Rattle.rmm_spec.specs.declared.tag.Tag.TheVariants.{Rd};
ghost use Rattle.rmm_spec.specs.Applicable.{CanApply};
ghost use Rattle.rmm_spec.specs.Cell as spec;
ghost use Rattle.rmm_spec.specs.Lookup.{has_tag};
ghost use Rattle.rmm_laws.specs.Whole as whole;
ghost use Rattle.granule_cells.specs.Sides.{side_of, with_count};
ghost use Rattle.spec_machine.specs.Whole.{cells_of, places_of, state_in, IsShapedIn};

use crate::cell_list::CellList;
use crate::granules::Granules;
use crate::places::Places;
use granule_cells::{CpuPlace, Side};
use memory_map::Pa;
use realm_desc::Rec;
use rmm_spec::{Change, RecChange, RecUpdate};

/// Makes what a change makes of the VMIDs, of the counts and of the CPUs' places, and keeps where a table is made.
#[inline(always)]
#[tactic(auto, unfolding(rmm_laws::specs::Whole::side_changed, rmm_laws::specs::Whole::places_changed))]
pub(crate) fn change_beside(granules: &mut Granules, change: &Change)
    requires shaped { IsShapedIn granules.old }
    requires can { CanApply (state_in granules.old) change.now }
    ensures list { granules.new.list ≡ granules.old.list }
    ensures side { side_of granules.new.side
        ≡ whole.side_changed (cells_of granules.old.list) (side_of granules.old.side) change.now }
    ensures places { places_of granules.new.places
        ≡ whole.places_changed (cells_of granules.old.list) (places_of granules.old.places) change.now }
{
    match *change {
        Change::RealmMade { rd, vmid, .. } => granules.side.set_vmid(vmid, Some(Pa::new(rd))),
        Change::RealmDestroyed { rd, .. } => free_vmid(&granules.list, &mut granules.side, rd),
        Change::RecMade { rd, .. } => count_rec(granules, rd),
        Change::RecDestroyed { rec, .. } => uncount_rec(&granules.list, &mut granules.side, rec),
        Change::RecordsChanged { rec, .. } | Change::EntriesChanged { rec, .. } => {
            change_places(&granules.list, &mut granules.places, rec);
        }
        Change::TableMade {
            rd,
            level,
            number,
            rtt,
            ..
        } => granules.near.keep(rd, level, number, Some(rtt)),
        Change::Unchanged | Change::Retagged(_) | Change::TableDestroyed { .. } => {}
    }
}

// The realm has one REC more.
fn count_rec(granules: &mut Granules, rd: u64)
    requires shaped { IsShapedIn granules.old }
    requires realm { IsTrue (has_tag (state_in granules.old) rd Rd) }
    ensures list { granules.new.list ≡ granules.old.list }
    ensures side { side_of granules.new.side
        ≡ with_count (side_of granules.old.side) rd ((side_of granules.old.side).rec_counts rd + 1) }
    ensures places { granules.new.places ≡ granules.old.places }
{
    let _fact = granules.list.config.granules();
    granules.side.count_rec(Pa::new(rd));
}

// The VMID of the realm that is there is free.
#[tactic(auto, unfolding(realm_desc::specs::View::realm_record))]
fn free_vmid(list: &CellList, side: &mut Side, rd: u64)
    ensures { side_of side.new ≡ whole.side_without_vmid (side_of side.old) (cells_of list.now rd) }
{
    if let Some(realm) = list.realm_in(rd) {
        side.set_vmid(realm.vmid, None);
    }
}

// The realm of the REC that is there has one REC less.
#[tactic(auto, unfolding(realm_desc::specs::View::rec_record))]
fn uncount_rec(list: &CellList, side: &mut Side, rec: u64)
    ensures { side_of side.new ≡ whole.side_without_rec (side_of side.old) (cells_of list.now rec) }
{
    if let Some(rec) = list.rec_in(rec) {
        side.uncount_rec(rec.owner);
    }
}

/// The REC that is there is entered or left, where its update says so.
#[inline(always)]
pub(crate) fn change_places(list: &CellList, places: &mut Places, change: Option<RecChange>)
    ensures { places_of places.new ≡ whole.places_with_rec_change (cells_of list.now) (places_of places.old) change }
{
    let Some(RecChange { rec, update }) = change else {
        return;
    };
    let Some(held) = list.rec_in(rec) else {
        return;
    };
    change_place(held, places, rec, update);
}

// The same, of one REC.
#[tactic(auto, unfolding(realm_desc::specs::View::rec_record))]
fn change_place(rec: &Rec, places: &mut Places, address: u64, update: RecUpdate)
    ensures { places_of places.new ≡ whole.places_of_rec (places_of places.old) address update (spec.Rec rec.now) }
{
    match update {
        RecUpdate::Entered { cpu } => {
            let rd = rec.owner;
            let rec = Pa::new(address);
            places.set(cpu, CpuPlace::Inside { rec, rd });
        }
        RecUpdate::Exited => places.leave(rec.cpu),
        _ => {}
    }
}
