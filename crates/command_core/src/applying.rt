//! A decided change, made of the cells that are held, of the side table and of the CPU's place.

ghost use Rattle.std.specs.Prelude.{◌≡◌, option_map, option_copied, unwrap_or, IfSome, IsTrue};
ghost use Rattle.rmm_spec.specs.Cell as whole;
ghost use Rattle.rtt_table.specs.Shaped.{IsShaped};
ghost use Rattle.world_laws.specs.Replaced.{replaced_all};
ghost use Rattle.world_laws.specs.SeenState.{table_held};
ghost use Rattle.rmm_laws.specs.Whole.{side_changed};
ghost use Rattle.rmm_spec.specs.declared.version.Version.TheVariants.{Large};
ghost use Rattle.rmm_spec.specs.HistoryText.{granule_limit};
ghost use Rattle.command_core.specs.Changed as spec;
ghost use Rattle.command_core.specs.Changed.{hold_of, new_cells, AreHeld, CanMake, can_count};
ghost use Rattle.command_core.specs.Pairs.{pair_cells};
ghost use Rattle.command_core.specs.Rooms.{IsRoomFor};
ghost use Rattle.command_core.specs.Seen.{cell_of, place_of, known_cell};
ghost use Rattle.command_core.specs.Sides.{side_of};

use crate::held_pairs::HeldPairs;
use crate::held_tables::{placed, stands_well};
use granule_cells::{Cell, CpuPlace, Room, Side, table_changed};
use memory_map::Pa;
use rmm_spec::{Change, RecChange, RecUpdate};

/// Makes the change, with the room that was taken for it. The records are updated as the definitions say; no memory is taken.
pub fn apply(
    held: &mut HeldPairs,
    side: &mut Side,
    place: &mut CpuPlace,
    change: Change,
    room: Room,
)
    requires held { AreHeld (pair_cells held.old) change }
    requires makes { CanMake (hold_of (pair_cells held.old) (side_of side.old) (place_of place.old)) change }
    requires room { IsRoomFor change room }
    ensures cells { pair_cells held.new ≡ replaced_all (pair_cells held.old) (new_cells (pair_cells held.old) change) }
    ensures side { side_of side.new ≡ side_changed (known_cell (pair_cells held.old)) (side_of side.old) change }
    ensures place { place_of place.new ≡ spec.new_place (pair_cells held.old) (place_of place.old) change }
{
    apply_aside(held, side, &change);
    apply_held(held, place, &change, room);
}

/// Makes the change of what is held and of the CPU's place, and leaves the side table to `apply_aside`, which comes first.
pub fn apply_held(held: &mut HeldPairs, place: &mut CpuPlace, change: &Change, room: Room)
    requires held { AreHeld (pair_cells held.old) change.now }
    requires fits { IsTrue (spec.fits_cells (pair_cells held.old) change.now) }
    requires room { IsRoomFor change.now room }
    ensures cells { pair_cells held.new ≡ replaced_all (pair_cells held.old) (new_cells (pair_cells held.old) change.now) }
    ensures place { place_of place.new ≡ spec.new_place (pair_cells held.old) (place_of place.old) change.now }
{
    *place = place_after(held, *place, change);
    let at = table_touched(held, change);
    granule_cells::apply(held, change, at, room);
}

// The granule of the table whose entries the change changes, where it is held.
fn table_touched(held: &HeldPairs, change: &Change) -> Option<u64>
    ensures touched { result ≡ spec.table_touched (pair_cells held.now) change.now }
    ensures shaped { IfSome result (λ granule. IfSome (table_held (pair_cells held.now) granule) (λ t. IsShaped t.place)) }
{
    let place = table_changed(change)?;
    let granule = placed(held, place.rd, place.level, place.number)?;
    let _fact = stands_well(held, Pa::new(granule));
    Some(granule)
}

// Where the CPU is after the change.
#[tactic(auto, unfolding(crate::specs::Changed::new_place))]
fn place_after(held: &HeldPairs, place: CpuPlace, change: &Change) -> CpuPlace
    ensures { place_of result ≡ spec.new_place (pair_cells held.now) (place_of place) change.now }
{
    match change {
        Change::RecordsChanged {
            rec: Some(change),
            ..
        }
        | Change::EntriesChanged {
            rec: Some(change),
            ..
        } => place_with_rec(held.cell(Pa::new(change.rec)), place, change),
        _ => place,
    }
}

// A CPU that enters a REC is inside of it, and one that leaves is outside.
#[tactic(auto, unfolding(realm_desc::specs::View::rec_record))]
fn place_with_rec(cell: Option<&Cell>, place: CpuPlace, change: &RecChange) -> CpuPlace
    ensures { place_of result ≡ spec.place_with_rec (place_of place) change.now.rec change.now.update
        (unwrap_or (option_map cell_of (option_copied cell.entry)) whole.Undelegated) }
{
    match (change.update, cell) {
        (RecUpdate::Entered { .. }, Some(Cell::Rec(rec))) => CpuPlace::Inside {
            rec: Pa::new(change.rec),
            rd: rec.owner,
        },
        (RecUpdate::Exited, _) => CpuPlace::Outside,
        _ => place,
    }
}

/// Makes the change of the side table: of the VMIDs where a realm is made or destroyed, of the counts where a REC is.
#[tactic(auto, unfolding(rmm_laws::specs::Whole::side_changed, realm_desc::specs::View::realm_record, realm_desc::specs::View::rec_record))]
pub fn apply_aside(held: &HeldPairs, side: &mut Side, change: &Change)
    requires { IsTrue (can_count (granule_limit Large) (side_of side.old) change.now) }
    ensures { side_of side.new ≡ side_changed (known_cell (pair_cells held.now)) (side_of side.old) change.now }
{
    match *change {
        Change::RealmMade { rd, vmid, .. } => side.set_vmid(vmid, Some(Pa::new(rd))),
        Change::RealmDestroyed { rd, .. } => {
            if let Some(Cell::Rd(descriptor)) = held.cell(Pa::new(rd)) {
                side.set_vmid(descriptor.realm().vmid, None);
            }
        }
        Change::RecMade { rd, .. } => side.count_rec(Pa::new(rd)),
        Change::RecDestroyed { rec, .. } => {
            if let Some(Cell::Rec(rec)) = held.cell(Pa::new(rec)) {
                side.uncount_rec(rec.owner);
            }
        }
        Change::Unchanged
        | Change::Retagged(_)
        | Change::RecordsChanged { .. }
        | Change::TableMade { .. }
        | Change::TableDestroyed { .. }
        | Change::EntriesChanged { .. } => {}
    }
}
