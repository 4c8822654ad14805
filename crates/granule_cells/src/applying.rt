//! A change that is made of cells, whichever kind it is.

ghost use Rattle.std.specs.Prelude.{◌≡◌, ◌*◌, IsTrue, false};
ghost use Rattle.rmm_spec.specs.Step.Terms.{is_space};
ghost use Rattle.rmm_spec.specs.Walk as walk;
ghost use Rattle.rtt_table.specs.Shaped.{IsShaped};
ghost use Rattle.rmm_laws.specs.Whole as whole;
ghost use Rattle.granule_cells.specs.Changes.{cells_made, CanPutAll, FitsCells};
ghost use Rattle.granule_cells.specs.OneCell.{cell_seen};
ghost use Rattle.granule_cells.specs.Rooms.{IsRoomFor, makes_table};

use crate::cell_store::CellStore;
use crate::cell_view::CellView;
use crate::change_room::Room;
use crate::changing::{
    change_entries, change_records, change_tag, free_realm, free_rec, free_table, make_rec,
    make_table, put_realm,
};
use memory_map::Pa;
use realm_desc::Rec;
use rmm_spec::{Change, EntryChange, Place};

/// Makes the change, with the room that was taken for it, where the table whose entries it changes lies in the granule at `at`.
#[tactic(auto, unfolding(crate::specs::Changes::cells_made))]
pub fn apply<S: CellStore>(store: &mut S, change: &Change, at: Option<u64>, room: Room)
    requires has { CanPutAll (S.has (S.kept store.old)) change.now }
    requires fits { FitsCells (S.cells_in store.old) at change.now }
    requires room { IsRoomFor change.now room }
    ensures kept { S.kept store.new ≡ S.kept store.old }
    ensures cells { S.cells_in store.new ≡ cells_made (S.cells_in store.old) at change.now }
{
    match *change {
        Change::RealmMade {
            rd,
            root,
            width,
            level,
            ..
        } => {
            let (realm, entries) = room.into_realm();
            let table = entries.at(root_place(rd, width, level));
            put_realm(store, rd, realm, root, table);
        }
        Change::TableMade {
            rd,
            level,
            number,
            rtt,
            ..
        } => {
            if let Some(above) = at {
                let place = place_of(rd, level, number, width_of(store.cell(above)));
                make_table(store, above, number, rtt, room.into_table().at(place));
            }
        }
        _ => apply_in_place(store, change, at),
    }
}

// Makes a change that puts no table in.
#[inline(always)]
#[tactic(auto, unfolding(crate::specs::Changes::cells_made))]
fn apply_in_place<S: CellStore>(store: &mut S, change: &Change, at: Option<u64>)
    requires none { makes_table change.now ≡ false }
    requires has { CanPutAll (S.has (S.kept store.old)) change.now }
    requires fits { FitsCells (S.cells_in store.old) at change.now }
    ensures kept { S.kept store.new ≡ S.kept store.old }
    ensures cells { S.cells_in store.new ≡ cells_made (S.cells_in store.old) at change.now }
{
    match *change {
        Change::Unchanged | Change::RealmMade { .. } | Change::TableMade { .. } => {}
        Change::Retagged(change) => change_tag(store, Some(change)),
        Change::RealmDestroyed { rd, root } => free_realm(store, rd, root),
        Change::RecMade {
            rd,
            rec,
            mpidr,
            flags,
            aux0,
            aux1,
        } => {
            let made = Rec::new(Pa::new(rd), mpidr, flags, Pa::new(aux0), Pa::new(aux1));
            make_rec(store, rec, made, flags);
        }
        Change::RecDestroyed { rec, aux0, aux1 } => free_rec(store, rec, aux0, aux1),
        Change::RecordsChanged { realm, rec } => change_records(store, realm, rec),
        Change::TableDestroyed {
            number,
            rtt,
            entry,
            ..
        } => free_table(store, at, &EntryChange::Replaced { number, entry }, rtt),
        Change::EntriesChanged {
            ref entries,
            page,
            realm,
            rec,
            ..
        } => change_entries(store, at, entries, page, realm, rec),
    }
}

// Where the root of a realm stands.
fn root_place(rd: u64, width: u8, level: u8) -> Place
    requires { IsTrue (is_space width level) }
    ensures place { result ≡ (whole.root_table rd width level).place }
    ensures shaped { IsShaped result }
{
    Place {
        rd,
        level,
        base: 0,
        width,
    }
}

// The width of the address space that a table is of.
fn width_of(cell: CellView<'_>) -> u8
    ensures { result ≡ whole.width_in (cell_seen cell.entry) }
{
    match cell {
        CellView::Rtt(table) => table.place().width,
        _ => 0,
    }
}

// Where a new table stands, in an address space of that width.
#[tactic(auto, unfolding(rmm_spec::specs::Walk::table_size))]
fn place_of(rd: u64, level: u8, number: u64, width: u8) -> Place
    requires { IsShaped (record { rd = rd; level = level; base = number * walk.table_size level; width = width }) }
    ensures place { result ≡ record { rd = rd; level = level; base = number * walk.table_size level; width = width } }
    ensures shaped { IsShaped result }
{
    let size = 1 << (12 + 9 * 4u64.saturating_sub(u64::from(level)));
    Place {
        rd,
        level,
        base: number * size,
        width,
    }
}
