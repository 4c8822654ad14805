//! The change of one cell where it lies.

ghost use Rattle.std.specs.Prelude.{◌≡◌};
ghost use Rattle.rmm_spec.specs.Cell as whole;
ghost use Rattle.rmm_spec.specs.Change.{realm_updated};
ghost use Rattle.granule_cells.specs.Seen.{cell_of};
ghost use Rattle.granule_cells.specs.declared.cell_change.CellChange.TheVariants as changes;
ghost use Rattle.granule_cells.specs.OneCell.{cell_changed, FitsCell};

use crate::entries::change_table;
use crate::{Cell, Descriptor};
use rmm_spec::{EntryChange, RealmUpdate, RecUpdate};

/// What becomes of the realm, of the REC or of the table's entries that a cell holds.
#[derive(Clone, Copy)]
pub enum CellChange {
    Realm(RealmUpdate),
    Rec(RecUpdate),
    Entries(EntryChange),
}

/// Changes a cell. One that isn't what the change means stays.
pub fn change_cell(cell: &mut Cell, change: CellChange)
    requires { FitsCell (cell_of cell.old) change }
    ensures { cell_of cell.new ≡ cell_changed change (cell_of cell.old) }
{
    match change {
        CellChange::Realm(update) => {
            if let Cell::Rd(realm) = cell {
                update_realm(realm, update);
            }
        }
        CellChange::Rec(update) => {
            if let Cell::Rec(rec) = cell {
                rec.update(update);
            }
        }
        CellChange::Entries(change) => {
            if let Cell::Rtt(table) = cell {
                change_table(table, change);
            }
        }
    }
}

/// Updates a realm where it lies, in any way: a REC is counted as its next one.
#[inline(always)]
pub fn update_realm(realm: &mut Descriptor, update: RealmUpdate)
    requires { FitsCell (whole.Rd realm.old) (changes.Realm update) }
    ensures { realm.new ≡ realm_updated update realm.old }
{
    match update {
        RealmUpdate::RecCounted { mpidr, flags } => realm.count_rec(mpidr, flags),
        _ => realm.update(update),
    }
}
