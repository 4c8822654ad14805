//! The entries of one table.

ghost use Rattle.std.specs.Prelude.{◌≡◌, IsTrue};
ghost use Rattle.rmm_laws.specs.Whole.{entries_changed};
ghost use Rattle.granule_cells.specs.OneCell.{fits_entries};

use rmm_spec::EntryChange;
use rtt_table::Table;

/// Changes the entries of a table.
#[inline(always)]
pub fn change_table(table: &mut Table, change: EntryChange)
    requires { IsTrue (fits_entries change) }
    ensures { table.new ≡ record table.old { entries = entries_changed change table.old.entries } }
{
    match change {
        EntryChange::Replaced { number, entry } => {
            table.set_entry((number % 512) as usize, entry);
        }
        EntryChange::RipasSet { first, last, ripas } => {
            let from = (first % 512) as usize;
            let to = (last - first / 512 * 512) as usize;
            table.set_ripas(from, to, ripas);
        }
    }
}
