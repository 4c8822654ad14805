//! The walk by links.

ghost use Rattle.std.specs.Prelude.{◌≡◌, ℕ, Some};
ghost use Rattle.rmm_spec.specs.State.{State};
ghost use Rattle.rmm_spec.specs.Walk.{IsWalk};
ghost use Rattle.rmm_spec.specs.Table.{TableRecord, entry_index};
ghost use Rattle.rmm_spec.specs.TableCells.{table_in, with_tables, IsWalkable};
ghost use Rattle.rtt_table.specs.Read.{IsRead};

use crate::cells::Cells;
use crate::index_of;
use memory_map::{Ipa, Pa};
use rmm_spec::Entry;

/// Where a walk ended: the granule of a table, its level, and its entry for the address.
#[derive(Clone, Copy)]
pub struct Reached {
    pub pa: Pa,
    pub level: u8,
    pub entry: Entry,
}

/// The deepest table up to level `max` that covers `ipa`, from the root of a realm on.
pub fn walk<C: Cells>(cells: &C, root: Pa, ipa: Ipa, max: u8) -> Reached
    requires { IsWalkable (C.cells cells.now) root ipa max }
    ensures { (s : State) (t : TableRecord) → table_in (C.cells cells.now) root ≡ Some t
        → IsWalk (with_tables s (C.cells cells.now)) t.place.rd ipa max result.level result.pa result.entry }
{
    let mut reached = read(cells, root, ipa);
    while reached.level < max {
        let Entry::Table(next) = reached.entry else {
            return reached;
        };
        reached = read(cells, Pa::new(next), ipa);
    }
    reached
}

// The table at an address, and its entry for another.
fn read<C: Cells>(cells: &C, pa: Pa, ipa: Ipa) -> Reached
    requires { (t : TableRecord) × (table_in (C.cells cells.now) pa ≡ Some t) }
    ensures { IsRead (C.cells cells.now) ipa pa result.pa result.level result.entry }
{
    let Some(table) = cells.table(pa) else {
        unreachable!()
    };
    let level = table.place().level;
    let entry = table.entry(index_of(level, ipa));
    Reached { pa, level, entry }
}
