//! Whether two patches lead to one state.

ghost use Rattle.std.specs.Prelude.{◌≡◌, ℕ, All, IsTrue, true, false};
ghost use Rattle.granule_cells.specs.OneCell.{cell_seen};
ghost use Rattle.undo_log.specs.Patches.{patched, standing_of, state_at};
ghost use Rattle.undo_log.specs.PatchKeys as keys;
ghost use Rattle.undo_log.specs.PatchKeys.{compared, AreAlikeAt, AreAlikeIn};
ghost use Rattle.spec_machine.specs.Unmeasured.{unmeasured};

use crate::patch::{Patch, Replaced};
use crate::same::same_cell;
use crate::unmeasured::like_cells;
use granule_cells::{Cell, CellStore, CellView};
use memory_map::granule_at;
use spec_machine::Machine;

/// Where it answers true, the two patches lead to one state from the machine's.
pub fn are_same(machine: &Machine, one: &Patch, other: &Patch) -> bool
    ensures { IsTrue result → state_at (patched one.now (standing_of machine.now)) ≡ state_at (patched other.now (standing_of machine.now)) }
{
    are_alike(machine, one, other, true)
}

/// Where it answers true, the states that the two patches lead to are one but for the realms' measurements.
pub fn are_like(machine: &Machine, one: &Patch, other: &Patch) -> bool
    ensures { IsTrue result → unmeasured (state_at (patched one.now (standing_of machine.now)))
        ≡ unmeasured (state_at (patched other.now (standing_of machine.now))) }
{
    are_alike(machine, one, other, false)
}

// Whether the same lies in each granule after both patches, with what was measured or without.
fn are_alike(machine: &Machine, one: &Patch, other: &Patch, measured: bool) -> bool
    ensures { IsTrue result → (granule : ℕ) → AreAlikeAt measured one.now.items.items other.now.items.items (standing_of machine.now) granule }
{
    are_alike_in(machine, one.items.as_slice(), one, other, measured)
        && are_alike_in(machine, other.items.as_slice(), one, other, measured)
}

// The same of the granules that some items name.
fn are_alike_in(
    machine: &Machine,
    items: &[Replaced],
    one: &Patch,
    other: &Patch,
    measured: bool,
) -> bool
    ensures { IsTrue result → All (AreAlikeIn measured one.now.items.items other.now.items.items (standing_of machine.now)) items.now }
{
    for item in items {
        if !is_alike_in(machine, item, one, other, measured) {
            return false;
        }
    }
    true
}

// The same of the granule that one item names.
fn is_alike_in(
    machine: &Machine,
    item: &Replaced,
    one: &Patch,
    other: &Patch,
    measured: bool,
) -> bool
    ensures { IsTrue result → AreAlikeIn measured one.now.items.items other.now.items.items (standing_of machine.now) item.now }
{
    match item {
        Replaced::Cell { granule, .. } => alike(
            cell_after(machine, one, *granule),
            cell_after(machine, other, *granule),
            measured,
        ),
        Replaced::Vmid { .. } | Replaced::RecCount { .. } | Replaced::Places(_) => true,
    }
}

// What lies in the granule after the patch.
fn cell_after<'a>(machine: &'a Machine, patch: &'a Patch, granule: u64) -> CellView<'a>
    ensures { cell_seen result ≡ keys.cell_after patch.now.items.items (standing_of machine.now) granule }
{
    let list = &machine.granules.list;
    if granule_at(&list.config, granule).is_none() {
        return list.cell(granule);
    }
    match patch.cell(granule) {
        Some(cell) => CellView::of(cell),
        None => list.cell(granule),
    }
}

impl Patch {
    ghost use Rattle.std.specs.Prelude.{◌≡◌, IfNone, IfSome, IsTrue};
    ghost use Rattle.rmm_spec.specs.Lookup.{is_granule};
    ghost use Rattle.granule_cells.specs.Seen.{cell_of};
    ghost use Rattle.undo_log.specs.Patches.{Standing};
    ghost use Rattle.undo_log.specs.PatchKeys.{cell_after};

    // The cell that is put in the granule last, where one is.
    fn cell(&self, granule: u64) -> Option<&Cell>
        ensures some { IfSome result (λ cell. (s : Standing) → IsTrue (is_granule s.config.granules granule)
            → cell_of cell.now ≡ cell_after self.now.items.items s granule) }
        ensures none { IfNone result ((s : Standing) → s.whole.cells granule ≡ cell_after self.now.items.items s granule) }
    {
        for item in &self.items {
            if let Some(cell) = item.cell_in(granule) {
                return Some(cell);
            }
        }
        None
    }
}

impl Replaced {
    ghost use Rattle.std.specs.Prelude.{◌≡◌, IfNone, IfSome, IsTrue};
    ghost use Rattle.rmm_spec.specs.Lookup.{is_granule};
    ghost use Rattle.granule_cells.specs.Seen.{cell_of};
    ghost use Rattle.undo_log.specs.Patches.{put_in, Standing};

    // The cell that it puts in the granule, where it does.
    fn cell_in(&self, granule: u64) -> Option<&Cell>
        ensures some { IfSome result (λ cell. (s : Standing) → IsTrue (is_granule s.config.granules granule)
            → cell_of cell.now ≡ (put_in self.now s).whole.cells granule) }
        ensures none { IfNone result ((s : Standing) → s.whole.cells granule ≡ (put_in self.now s).whole.cells granule) }
    {
        match self {
            Replaced::Cell {
                granule: place,
                cell,
            } if *place == granule => Some(cell),
            _ => None,
        }
    }
}

// Whether two cells are the same, with what was measured or without.
fn alike(one: CellView<'_>, other: CellView<'_>, measured: bool) -> bool
    ensures { IsTrue result → compared measured (cell_seen one.entry) ≡ compared measured (cell_seen other.entry) }
{
    if measured {
        same_cell(one, other)
    } else {
        like_cells(one, other)
    }
}
