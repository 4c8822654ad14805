//! Patches and cells once more.

ghost use Rattle.std.specs.Prelude.{◌≡◌, IfOk};
ghost use Rattle.granule_cells.specs.OneCell.{cell_seen};
ghost use Rattle.granule_cells.specs.Seen.{cell_of};

use crate::patch::{Patch, Replaced};
use granule_cells::{Cell, CellView, Descriptor};
use std::alloc::{AllocError, Global};

impl Patch {
    ghost use Rattle.std.specs.Prelude.{◌≡◌, IfOk};
    ghost use Rattle.undo_log.specs.Patches.{patched};

    /// Nothing is put in.
    #[tactic(auto, unfolding(crate::specs::Patches::patched))]
    pub fn none(alloc: Global) -> Patch
        ensures { patched result ≡ (λ s. s) }
    {
        Patch {
            items: Vec::new(alloc),
        }
    }

    /// The same patch once more.
    #[tactic(auto, unfolding(crate::specs::Patches::patched))]
    pub fn copy(&self, alloc: Global) -> Result<Patch, AllocError>
        ensures { IfOk result (λ patch. patched patch ≡ patched self.now) }
    {
        let mut items = Vec::new(alloc);
        for item in &self.items {
            items.push(item.copy(alloc)?)?;
        }
        Ok(Patch { items })
    }
}

impl Replaced {
    ghost use Rattle.std.specs.Prelude.{◌≡◌, IfOk};
    ghost use Rattle.undo_log.specs.Patches.{put_in};

    // What puts the same in.
    fn copy(&self, alloc: Global) -> Result<Replaced, AllocError>
        ensures { IfOk result (λ copy. put_in copy ≡ put_in self.now) }
    {
        match self {
            Replaced::Cell { granule, cell } => Ok(Replaced::Cell {
                granule: *granule,
                cell: copied_view(alloc, CellView::of(cell))?,
            }),
            Replaced::Vmid { vmid, realm } => Ok(Replaced::Vmid {
                vmid: *vmid,
                realm: *realm,
            }),
            Replaced::RecCount { rd, count } => Ok(Replaced::RecCount {
                rd: *rd,
                count: *count,
            }),
            Replaced::Places(places) => Ok(Replaced::Places(places.copy(alloc)?)),
        }
    }
}

/// A copy of a cell that is looked at where it lies.
pub(crate) fn copied_view(alloc: Global, view: CellView<'_>) -> Result<Cell, AllocError>
    ensures { IfOk result (λ cell. cell_of cell ≡ cell_seen view.entry) }
{
    match view {
        CellView::Undelegated => Ok(Cell::Undelegated),
        CellView::Delegated => Ok(Cell::Delegated),
        CellView::Rd(realm) => Ok(Cell::Rd(Descriptor::new(alloc, *realm)?)),
        CellView::Rec(rec) => Ok(Cell::Rec(*rec)),
        CellView::RecAux => Ok(Cell::RecAux),
        CellView::Data => Ok(Cell::Data),
        CellView::Rtt(table) => Ok(Cell::Rtt(table.copy(alloc)?)),
    }
}
