//! What is kept of one granule, in sixteen bytes.

ghost use Rattle.std.specs.Prelude.{◌≡◌, List};
ghost use Rattle.rmm_spec.specs.Cell.{tag_of};

use granule_cells::{Cell, CellChange, CellView, Descriptor, change_table, update_realm};
use realm_desc::Rec;
use rmm_spec::Tag;
use rtt_table::Table;
use std::mem::size_of;

/// A granule's state with what lies in it, so that the two agree. A REC stands beside the slots: its granule's slot has its number.
#[derive(Drop)]
pub(crate) enum Slot {
    Undelegated,
    Delegated,
    Rd(Descriptor),
    Rec(usize),
    RecAux,
    Data,
    Rtt(Table),
}

const _: () = prove!(size_of::<Slot>() == 16);

/// A REC, with the place of the slot that has its number.
#[derive(Clone, Copy)]
pub(crate) struct HousedRec {
    pub(crate) rec: Rec,
    pub(crate) home: usize,
}

impl Slot {
    ghost use Rattle.std.specs.Prelude.{◌<◌, ℕ, [], length, IfErr, IfOk};
    ghost use Rattle.rmm_spec.specs.Cell as spec;
    ghost use Rattle.granule_cells.specs.Seen.{cell_of};
    ghost use Rattle.granule_cells.specs.OneCell.{cell_changed, cell_seen, FitsCell};
    ghost use Rattle.spec_machine.specs.declared.slot.HousedRec.{HousedRec};
    ghost use Rattle.spec_machine.specs.declared.slot.Slot.TheVariants as kind;
    ghost use Rattle.spec_machine.specs.Held.{number_of, seen};

    /// The slot of a cell. A REC has no number yet, and is returned.
    #[inline(always)]
    pub(crate) fn of(cell: Cell) -> Result<Slot, Rec>
        ensures plain { IfOk result (λ slot. number_of slot ≡ 0) }
        ensures slot { IfOk result (λ slot. seen [] slot ≡ cell_of cell) }
        ensures rec { IfErr result (λ rec. spec.Rec rec ≡ cell_of cell) }
    {
        match cell {
            Cell::Undelegated => Ok(Slot::Undelegated),
            Cell::Delegated => Ok(Slot::Delegated),
            Cell::Rd(realm) => Ok(Slot::Rd(realm)),
            Cell::Rec(rec) => Err(rec),
            Cell::RecAux => Ok(Slot::RecAux),
            Cell::Data => Ok(Slot::Data),
            Cell::Rtt(table) => Ok(Slot::Rtt(table)),
        }
    }

    /// The cell of a slot that has no number.
    #[inline(always)]
    pub(crate) fn into_cell(self) -> Cell
        requires { number_of self ≡ 0 }
        ensures { (recs : List HousedRec) → cell_of result ≡ seen recs self }
    {
        match self {
            Slot::Undelegated => Cell::Undelegated,
            Slot::Delegated => Cell::Delegated,
            Slot::Rd(realm) => Cell::Rd(realm),
            Slot::Rec(_) => unreachable!(),
            Slot::RecAux => Cell::RecAux,
            Slot::Data => Cell::Data,
            Slot::Rtt(table) => Cell::Rtt(table),
        }
    }

    /// What lies in the granule, where a REC stands among these.
    #[inline(always)]
    pub(crate) fn shown<'a>(&'a self, recs: &'a [HousedRec]) -> CellView<'a>
        requires { (number : ℕ) → self.now ≡ kind.Rec number → number < length recs.now }
        ensures { cell_seen result ≡ seen recs.now self.now }
    {
        match self {
            Slot::Undelegated => CellView::Undelegated,
            Slot::Delegated => CellView::Delegated,
            Slot::Rd(descriptor) => CellView::Rd(descriptor.realm()),
            Slot::Rec(number) => CellView::Rec(&recs[*number].rec),
            Slot::RecAux => CellView::RecAux,
            Slot::Data => CellView::Data,
            Slot::Rtt(table) => CellView::Rtt(table),
        }
    }

    /// Changes what lies in a granule whose slot has no number. What isn't what the change means stays.
    #[inline(always)]
    pub(crate) fn change(&mut self, change: CellChange)
        requires plain { number_of self.old ≡ 0 }
        requires fits { FitsCell (seen [] self.old) change }
        ensures plain { number_of self.new ≡ 0 }
        ensures cell { (recs : List HousedRec) → seen recs self.new ≡ cell_changed change (seen recs self.old) }
    {
        match change {
            CellChange::Realm(update) => {
                if let Slot::Rd(realm) = self {
                    update_realm(realm, update);
                }
            }
            CellChange::Rec(_) => {}
            CellChange::Entries(change) => {
                if let Slot::Rtt(table) = self {
                    change_table(table, change);
                }
            }
        }
    }

    /// The granule's state alone.
    #[inline(always)]
    pub(crate) fn tag(&self) -> Tag
        ensures { (recs : List HousedRec) → result ≡ tag_of (seen recs self.now) }
    {
        match self {
            Slot::Undelegated => Tag::Undelegated,
            Slot::Delegated => Tag::Delegated,
            Slot::Rd(_) => Tag::Rd,
            Slot::Rec(_) => Tag::Rec,
            Slot::RecAux => Tag::RecAux,
            Slot::Data => Tag::Data,
            Slot::Rtt(_) => Tag::Rtt,
        }
    }
}

impl HousedRec {
    ghost use Rattle.std.specs.Prelude.{◌≡◌};
    ghost use Rattle.rmm_spec.specs.Cell as spec;
    ghost use Rattle.granule_cells.specs.OneCell.{cell_changed, FitsCell};

    /// Changes the REC, where a REC is meant.
    #[inline(always)]
    pub(crate) fn change(&mut self, change: CellChange)
        requires { FitsCell (spec.Rec self.old.rec) change }
        ensures rec { spec.Rec self.new.rec ≡ cell_changed change (spec.Rec self.old.rec) }
        ensures home { self.new.home ≡ self.old.home }
    {
        if let CellChange::Rec(update) = change {
            self.rec.update(update);
        }
    }
}
