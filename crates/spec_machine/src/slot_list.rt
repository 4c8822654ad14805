//! The cells of granules, each at its place.

ghost use Rattle.std.specs.Prelude.{◌≡◌, ◌+◌, ◌<◌, ◌≤◌, ◌++◌, [], length, replicate, vec_len, vec_capacity};
ghost use Rattle.rmm_spec.specs.Cell as spec;
ghost use Rattle.spec_machine.specs.declared.slot.Slot.TheVariants.{Undelegated};

use crate::slot::{HousedRec, Slot};
use granule_cells::{Cell, CellChange, CellView};
use realm_desc::{Realm, Rec};
use rmm_spec::Tag;
use rtt_table::Table;
use std::alloc::{AllocError, Global};
use std::marker::Model;
use std::mem::replace;

/// How many granules get their cells together.
const BLOCK: usize = 512;

/// The cells of granules, each at its place and in sixteen bytes. RECs, which are larger and few, stand beside them without gaps.
#[derive(Drop)]
pub(crate) struct SlotList {
    pub(crate) slots: Vec<Slot>,
    // with room for as many as there are slots, so that a REC takes no memory
    pub(crate) recs: Vec<HousedRec>,
}

impl Model for SlotList {
    ghost use Rattle.std.specs.Prelude.{vec_capacity};
    ghost use Rattle.spec_machine.specs.Held.{held_in, AreKept, HeldCells};

    ghost Value = { HeldCells };

    ghost view = { λ s. held_in s.slots.items s.recs.items (vec_capacity s.slots) };

    ghost invariant = { λ s. AreKept s.slots.items s.recs.items (vec_capacity s.slots) (vec_capacity s.recs) };
}

impl SlotList {
    ghost use Rattle.std.specs.Prelude.{◌≡◌, ◌+◌, ◌<◌, ◌≤◌, ◌++◌, length, replicate, is_some, option_copied, IfOk, IsTrue, None};
    ghost use Rattle.rmm_spec.specs.Cell.{rec_in, realm_in, table_in, tag_of};
    ghost use Rattle.granule_cells.specs.Seen.{cell_of};
    ghost use Rattle.granule_cells.specs.OneCell.{cell_changed, cell_seen, FitsCell};
    ghost use Rattle.spec_machine.specs.Held.{cell_at, changed_in, with_cell};

    /// So many places of granules that are all the host's, and room for further ones.
    pub(crate) fn new(alloc: Global, count: usize, room: usize) -> Result<SlotList, AllocError>
        requires { count ≤ room }
        ensures items { IfOk result (λ list. list.items ≡ replicate count spec.Undelegated) }
        ensures room { IfOk result (λ list. list.room ≡ room) }
    {
        let mut slots = Vec::with_capacity(alloc, room)?;
        push_free(&mut slots, count);
        let recs = Vec::with_capacity(alloc, room)?;
        Ok(SlotList { slots, recs })
    }

    /// How many places there are.
    pub(crate) fn len(&self) -> usize
        ensures { result ≡ length self.now.items }
    {
        self.slots.len()
    }

    /// The places of one block more, of granules that are all the host's.
    pub(crate) fn push_block(&mut self)
        requires { length self.old.items + 512 ≤ self.old.room }
        ensures items { self.new.items ≡ self.old.items ++ replicate 512 spec.Undelegated }
        ensures len { length self.new.items ≡ length self.old.items + 512 }
        ensures room { self.new.room ≡ self.old.room }
    {
        push_free(&mut self.slots, BLOCK);
    }

    /// The state of the granule at the place.
    #[inline(always)]
    pub(crate) fn tag(&self, place: usize) -> Tag
        requires { place < length self.now.items }
        ensures { result ≡ tag_of (cell_at self.now place) }
    {
        self.slots[place].tag()
    }

    /// The realm whose descriptor lies in the granule at the place, where one does.
    #[inline(always)]
    pub(crate) fn realm(&self, place: usize) -> Option<&Realm>
        requires { place < length self.now.items }
        ensures { option_copied result ≡ realm_in (cell_at self.now place) }
    {
        match &self.slots[place] {
            Slot::Rd(descriptor) => Some(descriptor.realm()),
            _ => None,
        }
    }

    /// The REC whose granule is at the place, where it is one's.
    #[inline(always)]
    pub(crate) fn rec(&self, place: usize) -> Option<&Rec>
        requires { place < length self.now.items }
        ensures { option_copied result ≡ rec_in (cell_at self.now place) }
    {
        match &self.slots[place] {
            Slot::Rec(number) => Some(&self.recs[*number].rec),
            _ => None,
        }
    }

    /// The table that lies in the granule at the place, where one does.
    #[inline(always)]
    pub(crate) fn table(&self, place: usize) -> Option<&Table>
        requires { place < length self.now.items }
        ensures { option_copied result ≡ table_in (cell_at self.now place) }
    {
        match &self.slots[place] {
            Slot::Rtt(table) => Some(table),
            _ => None,
        }
    }

    /// What lies in the place.
    #[inline(always)]
    pub(crate) fn cell(&self, place: usize) -> CellView<'_>
        requires { place < length self.now.items }
        ensures { cell_seen result ≡ cell_at self.now place }
    {
        self.slots[place].shown(self.recs.as_slice())
    }

    /// Puts a cell in the place of the one that is there, and returns that.
    #[inline(always)]
    pub(crate) fn put(&mut self, place: usize, cell: Cell) -> Cell
        requires { place < length self.old.items }
        ensures put { self.new ≡ with_cell self.old place (cell_of cell) }
        ensures given { cell_of result ≡ cell_at self.old place }
    {
        if let Some(rec) = self.rec(place) {
            let rec = *rec;
            self.remove_rec(place);
            self.fill(place, cell);
            return Cell::Rec(rec);
        }
        self.fill(place, cell)
    }

    /// Changes the cell that is there, where it lies. One that isn't what the change means stays.
    #[inline(always)]
    pub(crate) fn change(&mut self, place: usize, change: CellChange)
        requires within { place < length self.old.items }
        requires fits { FitsCell (cell_at self.old place) change }
        ensures { self.new ≡ changed_in self.old place (cell_changed change) }
    {
        let Slot::Rec(number) = &self.slots[place] else {
            self.slots[place].change(change);
            return;
        };
        let number = *number;
        self.recs[number].change(change);
    }

    // Takes a REC out of its place. The last one gets the number that is free then.
    #[cold]
    #[inline(never)]
    fn remove_rec(&mut self, place: usize)
        requires within { place < length self.old.items }
        requires rec { IsTrue (is_some (rec_in (cell_at self.old place))) }
        ensures { self.new ≡ with_cell self.old place spec.Undelegated }
    {
        let Slot::Rec(number) = &self.slots[place] else {
            unreachable!()
        };
        let number = *number;
        let last = self.recs.len() - 1;
        let home = self.recs[last].home;
        self.slots[home] = Slot::Rec(number);
        self.slots[place] = Slot::Undelegated;
        let _gone = self.recs.swap_remove(number);
    }

    // Puts a cell in the place of one that is no REC's, and returns that.
    #[inline(always)]
    fn fill(&mut self, place: usize, cell: Cell) -> Cell
        requires within { place < length self.old.items }
        requires plain { rec_in (cell_at self.old place) ≡ None }
        ensures put { self.new ≡ with_cell self.old place (cell_of cell) }
        ensures given { cell_of result ≡ cell_at self.old place }
    {
        let slot = match Slot::of(cell) {
            Ok(slot) => slot,
            Err(rec) => return self.put_rec(place, rec),
        };
        replace(&mut self.slots[place], slot).into_cell()
    }

    // The same of a REC. There is room for it, since not every slot has one yet.
    fn put_rec(&mut self, place: usize, rec: Rec) -> Cell
        requires within { place < length self.old.items }
        requires plain { rec_in (cell_at self.old place) ≡ None }
        ensures put { self.new ≡ with_cell self.old place (spec.Rec rec) }
        ensures given { cell_of result ≡ cell_at self.old place }
    {
        let number = self.recs.len();
        self.recs.push_reserved(HousedRec { rec, home: place });
        replace(&mut self.slots[place], Slot::Rec(number)).into_cell()
    }
}

// Puts the slots of so many granules after the others, for which there is room.
fn push_free(slots: &mut Vec<Slot>, count: usize)
    requires { vec_len slots.old + count ≤ vec_capacity slots.old }
    ensures items { slots.new.items ≡ slots.old.items ++ replicate count Undelegated }
    ensures len { vec_len slots.new ≡ vec_len slots.old + count }
    ensures capacity { vec_capacity slots.new ≡ vec_capacity slots.old }
{
    for _ in 0..count {
        slots.push_reserved(Slot::Undelegated);
    }
}
