//! A cell for each granule.

ghost use Rattle.std.specs.Prelude.{◌≡◌, ◌≤◌, length};
ghost use Rattle.spec_machine.specs.GranulePlace.{count_in, room_in};

use crate::granule_places::GranulePlaces;
use crate::slot_list::SlotList;
use granule_cells::{Cell, CellChange, CellStore, CellView};
use memory_map::{Config, GRANULE_BYTES, Pa};
use realm_desc::{Realm, Rec};
use rmm_spec::Tag;
use rtt_table::{Cells, Table};
use std::alloc::{AllocError, Global};

/// The cells of a machine's granules, each at its granule's place. A granule without a place is the host's.
#[derive(Drop)]
pub struct CellList {
    pub config: Config,
    pub(crate) places: GranulePlaces,
    // with room for all, so that no further cell takes memory
    pub(crate) cells: SlotList,
    ghost each: { length cells.items ≡ count_in places },
    ghost room: { room_in places ≤ cells.room },
    ghost granules: { places.granules ≡ config.granules },
}

impl CellList {
    ghost use Rattle.std.specs.Prelude.{◌≡◌, ◌/◌, ◌%◌, [], IfOk, IfSome, IfNone, IsTrue, None, Some, option_copied, unwrap_or};
    ghost use Rattle.rmm_spec.specs.declared.tag.Tag.TheVariants as tags;
    ghost use Rattle.rmm_spec.specs.Cell as spec;
    ghost use Rattle.rmm_spec.specs.Cell.{put, tag_of, realms_of, recs_of, tables_of};
    ghost use Rattle.rmm_spec.specs.Lookup.{is_granule};
    ghost use Rattle.spec_machine.specs.Whole.{cells_of};
    ghost use Rattle.spec_machine.specs.Placed.{IsPlace};
    ghost use Rattle.spec_machine.specs.GranulePlace.{place_in};

    /// Granules that are all the host's.
    pub(crate) fn new(alloc: Global, config: Config) -> Result<CellList, AllocError>
        ensures size { IfOk result (λ list. list.config ≡ config) }
        ensures cells { IfOk result (λ list. cells_of list ≡ (λ _. spec.Undelegated)) }
    {
        let places = GranulePlaces::new(alloc, config.granules() as usize)?;
        let cells = SlotList::new(alloc, places.count(), places.room())?;
        Ok(CellList {
            config,
            places,
            cells,
        })
    }

    /// The place of the granule at the address, where one is and has one.
    #[inline(always)]
    pub(crate) fn place(&self, address: u64) -> Option<usize>
        ensures some { IfSome result (IsPlace self.now address) }
        ensures none { IfNone result (cells_of self.now address ≡ spec.Undelegated) }
    {
        if address % GRANULE_BYTES != 0 {
            return None;
        }
        let number = (address / GRANULE_BYTES) as usize;
        if number < self.places.near() {
            return Some(number);
        }
        self.far_place(address)
    }

    // The same of a granule that isn't among the first.
    #[cold]
    #[inline(never)]
    fn far_place(&self, address: u64) -> Option<usize>
        requires { address % 4096 ≡ 0 }
        ensures some { IfSome result (IsPlace self.now address) }
        ensures none { IfNone result (cells_of self.now address ≡ spec.Undelegated) }
    {
        self.places.place((address / GRANULE_BYTES) as usize)
    }

    // The place of the granule, which it gets where it has none.
    #[inline(always)]
    pub(crate) fn made_place(&mut self, granule: u64) -> usize
        requires { IsTrue (is_granule self.old.config.granules granule) }
        ensures size { self.new.config ≡ self.old.config }
        ensures cells { cells_of self.new ≡ cells_of self.old }
        ensures place { IsPlace self.new granule result }
    {
        let number = (granule / GRANULE_BYTES) as usize;
        if number < self.places.near() {
            number
        } else {
            self.far_made_place(granule)
        }
    }

    // The same of a granule that isn't among the first.
    #[cold]
    #[inline(never)]
    fn far_made_place(&mut self, granule: u64) -> usize
        requires { IsTrue (is_granule self.old.config.granules granule) }
        ensures size { self.new.config ≡ self.old.config }
        ensures cells { cells_of self.new ≡ cells_of self.old }
        ensures place { IsPlace self.new granule result }
    {
        match self.places.place((granule / GRANULE_BYTES) as usize) {
            Some(place) => place,
            None => self.make_place(granule),
        }
    }

    // Gives the granule a place, and cells to its block.
    fn make_place(&mut self, granule: u64) -> usize
        requires granule { IsTrue (is_granule self.old.config.granules granule) }
        requires none { place_in self.old.places (granule / 4096) ≡ None }
        ensures size { self.new.config ≡ self.old.config }
        ensures cells { cells_of self.new ≡ cells_of self.old }
        ensures place { IsPlace self.new granule result }
    {
        let number = (granule / GRANULE_BYTES) as usize;
        let place = self.places.make(number);
        self.cells.push_block();
        place
    }

    /// The state of the granule at the address. Nothing is kept of what is no granule, and of one that nothing has touched.
    #[inline(always)]
    pub(crate) fn tag(&self, address: u64) -> Option<Tag>
        ensures there { IfSome result (λ _. IsTrue (is_granule self.now.config.granules address)) }
        ensures tag { unwrap_or result tags.Undelegated ≡ tag_of (cells_of self.now address) }
    {
        if address % GRANULE_BYTES != 0 {
            return None;
        }
        let number = (address / GRANULE_BYTES) as usize;
        if number < self.places.near() {
            Some(self.cells.tag(number))
        } else {
            self.far_tag(address)
        }
    }

    // The same of a granule that isn't among the first.
    #[cold]
    #[inline(never)]
    fn far_tag(&self, address: u64) -> Option<Tag>
        ensures there { IfSome result (λ _. IsTrue (is_granule self.now.config.granules address)) }
        ensures tag { unwrap_or result tags.Undelegated ≡ tag_of (cells_of self.now address) }
    {
        match self.place(address) {
            Some(place) => Some(self.cells.tag(place)),
            None => None,
        }
    }

    /// The realm whose descriptor lies in the granule at the address, where one does.
    #[inline(always)]
    pub fn realm_in(&self, address: u64) -> Option<&Realm>
        ensures { option_copied result ≡ realms_of (cells_of self.now) address }
    {
        match self.place(address) {
            Some(place) => self.cells.realm(place),
            None => None,
        }
    }

    /// The REC whose granule is at the address, where it is one's.
    #[inline(always)]
    pub fn rec_in(&self, address: u64) -> Option<&Rec>
        ensures { option_copied result ≡ recs_of (cells_of self.now) address }
    {
        match self.place(address) {
            Some(place) => self.cells.rec(place),
            None => None,
        }
    }

    /// The table that lies in the granule at the address, where one does.
    #[inline(always)]
    pub(crate) fn table_in(&self, address: u64) -> Option<&Table>
        ensures { option_copied result ≡ tables_of (cells_of self.now) address }
    {
        match self.place(address) {
            Some(place) => self.cells.table(place),
            None => None,
        }
    }

    /// Whether the address lies in one of the first granules, which have their numbers for places.
    #[inline(always)]
    pub(crate) fn is_first(&self, address: u64) -> bool {
        ((address / GRANULE_BYTES) as usize) < self.places.near()
    }

    /// The same, where the granule is among the first, so that no call is needed.
    #[inline(always)]
    pub(crate) fn first_table_in(&self, address: u64) -> Option<&Table>
        ensures { IfSome result (λ table. Some table.now ≡ tables_of (cells_of self.now) address) }
    {
        let number = (address / GRANULE_BYTES) as usize;
        if address % GRANULE_BYTES != 0 || number >= self.places.near() {
            return None;
        }
        match self.cells.table(number) {
            Some(table) => Some(table),
            None => None,
        }
    }
}

impl Cells for CellList {
    ghost use Rattle.spec_machine.specs.Whole.{tables_in};
    ghost use Rattle.spec_machine.specs.WholeLaws.{tables_in-placed};

    ghost cells = { tables_in };

    ghost are_placed = { tables_in-placed };

    fn table(&self, pa: Pa) -> Option<&Table> {
        self.table_in(pa.address())
    }
}

impl CellStore for CellList {
    ghost use Rattle.rmm_spec.specs.HistoryText.{Config};
    ghost use Rattle.rmm_spec.specs.Lookup.{is_granule};
    ghost use Rattle.spec_machine.specs.Whole.{cells_of};

    ghost cells_in = { cells_of };

    ghost Kept = { Config };

    ghost kept = { λ list. list.config };

    ghost has = { λ config. is_granule config.granules };

    #[inline(always)]
    fn cell(&self, granule: u64) -> CellView<'_> {
        match self.place(granule) {
            Some(place) => self.cells.cell(place),
            None => CellView::Undelegated,
        }
    }

    #[inline(always)]
    fn put(&mut self, granule: u64, cell: Cell) -> Cell {
        let place = self.made_place(granule);
        self.cells.put(place, cell)
    }

    #[inline(always)]
    fn change(&mut self, granule: u64, change: CellChange) {
        let Some(place) = self.place(granule) else {
            return;
        };
        self.cells.change(place, change);
    }
}
