//! What a machine keeps of all granules, and what is looked up of one.

use crate::cell_list::CellList;
use crate::machine::Machine;
use crate::near::Near;
use crate::places::Places;
use granule_cells::Side;
use memory_map::{MOST_GRANULES, granule_at};
use realm_desc::{Realm, Rec};
use rmm_spec::Tag;
use rtt_table::Table;
use std::alloc::Global;

/// A cell for each granule of a machine, the side table, and each CPU's place. Where tables were found before is no part of the state.
#[derive(Drop)]
pub struct Granules {
    pub alloc: Global,
    pub list: CellList,
    pub side: Side,
    pub places: Places,
    pub(crate) near: Near,
}

impl Machine {
    ghost use Rattle.std.specs.Prelude.{◌≡◌, ◌≤◌, option_copied};
    ghost use Rattle.rmm_spec.specs.declared.tag.Tag.TheVariants as tags;
    ghost use Rattle.rmm_spec.specs.Cell.{tag_of};
    ghost use Rattle.rmm_spec.specs.Lookup.{has_tag};
    ghost use Rattle.spec_machine.specs.View.{state_of, tables_at};
    ghost use Rattle.spec_machine.specs.Whole.{cells_of};

    /// How many granules there are.
    #[tactic(auto, unfolding(crate::specs::Whole::state_in, rmm_spec::specs::Flat::flat_state))]
    pub fn granule_count(&self) -> usize
        ensures is { result ≡ (state_of self.now).config.granules }
        ensures most { result ≤ MOST_GRANULES }
    {
        self.granules.list.config.granules() as usize
    }

    /// The tag of a granule, which is the host's where none is at the address.
    #[tactic(auto, unfolding(crate::specs::Whole::state_in, rmm_spec::specs::Flat::flat_state))]
    pub fn tag(&self, address: u64) -> Tag
        ensures { result ≡ (state_of self.now).tag address }
    {
        match self.granules.list.tag(address) {
            Some(tag) => tag,
            None => Tag::Undelegated,
        }
    }

    /// The realm whose descriptor is at the address, where it lies.
    #[tactic(auto, unfolding(crate::specs::Whole::state_in, rmm_spec::specs::Flat::flat_state))]
    pub fn realm_in(&self, rd: u64) -> Option<&Realm>
        ensures { option_copied result ≡ (state_of self.now).realm rd }
    {
        self.granules.list.realm_in(rd)
    }

    /// The REC whose granule is at the address, where it lies.
    #[tactic(auto, unfolding(crate::specs::Whole::state_in, rmm_spec::specs::Flat::flat_state))]
    pub fn rec_in(&self, address: u64) -> Option<&Rec>
        ensures { option_copied result ≡ (state_of self.now).rec address }
    {
        self.granules.list.rec_in(address)
    }

    /// The table in the granule at the address, where it lies.
    pub fn table_in(&self, address: u64) -> Option<&Table>
        ensures { option_copied result ≡ tables_at self.now address }
    {
        self.granules.list.table_in(address)
    }

    // Whether the address, of which nothing is kept, is that of a granule with the tag.
    #[cold]
    #[inline(never)]
    pub(crate) fn has_tag_untouched(&self, address: u64, tag: Tag) -> bool
        requires { tags.Undelegated ≡ tag_of (cells_of self.now.granules.list address) }
        ensures { result ≡ has_tag (state_of self.now) address tag }
    {
        match granule_at(&self.granules.list.config, address) {
            Some(_) => Tag::Undelegated == tag,
            None => false,
        }
    }
}
