//! What is looked up for a command's rows in the cells that are held and in the side table.

ghost use Rattle.std.specs.Prelude.{◌≡◌};

use crate::held_pairs::HeldPairs;
use crate::held_tables::start_of;
use crate::taking::is_granule;
use command_rows::Sight;
use command_words::is_tag;
use granule_cells::{Cell, Side};
use memory_map::{Config, Pa, entry_number, table_number};
use realm_desc::{Realm, Rec};
use rmm_spec::{Entry, EntryTest, Tag, Version, Walked};

/// Held cells with the side table, on a machine of some size. It stands for the one state that the cells tell of. Who plans what to
/// take has no side table.
#[derive(Drop)]
pub(crate) struct HeldSight<'a> {
    pub(crate) config: &'a Config,
    pub(crate) held: &'a HeldPairs,
    pub(crate) side: Option<&'a Side>,
}

impl<'a> HeldSight<'a> {
    ghost use Rattle.std.specs.Prelude.{◌≡◌};
    ghost use Rattle.rmm_spec.specs.Cell as whole;
    ghost use Rattle.world_laws.specs.Held.{cell_in};
    ghost use Rattle.world_laws.specs.SeenState as spec;
    ghost use Rattle.command_core.specs.Pairs.{pair_cells};

    // The state of a granule. That of a realm whose table is held is known.
    fn tag(&self, granule: u64) -> Tag
        ensures { result
            ≡ whole.tag_of (spec.cell_or (cell_in granule (pair_cells self.now.held.now))
            (spec.realm_behind (pair_cells self.now.held.now) granule)) }
    {
        match self.held.cell(Pa::new(granule)) {
            Some(cell) => cell.tag(),
            None if self.width(granule).is_some() => Tag::Rd,
            None => Tag::Undelegated,
        }
    }

    // The realm of which a table is held, with its address space alone.
    fn realm_behind(&self, rd: u64) -> Option<Realm>
        ensures { result ≡ spec.realm_behind (pair_cells self.now.held.now) rd }
    {
        match self.width(rd) {
            Some(width) => Some(Realm::from_words(0, width, start_of(width), 0, 0)),
            None => None,
        }
    }

    // The realm in a granule.
    fn realm_in(&self, granule: u64) -> Option<Realm>
        ensures { result
            ≡ whole.realm_in (spec.cell_or (cell_in granule (pair_cells self.now.held.now))
            (spec.realm_behind (pair_cells self.now.held.now) granule)) }
    {
        match self.held.cell(Pa::new(granule)) {
            Some(Cell::Rd(descriptor)) => Some(*descriptor.realm()),
            Some(_) => None,
            None => self.realm_behind(granule),
        }
    }

    // The REC in a granule.
    fn rec_in(&self, granule: u64) -> Option<Rec>
        ensures { result
            ≡ whole.rec_in (spec.cell_or (cell_in granule (pair_cells self.now.held.now))
            (spec.realm_behind (pair_cells self.now.held.now) granule)) }
    {
        match self.held.cell(Pa::new(granule)) {
            Some(Cell::Rec(rec)) => Some(*rec),
            _ => None,
        }
    }
}

#[tactic(auto, unfolding(world_laws::specs::SeenState::seen_state, rmm_spec::specs::Lookup::has_tag))]
impl<'a> Sight for HeldSight<'a> {
    ghost use Rattle.world_laws.specs.SeenState.{seen_state};
    ghost use Rattle.std.specs.Prelude.{option_map, option_copied};
    ghost use Rattle.command_core.specs.Pairs.{pair_cells};
    ghost use Rattle.command_core.specs.Sides.{side_of, are_vmids_told, are_recs_told};

    ghost state = { λ s. seen_state s.config.now (pair_cells s.held.now) };

    ghost uses_vmid = { λ s. are_vmids_told (option_map side_of (option_copied s.side)) };

    ghost has_recs = { λ s. are_recs_told (option_map side_of (option_copied s.side)) };

    fn version(&self) -> Version {
        self.config.version()
    }

    fn has_tag(&self, address: u64, tag: Tag) -> bool {
        is_granule(self.config, address) && is_tag(self.tag(address), tag)
    }

    #[inline(always)]
    fn realm(&self, rd: u64) -> Option<Realm> {
        if is_granule(self.config, rd) {
            self.realm_in(rd)
        } else {
            None
        }
    }

    fn rec(&self, address: u64) -> Option<Rec> {
        if is_granule(self.config, address) {
            self.rec_in(address)
        } else {
            None
        }
    }

    fn walk(&self, rd: u64, ipa: u64, max: u8) -> Walked {
        let level = self.reach(rd, ipa, max);
        let granule = self.table(rd, level, table_number(level, ipa)).unwrap_or(0);
        let entry = self.entry(rd, level, entry_number(level, ipa));
        Walked {
            level,
            granule,
            entry,
        }
    }

    fn entry_at(&self, rd: u64, level: u8, number: u64) -> Entry {
        self.entry(rd, level, number)
    }

    fn has_entry(&self, rd: u64, level: u8, number: u64, test: EntryTest) -> bool {
        self.finds(rd, level, number, test)
    }

    fn has_rec(&self, rd: u64) -> bool {
        match self.side {
            Some(side) => side.rec_count(Pa::new(rd)) != 0,
            None => false,
        }
    }

    fn is_vmid_used(&self, vmid: u8) -> bool {
        match self.side {
            Some(side) => side.realm_with(vmid).is_some(),
            None => false,
        }
    }
}
