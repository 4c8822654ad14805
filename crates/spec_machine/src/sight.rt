//! What the rows of commands look up in a machine.

use crate::machine::Machine;
use command_rows::Sight;
use memory_map::Pa;
use realm_desc::{Realm, Rec};
use rmm_spec::{Entry, EntryTest, Tag, Version, Walked};

impl Sight for Machine {
    ghost use Rattle.rmm_spec.specs.Lookup.{has_rec, is_vmid_used};
    ghost use Rattle.spec_machine.specs.View.{state_of};

    ghost state = { state_of };

    ghost uses_vmid = { λ machine. is_vmid_used (state_of machine) };

    ghost has_recs = { λ machine. has_rec (state_of machine) };

    #[tactic(auto, unfolding(crate::specs::Whole::state_in, rmm_spec::specs::Flat::flat_state))]
    fn version(&self) -> Version {
        self.granules.list.config.version()
    }

    #[inline(always)]
    fn has_tag(&self, address: u64, tag: Tag) -> bool {
        match self.granules.list.tag(address) {
            Some(found) => found == tag,
            None => self.has_tag_untouched(address, tag),
        }
    }

    fn realm(&self, rd: u64) -> Option<Realm> {
        self.realm_in(rd).copied()
    }

    fn rec(&self, address: u64) -> Option<Rec> {
        self.rec_in(address).copied()
    }

    fn walk(&self, rd: u64, ipa: u64, max: u8) -> Walked {
        self.walk_up_to(rd, ipa, max)
    }

    fn entry_at(&self, rd: u64, level: u8, number: u64) -> Entry {
        let table = self.table_here(rd, level, number / 512);
        self.entry_in(table, rd, level, number)
    }

    fn has_entry(&self, rd: u64, level: u8, number: u64, test: EntryTest) -> bool {
        match self.table_here(rd, level, number) {
            Some(table) => table.has(test),
            None => self.has_unlisted(rd, level, number, test),
        }
    }

    fn has_rec(&self, rd: u64) -> bool {
        self.granules.side.rec_count(Pa::new(rd)) > 0
    }

    fn is_vmid_used(&self, vmid: u8) -> bool {
        self.granules.side.realm_with(vmid).is_some()
    }
}
