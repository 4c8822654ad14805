//! What the rows of commands look up in the maps.

use crate::machine::FlatMachine;
use crate::walks::is_granule;
use command_rows::Sight;
use command_words::is_tag;
use memory_map::{entry_number, table_number};
use realm_desc::{Realm, Rec};
use rmm_spec::{Entry, EntryTest, Tag, Version, Walked};

#[tactic(auto, unfolding(crate::specs::Flat::state_of, rmm_spec::specs::Lookup::has_tag))]
impl Sight for FlatMachine {
    ghost use Rattle.rmm_spec.specs.Lookup as lookup;
    ghost use Rattle.flat_machine.specs.Flat.{state_of};

    ghost state = { state_of };

    ghost uses_vmid = { λ machine vmid. lookup.is_vmid_used (state_of machine) vmid };

    ghost has_recs = { λ machine rd. lookup.has_rec (state_of machine) rd };

    fn version(&self) -> Version {
        self.config.version()
    }

    fn has_tag(&self, address: u64, tag: Tag) -> bool {
        is_granule(&self.config, address) && is_tag(self.tag(address), tag)
    }

    fn realm(&self, rd: u64) -> Option<Realm> {
        if is_granule(&self.config, rd) {
            self.realm_in(rd)
        } else {
            None
        }
    }

    fn rec(&self, address: u64) -> Option<Rec> {
        if is_granule(&self.config, address) {
            self.rec_in(address)
        } else {
            None
        }
    }

    fn walk(&self, rd: u64, ipa: u64, max: u8) -> Walked {
        let level = self.deepest(rd, ipa, max);
        let granule = self.table(rd, level, table_number(level, ipa)).unwrap_or(0);
        let entry = self.entry(rd, level, entry_number(level, ipa));
        Walked {
            level,
            granule,
            entry,
        }
    }

    fn entry_at(&self, rd: u64, level: u8, number: u64) -> Entry {
        self.entry(rd, level, number)
    }

    fn has_entry(&self, rd: u64, level: u8, number: u64, test: EntryTest) -> bool {
        self.finds(rd, level, number, test)
    }

    fn has_rec(&self, rd: u64) -> bool {
        self.owns_rec(rd)
    }

    fn is_vmid_used(&self, vmid: u8) -> bool {
        self.uses_vmid(vmid)
    }
}
