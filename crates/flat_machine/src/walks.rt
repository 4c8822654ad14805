//! Granules, tables and entries as the maps have them, and searches through them.

ghost use Rattle.std.specs.Prelude.{◌≡◌};
ghost use Rattle.rmm_spec.specs.Lookup as lookup;

use crate::kept::{Kept, Spot};
use crate::machine::FlatMachine;
use command_rows::Sight;
use memory_map::{
    Config, GRANULE_BYTES, can_be_set, entry_number, entry_size, granule_at, linked, passes,
    table_number,
};
use realm_desc::{Realm, Rec};
use rmm_spec::{Entry, EntryTest, Stretch, Tag};

/// How many entries a table has.
pub(crate) const ENTRIES: u64 = 512;

/// Whether an address is that of a granule.
pub(crate) fn is_granule(config: &Config, address: u64) -> bool
    ensures { result ≡ lookup.is_granule config.now.granules address }
{
    granule_at(config, address).is_some()
}

#[tactic(auto, unfolding(realm_desc::specs::View::realm_record))]
fn has_vmid(vmid: u8, realm: &Option<Realm>) -> bool
    ensures { result ≡ lookup.has_vmid vmid realm.now }
{
    match realm {
        Some(realm) => realm.vmid == vmid,
        None => false,
    }
}

#[tactic(auto, unfolding(realm_desc::specs::View::rec_record))]
fn is_owned_by(rd: u64, rec: &Option<Rec>) -> bool
    ensures { result ≡ lookup.is_owned_by rd rec.now }
{
    match rec {
        Some(rec) => rec.owner.address() == rd,
        None => false,
    }
}

#[tactic(auto, unfolding(crate::specs::Flat::state_of))]
impl FlatMachine {
    ghost use Rattle.std.specs.Prelude.{◌≡◌, ◌<◌, ◌≤◌, ◌^◌};
    ghost use Rattle.rmm_spec.specs.Walk as tables;
    ghost use Rattle.flat_machine.specs.Flat.{tag_kept, realm_kept, rec_kept, below_in, state_of};

    /// What is kept of a granule's state.
    pub(crate) fn tag(&self, granule: u64) -> Tag
        ensures { result ≡ tag_kept self.now granule }
    {
        match self.granules.get(&granule) {
            Some(kept) => kept.tag(),
            None => Tag::Undelegated,
        }
    }

    /// The realm that is kept there.
    pub(crate) fn realm_in(&self, granule: u64) -> Option<Realm>
        ensures { result ≡ realm_kept self.now granule }
    {
        match self.granules.get(&granule) {
            Some(Kept::Rd(realm)) => Some(*realm),
            _ => None,
        }
    }

    /// The REC that is kept there.
    pub(crate) fn rec_in(&self, granule: u64) -> Option<Rec>
        ensures { result ≡ rec_kept self.now granule }
    {
        match self.granules.get(&granule) {
            Some(Kept::Rec(rec)) => Some(*rec),
            _ => None,
        }
    }

    /// Whether a realm has the VMID.
    #[tactic(auto, unfolding(crate::specs::Flat::state_of, rmm_spec::specs::Lookup::is_vmid_used))]
    pub(crate) fn uses_vmid(&self, vmid: u8) -> bool
        ensures { result ≡ lookup.is_vmid_used (state_of self.now) vmid }
    {
        for number in 0..self.config.granules() {
            if has_vmid(vmid, &self.realm(number * GRANULE_BYTES)) {
                return true;
            }
        }
        false
    }

    /// Whether a REC belongs to the realm.
    #[tactic(auto, unfolding(crate::specs::Flat::state_of, rmm_spec::specs::Lookup::has_rec))]
    pub(crate) fn owns_rec(&self, rd: u64) -> bool
        ensures { result ≡ lookup.has_rec (state_of self.now) rd }
    {
        for number in 0..self.config.granules() {
            if is_owned_by(rd, &self.rec(number * GRANULE_BYTES)) {
                return true;
            }
        }
        false
    }

    /// The granule of a table.
    pub(crate) fn table(&self, rd: u64, level: u8, number: u64) -> Option<u64>
        ensures { result ≡ (state_of self.now).table rd level number }
    {
        self.tables.get(&Spot { rd, level, number }).copied()
    }

    // The granule of the table that an entry links to, where it links to one: below level 3 are no tables.
    fn below(&self, rd: u64, level: u8, number: u64) -> Option<u64>
        ensures { result ≡ below_in (state_of self.now) rd level number }
    {
        if level < 3 {
            return self.table(rd, level + 1, number);
        }
        None
    }

    /// The entry of that number at the level.
    #[tactic(auto, unfolding(crate::specs::Flat::state_of, rmm_spec::specs::Walk::entry_at))]
    pub(crate) fn entry(&self, rd: u64, level: u8, number: u64) -> Entry
        ensures { result ≡ tables.entry_at (state_of self.now) rd level number }
    {
        let leaf = self.leaves.get(&Spot { rd, level, number }).copied();
        linked(self.below(rd, level, number), leaf)
    }

    /// The greatest level up to `max` at which a table covers the address.
    pub(crate) fn deepest(&self, rd: u64, ipa: u64, max: u8) -> u8
        ensures level { result ≡ tables.reach (state_of self.now) rd ipa max }
        ensures within { result ≤ max }
    {
        if max == 0 {
            return 0;
        }
        if self.table(rd, max, table_number(max, ipa)).is_some() {
            return max;
        }
        self.deepest(rd, ipa, max - 1)
    }

    /// Whether a table has an entry that is looked for.
    #[tactic(auto, unfolding(rmm_spec::specs::Walk::has_entry))]
    pub(crate) fn finds(&self, rd: u64, level: u8, number: u64, test: EntryTest) -> bool
        requires { number < 2 ^ 52 }
        ensures { result ≡ tables.has_entry (state_of self.now) rd level number test }
    {
        for place in 0..ENTRIES {
            if passes(test, self.entry(rd, level, ENTRIES * number + place)) {
                return true;
            }
        }
        false
    }

    /// Whether a stretch may be set up to `top`: so many whole entries of one table, each of which may be set.
    pub(crate) fn is_reached(&self, stretch: &Stretch, top: u64) -> bool {
        let Stretch {
            rd,
            level,
            base,
            ..
        } = *stretch;
        if level > 3 {
            return false;
        }
        if top <= base {
            return false;
        }
        let is_whole = (top - base) % entry_size(level) == 0;
        let is_in_table = table_number(level, top - 1) == table_number(level, base);
        if top > stretch.top || !is_whole || !is_in_table {
            return false;
        }
        for number in entry_number(level, base)..entry_number(level, top) {
            if !can_be_set(stretch.purpose, self.entry(rd, level, number)) {
                return false;
            }
        }
        true
    }
}
