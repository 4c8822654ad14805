//! A machine changes by these alone: each is the definitions' update of its name, as code. A realm's record and a REC's are kept with
//! their tag, so `with_realm` and `with_rec` put that in too, and `with_tag` takes the record out.

ghost use Rattle.std.specs.Prelude.{◌≡◌};
ghost use Rattle.rmm_spec.specs.Update as spec;

use crate::fault::FlatFault;
use crate::kept::{Kept, Spot};
use crate::machine::FlatMachine;
use crate::walks::ENTRIES;
use realm_desc::{Realm, Rec};
use rmm_spec::{Entry, Ripas, Tag};

impl FlatMachine {
    /// A granule's tag is changed, to one that goes with no record.
    pub(crate) fn with_tag(&mut self, address: u64, tag: Tag) -> Result<(), FlatFault> {
        let kept = Kept::bare(tag).ok_or(FlatFault::Missing)?;
        self.granules.insert(address, kept)?;
        Ok(())
    }

    /// A realm's record is put in or replaced.
    pub(crate) fn with_realm(&mut self, rd: u64, realm: Realm) -> Result<(), FlatFault> {
        self.granules.insert(rd, Kept::Rd(realm))?;
        Ok(())
    }

    /// A realm's tables and leaves are gone.
    pub(crate) fn without_realm(&mut self, rd: u64) {
        self.tables.retain(|spot, _| spot.rd != rd);
        self.leaves.retain(|spot, _| spot.rd != rd);
    }

    /// A REC's record is put in or replaced.
    pub(crate) fn with_rec(&mut self, address: u64, rec: Rec) -> Result<(), FlatFault> {
        self.granules.insert(address, Kept::Rec(rec))?;
        Ok(())
    }

    /// A new realm's root: nothing was said of its lower half, and its upper half is the host's.
    pub(crate) fn with_root(&mut self, rd: u64, level: u8, root: u64) -> Result<(), FlatFault> {
        let number = 0;
        self.tables.insert(Spot { rd, level, number }, root)?;
        for number in 0..ENTRIES {
            let leaf = if number < 256 {
                Entry::Unassigned(Ripas::Empty)
            } else {
                Entry::UnassignedNs
            };
            self.with_leaf(rd, level, number, leaf)?;
        }
        Ok(())
    }

    /// A table is put in where its entry in the table above was, and each of its 512 entries is a copy of that.
    pub(crate) fn with_table(
        &mut self,
        rd: u64,
        level: u8,
        number: u64,
        granule: u64,
        entry: Entry,
    ) -> Result<(), FlatFault> {
        self.tables.insert(Spot { rd, level, number }, granule)?;
        if let Some(level) = level.checked_sub(1) {
            self.leaves.remove(&Spot { rd, level, number });
        }
        for place in 0..ENTRIES {
            self.with_leaf(rd, level, entry_of(number, place), entry)?;
        }
        Ok(())
    }

    /// A table is taken out with its 512 entries, and its entry in the table above is a leaf.
    pub(crate) fn without_table(
        &mut self,
        rd: u64,
        level: u8,
        number: u64,
        entry: Entry,
    ) -> Result<(), FlatFault> {
        self.tables.remove(&Spot { rd, level, number });
        for place in 0..ENTRIES {
            let number = entry_of(number, place);
            self.leaves.remove(&Spot { rd, level, number });
        }
        match level.checked_sub(1) {
            Some(above) => self.with_leaf(rd, above, number, entry),
            None => Ok(()),
        }
    }

    /// A leaf is changed.
    pub(crate) fn with_leaf(
        &mut self,
        rd: u64,
        level: u8,
        number: u64,
        entry: Entry,
    ) -> Result<(), FlatFault> {
        self.leaves.insert(Spot { rd, level, number }, entry)?;
        Ok(())
    }

    /// The RIPAS of a level's leaves is changed, from the first number up to but not the last.
    pub(crate) fn with_ripas(&mut self, rd: u64, level: u8, first: u64, last: u64, ripas: Ripas) {
        for number in first..last {
            if let Some(leaf) = self.leaves.get_mut(&Spot { rd, level, number }) {
                *leaf = entry_with_ripas(ripas, *leaf);
            }
        }
    }
}

// The number of the entry at a place of a table.
fn entry_of(table: u64, place: u64) -> u64 {
    table.wrapping_mul(ENTRIES).wrapping_add(place)
}

// The entry with another RIPAS, where it has one.
fn entry_with_ripas(ripas: Ripas, entry: Entry) -> Entry
    ensures { result ≡ spec.entry_with_ripas ripas entry }
{
    match entry {
        Entry::Unassigned(_) => Entry::Unassigned(ripas),
        Entry::Assigned(_, granule) => Entry::Assigned(ripas, granule),
        Entry::Table(_) | Entry::UnassignedNs | Entry::AssignedNs(_) => entry,
    }
}
