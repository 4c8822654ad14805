//! Walks through a realm's tables by links, from its root on.

ghost use Rattle.std.specs.Prelude.{◌≡◌, ◌≤◌, ◌<◌, ◌*◌, ◌^◌, IfSome, IfNone, IsTrue};
ghost use Rattle.rmm_spec.specs.Table.{place_number};
ghost use Rattle.rmm_spec.specs.Walk as spec;
ghost use Rattle.spec_machine.specs.Walks.{IsFirst};

use crate::machine::Machine;
use memory_map::{Ipa, Pa, table_number};
use realm_desc::Realm;
use rmm_spec::{Entry, Ripas, Walked};
use rtt_table::{Table, index_of};

/// Where a walk starts.
#[derive(Clone, Copy)]
pub(crate) struct Start {
    pub(crate) root: Pa,
    pub(crate) level: u8,
}

/// A table that was found, with its granule.
#[derive(Drop)]
pub(crate) struct FoundTable<'a> {
    pub(crate) granule: u64,
    pub(crate) table: &'a Table,
}

impl Machine {
    ghost use Rattle.std.specs.Prelude.{◌≡◌, ◌≤◌, ◌<◌, IfSome, IfNone, ℕ, None, Some, IsSome};
    ghost use Rattle.rmm_spec.specs.State.{RealmRecord};
    ghost use Rattle.rmm_spec.specs.Walk.{walk, full, table_number, IsWalk};
    ghost use Rattle.spec_machine.specs.View.{state_of};
    ghost use Rattle.spec_machine.specs.Found.{IsFoundIn};
    ghost use Rattle.spec_machine.specs.Walks.{StartsAt};

    // The root of the realm, where its address space has the address.
    fn start(&self, rd: u64, ipa: u64) -> Option<Start>
        ensures found { IfSome result (λ start. StartsAt (state_of self.now) rd ipa start.root start.level) }
        ensures none { IfNone result ((r : RealmRecord) → (state_of self.now).realm rd ≡ Some r → ipa < full r → ⊥) }
    {
        let Some(realm) = self.granules.list.realm_in(rd) else {
            return None;
        };
        if ipa >= realm.space_end() {
            return None;
        }
        Some(Start {
            root: root_of(realm),
            level: realm.start_level(),
        })
    }

    /// Where the walk for an address up to a level ends.
    pub(crate) fn walk_up_to(&self, rd: u64, ipa: u64, max: u8) -> Walked
        requires { max ≤ 3 }
        ensures { result ≡ walk (state_of self.now) rd ipa max }
    {
        let near = self.table_near(rd, max, table_number(max, ipa));
        match self.walk_found(near, rd, ipa, max) {
            Some(end) => end,
            None => self.walk_farther(rd, ipa, max),
        }
    }

    // The same, where the table isn't among the first granules, or wasn't found before.
    #[inline(never)]
    fn walk_farther(&self, rd: u64, ipa: u64, max: u8) -> Walked
        requires { max ≤ 3 }
        ensures { result ≡ walk (state_of self.now) rd ipa max }
    {
        let far = self.table_far(rd, max, table_number(max, ipa));
        match self.walk_found(far, rd, ipa, max) {
            Some(end) => end,
            None => self.walk_from_root(rd, ipa, max),
        }
    }

    // The same, where it ends at that level in a table that was found: none is deeper.
    #[inline(always)]
    fn walk_found(
        &self,
        found: Option<FoundTable<'_>>,
        rd: u64,
        ipa: u64,
        max: u8,
    ) -> Option<Walked>
        requires max { max ≤ 3 }
        requires found { IfSome found (IsFoundIn self.now.granules rd max (table_number max ipa)) }
        ensures { IfSome result (λ end. end ≡ walk (state_of self.now) rd ipa max) }
    {
        let Some(found) = found else {
            return None;
        };
        Some(Walked {
            level: max,
            granule: found.granule,
            entry: found.table.entry(index_of(max, Ipa::new(ipa))),
        })
    }

    // The same, by links.
    fn walk_from_root(&self, rd: u64, ipa: u64, max: u8) -> Walked
        requires { max ≤ 3 }
        ensures { result ≡ walk (state_of self.now) rd ipa max }
    {
        let Some(start) = self.start(rd, ipa) else {
            return Walked {
                level: 0,
                granule: 0,
                entry: Entry::Unassigned(Ripas::Empty),
            };
        };
        if start.level > max {
            return Walked {
                level: 0,
                granule: 0,
                entry: Entry::Table(start.root.address()),
            };
        }
        let end = rtt_table::walk(&self.granules.list, start.root, Ipa::new(ipa), max);
        Walked {
            level: end.level,
            granule: end.pa.address(),
            entry: end.entry,
        }
    }

    /// The granule of the realm's table of that number at the level.
    pub(crate) fn table_at(&self, rd: u64, level: u8, number: u64) -> Option<u64>
        ensures { result ≡ (state_of self.now).table rd level number }
    {
        match self.table_near(rd, level, number) {
            Some(found) => Some(found.granule),
            None => self.table_farther(rd, level, number),
        }
    }

    /// The same, which is kept for the next time.
    #[inline(always)]
    pub(crate) fn table_kept(&mut self, rd: u64, level: u8, number: u64) -> Option<u64>
        ensures is { result ≡ (state_of self.old).table rd level number }
        ensures list { self.new.granules.list ≡ self.old.granules.list }
        ensures side { self.new.granules.side ≡ self.old.granules.side }
        ensures places { self.new.granules.places ≡ self.old.granules.places }
    {
        if let Some(found) = self.table_near(rd, level, number) {
            return Some(found.granule);
        }
        let at = self.table_farther(rd, level, number);
        self.granules.near.keep(rd, level, number, at);
        at
    }

    // The same, where the table isn't among the first granules, or wasn't found before.
    #[inline(never)]
    fn table_farther(&self, rd: u64, level: u8, number: u64) -> Option<u64>
        ensures { result ≡ (state_of self.now).table rd level number }
    {
        match self.table_far(rd, level, number) {
            Some(found) => Some(found.granule),
            None => self.table_from_root(rd, level, number),
        }
    }

    // The table itself, where it was found before among the first granules.
    #[inline(always)]
    fn table_near(&self, rd: u64, level: u8, number: u64) -> Option<FoundTable<'_>>
        ensures { IfSome result (IsFoundIn self.now.granules rd level number) }
    {
        let granule = self.granules.near.granule(rd, level, number);
        match self.granules.list.first_table_in(granule) {
            Some(table) if is_placed(table, rd, level, number) => {
                Some(FoundTable { granule, table })
            }
            _ => None,
        }
    }

    // The table itself, where it was found before, but not among the first granules.
    fn table_far(&self, rd: u64, level: u8, number: u64) -> Option<FoundTable<'_>>
        ensures { IfSome result (IsFoundIn self.now.granules rd level number) }
    {
        let granule = self.granules.near.granule(rd, level, number);
        if self.granules.list.is_first(granule) {
            return None;
        }
        match self.granules.list.table_in(granule) {
            Some(table) if is_placed(table, rd, level, number) => {
                Some(FoundTable { granule, table })
            }
            _ => None,
        }
    }

    // The same, by links.
    fn table_from_root(&self, rd: u64, level: u8, number: u64) -> Option<u64>
        ensures { result ≡ (state_of self.now).table rd level number }
    {
        let Some(ipa) = first_address(level, number) else {
            return None;
        };
        let Some(start) = self.start(rd, ipa) else {
            return None;
        };
        if start.level > level {
            return None;
        }
        let end = rtt_table::walk(&self.granules.list, start.root, Ipa::new(ipa), level);
        if end.level == level {
            Some(end.pa.address())
        } else {
            None
        }
    }
}

// Whether a table is the realm's of that number at the level.
#[tactic(auto, unfolding(rmm_spec::specs::Table::place_number))]
fn is_placed(table: &Table, rd: u64, level: u8, number: u64) -> bool
    ensures { IsTrue result → (table.now.place.rd ≡ rd) × (table.now.place.level ≡ level) × (place_number table.now.place ≡ number) }
{
    let place = table.place();
    place.rd == rd && place.level == level && table_number(place.level, place.base) == number
}

// Where a realm's tables begin.
#[tactic(auto, unfolding(realm_desc::specs::View::realm_record))]
fn root_of(realm: &Realm) -> Pa
    ensures { result ≡ realm.now.root }
{
    realm.root
}

// The first address that the table of that number at the level covers, where there can be one.
fn first_address(level: u8, number: u64) -> Option<u64>
    ensures found { IfSome result (IsFirst level number) }
    ensures none { IfNone result (level ≤ 3 → number * spec.table_size level < 2 ^ 64 → ⊥) }
{
    if level > 3 {
        return None;
    }
    number.checked_mul(table_size(level))
}

// How many bytes a table covers.
#[tactic(auto, unfolding(rmm_spec::specs::Walk::table_size))]
fn table_size(level: u8) -> u64
    ensures { result ≡ spec.table_size level }
{
    1 << (12 + 9 * 4u64.saturating_sub(u64::from(level)))
}
