//! A table and its methods.

ghost use Rattle.std.specs.Prelude.{◌≡◌, ◌+◌, ◌<◌, ◌≤◌, ◌↔◌, if◌then◌else◌, IsTrue, IfOk, length, replicate, Some, slice_get, slice_set};
ghost use Rattle.std.specs.List.{list_any};
ghost use Rattle.rmm_spec.specs.Walk.{is_live, is_table, passes};
ghost use Rattle.rmm_spec.specs.Table.{entry_index, entries_with_ripas, AreAlike};
ghost use Rattle.rtt_table.specs.Counts.{one_if};
ghost use Rattle.rtt_table.specs.Shaped.{IsShaped};

use crate::columns::ENTRIES;
use crate::unplaced::{Body, Unplaced};
use memory_map::{Ipa, entry_number, is_live, is_table};
use rmm_spec::{Entry, EntryTest, Place, Ripas};
use std::alloc::{AllocError, Global};
use std::marker::Model;

/// Where in its table the level's entry for an address stands: levels past 3 count as level 3.
#[tactic(auto, unfolding(rmm_spec::specs::Table::entry_index))]
pub fn index_of(level: u8, ipa: Ipa) -> usize
    ensures place { result ≡ entry_index level ipa }
    ensures within { result < 512 }
{
    entry_number(level, ipa.address()) as usize % ENTRIES
}

/// A translation table on the heap: whoever holds it holds one pointer.
#[derive(Drop)]
pub struct Table {
    pub(crate) body: Box<Body>,
}

impl Model for Table {
    ghost use Rattle.rmm_spec.specs.Table.{TableRecord};
    ghost use Rattle.rtt_table.specs.Counts.{AreCounts};
    ghost use Rattle.rtt_table.specs.Shaped.{IsShaped};

    ghost Value = { TableRecord };

    ghost view = { λ t. record { place = t.body.value.place; entries = t.body.value.columns } };

    ghost invariant = { λ t. IsShaped t.body.value.place × AreCounts t.body.value.columns t.body.value.live t.body.value.links };
}

impl Table {
    /// A table of 512 copies of one entry.
    pub fn new(alloc: Global, place: Place, fill: Entry) -> Result<Self, AllocError>
        requires { IsShaped place }
        ensures { IfOk result (λ t. t ≡ record { place = place; entries = replicate 512 fill }) }
    {
        let unplaced = Unplaced::new(alloc, fill)?;
        Ok(unplaced.at(place))
    }

    /// The same table once more.
    pub fn copy(&self, alloc: Global) -> Result<Self, AllocError>
        ensures { IfOk result (λ t. t ≡ self.now) }
    {
        let columns = self.body.columns.copy(alloc)?;
        let body = Body {
            place: self.body.place,
            live: self.body.live,
            links: self.body.links,
            columns,
        };
        let unplaced = Unplaced::boxed(alloc, body)?;
        Ok(unplaced.at(self.body.place))
    }

    /// Where the table stands.
    pub fn place(&self) -> Place
        ensures place { result ≡ self.now.place }
        ensures shaped { IsShaped result }
    {
        self.body.place
    }

    pub fn entry(&self, index: usize) -> Entry
        requires { index < 512 }
        ensures value { slice_get self.now.entries index ≡ Some result }
        ensures count { length self.now.entries ≡ 512 }
    {
        self.body.columns.entry(index)
    }

    pub fn set_entry(&mut self, at: usize, entry: Entry)
        requires { at < 512 }
        ensures { self.new ≡ record self.old { entries = slice_set self.old.entries at entry } }
    {
        let body = &mut *self.body;
        let old = body.columns.entry(at);
        body.live = recounted(body.live, is_live(old), is_live(entry));
        body.links = recounted(body.links, is_table(old), is_table(entry));
        body.columns.set_entry(at, entry);
    }

    /// Whether some entry is assigned or is a link to a table.
    pub fn is_live(&self) -> bool
        ensures { result ≡ list_any is_live self.now.entries }
    {
        self.body.live > 0
    }

    /// Whether some entry is a link to a table.
    pub fn has_link(&self) -> bool
        ensures { result ≡ list_any is_table self.now.entries }
    {
        self.body.links > 0
    }

    /// A table has 512 entries.
    pub fn is_whole(&self)
        ensures { length self.now.entries ≡ 512 }
    {
        let _fact = self.body.columns.is_whole();
    }

    /// Whether some entry is one that is looked for. A live one is never unassigned as another is, so entries are looked at only
    /// where the counts tell of none.
    pub fn has(&self, test: EntryTest) -> bool
        ensures { result ≡ list_any (passes test) self.now.entries }
    {
        match test {
            EntryTest::Live => self.is_live(),
            EntryTest::Link => self.has_link(),
            EntryTest::Unlike(first) => self.is_live() || self.body.columns.has_unlike(first),
        }
    }

    /// Whether all 512 entries are equal, for whoever asks: a fold asks by `has` whether one is unlike the first.
    pub fn is_uniform(&self) -> bool
        ensures { IsTrue result ↔ AreAlike self.now.entries }
    {
        let first = self.entry(0);
        for at in 0..ENTRIES {
            if self.entry(at) != first {
                return false;
            }
        }
        true
    }

    /// Whether the other has the same entries at the same place.
    pub fn is_same(&self, other: &Self) -> bool
        ensures { IsTrue result → self.now ≡ other.now }
    {
        same_place(self.body.place, other.body.place)
            && self.body.columns.is_same(&other.body.columns)
    }

    /// Changes the RIPAS of the entries from `from` up to but not `to`, of those that have one.
    pub fn set_ripas(&mut self, from: usize, to: usize, ripas: Ripas)
        requires order { from ≤ to }
        requires within { to ≤ 512 }
        ensures { self.new ≡ record self.old { entries = entries_with_ripas from to ripas self.old.entries } }
    {
        self.body.columns.set_ripas(from, to, ripas);
    }
}

fn same_place(one: Place, other: Place) -> bool
    ensures { IsTrue result → one ≡ other }
{
    one.rd == other.rd
        && one.level == other.level
        && one.base == other.base
        && one.width == other.width
}

// A count after one entry went and another came.
fn recounted(count: u16, goes: bool, comes: bool) -> u16
    requires some { one_if goes ≤ count }
    requires within { count ≤ 512 }
    ensures { result + one_if goes ≡ count + one_if comes }
{
    match (goes, comes) {
        (true, false) => count - 1,
        (false, true) => count + 1,
        (true, true) | (false, false) => count,
    }
}
