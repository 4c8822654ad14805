//! The entries of a table in two columns, nine bytes an entry.

ghost use Rattle.std.specs.Prelude.{All, ◌≡◌, ◌++◌, ◌<◌, ◌≤◌, ◌↔◌, IfOk, IsTrue, false, length, map, replicate, Some, slice_get, slice_set};
ghost use Rattle.std.specs.List.{list_any};
ghost use Rattle.rmm_spec.specs.Table.{entries_with_ripas};
ghost use Rattle.rmm_spec.specs.Walk as walk;
ghost use Rattle.rmm_spec.specs.Walk.{is_unlike};
ghost use Rattle.rtt_table.specs.Columns as spec;
ghost use Rattle.rtt_table.specs.Columns.{kind_with_ripas};

use crate::kind::{Kind, assigned, entry_from, kind_of, kind_of_two, unassigned};
use memory_map::{entry_address, passes};
use rmm_spec::{Entry, EntryTest, Ripas};
use std::alloc::{AllocError, Global};
use std::marker::Model;

/// How many entries a table has.
pub const ENTRIES: usize = 512;

/// How many stand in one half of its addresses.
const HALF: usize = 256;

/// 512 entries: what each is, and the address that each names, or 0. The kinds stand in the columns themselves, so that most look-ups
/// follow no pointer to them.
#[derive(Drop)]
pub struct Columns {
    addresses: Vec<u64>,
    kinds: [Kind; ENTRIES],
}

impl Model for Columns {
    ghost use Rattle.std.specs.Prelude.{◌≡◌, List, length};
    ghost use Rattle.rmm_spec.specs.declared.entry.Entry.{Entry};
    ghost use Rattle.rtt_table.specs.Columns.{joined, AreColumns};

    ghost Value = { List Entry };

    ghost view = { λ c. joined c.kinds c.addresses.items };

    ghost invariant = { λ c. (length (joined c.kinds c.addresses.items) ≡ 512)
        × AreColumns (joined c.kinds c.addresses.items) c.kinds c.addresses.items };
}

impl Columns {
    /// 256 copies of one entry, and 256 of another behind them, whose addresses are given. So the kinds, which are large, are made where they lie.
    #[inline(always)]
    pub fn halves(addresses: Vec<u64>, lower: Entry, upper: Entry) -> Self
        requires { addresses.items ≡ replicate 256 (walk.entry_address lower) ++ replicate 256 (walk.entry_address upper) }
        ensures { result ≡ replicate 256 lower ++ replicate 256 upper }
    {
        let kinds = halves(kind_of(lower), kind_of(upper));
        Columns { addresses, kinds }
    }

    /// The same columns once more.
    pub fn copy(&self, alloc: Global) -> Result<Self, AllocError>
        ensures { IfOk result (λ columns. columns ≡ self.now) }
    {
        let addresses = Vec::from_slice(alloc, self.addresses.as_slice())?;
        let kinds = self.kinds;
        Ok(Columns { addresses, kinds })
    }

    /// There are 512 entries.
    pub fn is_whole(&self)
        ensures { length self.now ≡ 512 }
    {
        let _ = &self.kinds;
    }

    pub fn entry(&self, index: usize) -> Entry
        requires { index < 512 }
        ensures value { slice_get self.now index ≡ Some result }
        ensures count { length self.now ≡ 512 }
    {
        entry_from(self.kinds[index], self.addresses[index])
    }

    pub fn set_entry(&mut self, at: usize, entry: Entry)
        requires { at < 512 }
        ensures { self.new ≡ slice_set self.old at entry }
    {
        self.kinds[at] = kind_of(entry);
        self.addresses[at] = entry_address(entry);
    }

    /// Whether some entry isn't unassigned as the given one is: that is told by the kinds.
    pub fn has_unlike(&self, first: Entry) -> bool
        ensures { result ≡ list_any (is_unlike first) self.now }
    {
        !are_like(&self.kinds, first) && are_unlike(&self.kinds, first)
    }

    /// Whether the entries are the same, told by the columns.
    pub fn is_same(&self, other: &Self) -> bool
        ensures { IsTrue result → self.now ≡ other.now }
    {
        same_kinds(&self.kinds, &other.kinds)
            && self.addresses.as_slice() == other.addresses.as_slice()
    }

    /// Changes the RIPAS of the entries from `from` up to but not `to`, of those that have one.
    pub fn set_ripas(&mut self, from: usize, to: usize, ripas: Ripas)
        requires order { from ≤ to }
        requires within { to ≤ 512 }
        ensures { self.new ≡ entries_with_ripas from to ripas self.old }
    {
        change_ripas(&mut self.kinds[from..to], ripas);
    }
}

/// The addresses of 256 copies of one entry, and of 256 of another behind them.
pub(crate) fn addresses_of(
    alloc: Global,
    lower: Entry,
    upper: Entry,
) -> Result<Vec<u64>, AllocError>
    ensures { IfOk result (λ addresses. addresses.items ≡ replicate 256 (walk.entry_address lower) ++ replicate 256 (walk.entry_address upper)) }
{
    let mut addresses = Vec::with_capacity(alloc, ENTRIES)?;
    addresses.resize(HALF, entry_address(lower))?;
    addresses.resize(ENTRIES, entry_address(upper))?;
    Ok(addresses)
}

// 256 copies of one kind, and 256 of another behind them.
#[inline(always)]
fn halves(lower: Kind, upper: Kind) -> [Kind; ENTRIES]
    ensures { result ≡ replicate 256 lower ++ replicate 256 upper }
{
    let mut kinds = [lower; ENTRIES];
    fill(&mut kinds[HALF..], upper);
    kinds
}

// Writes one kind over all.
fn fill(kinds: &mut [Kind], kind: Kind)
    ensures { kinds.new ≡ map (λ _. kind) kinds.old }
{
    for old in kinds.iter_mut() {
        *old = kind;
    }
}

// Whether all kinds are the same. It looks at all of them too.
fn same_kinds(one: &[Kind; ENTRIES], other: &[Kind; ENTRIES]) -> bool
    ensures { IsTrue result → one.now ≡ other.now }
{
    let mut same = true;
    for index in 0..ENTRIES {
        same &= one[index] == other[index];
    }
    same
}

// Whether each entry is of the given kind. It looks at all of them, so that many are compared at a time.
fn are_kind(kinds: &[Kind], same: Kind) -> bool
    ensures { IsTrue result ↔ All (λ k. k ≡ same) kinds.now }
{
    let mut are = true;
    for kind in kinds.iter() {
        are &= is_kind(*kind, same);
    }
    are
}

fn is_kind(kind: Kind, same: Kind) -> bool
    ensures { IsTrue result ↔ (kind ≡ same) }
{
    kind == same
}

// Whether all kinds are that of the given entry, where it is unassigned.
fn are_like(kinds: &[Kind], first: Entry) -> bool
    ensures { IsTrue result → list_any (λ kind. is_unlike first (spec.entry_from kind 0)) kinds.now ≡ false }
{
    let same = kind_of(first);
    !passes(EntryTest::Unlike(first), entry_from(same, 0)) && are_kind(kinds, same)
}

// Whether some kind isn't that of an entry that is unassigned as the given one is.
fn are_unlike(kinds: &[Kind], first: Entry) -> bool
    ensures { result ≡ list_any (λ kind. is_unlike first (spec.entry_from kind 0)) kinds.now }
{
    kinds.iter().any(|kind| passes(EntryTest::Unlike(first), entry_from(*kind, 0)))
}

// Changes the RIPAS of each kind that has one.
fn change_ripas(kinds: &mut [Kind], ripas: Ripas)
    ensures { kinds.new ≡ map (kind_with_ripas ripas) kinds.old }
{
    let unassigned = unassigned(ripas);
    let assigned = assigned(ripas);
    for kind in kinds.iter_mut() {
        *kind = kind_of_two(*kind, unassigned, assigned);
    }
}
