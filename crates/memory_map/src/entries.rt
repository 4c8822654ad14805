//! What an entry is, and what may be made of it.

ghost use Rattle.std.specs.Prelude.{◌≡◌};
ghost use Rattle.rmm_spec.specs.Walk as spec;
ghost use Rattle.rmm_spec.specs.Step.Ripas as stretch;

use crate::entry_reads::ripas_number;
use rmm_spec::{Entry, EntryTest, Ripas, StretchUse};

/// An entry links to the table below it, if there is one, and is its leaf otherwise; a leaf is no link.
pub fn linked(below: Option<u64>, leaf: Option<Entry>) -> Entry
    ensures { result ≡ spec.linked_entry below leaf }
{
    if let Some(granule) = below {
        return Entry::Table(granule);
    }
    match leaf {
        Some(entry) => {
            if is_table(entry) {
                Entry::Unassigned(Ripas::Empty)
            } else {
                entry
            }
        }
        None => Entry::Unassigned(Ripas::Empty),
    }
}

/// Whether an entry links to a table.
pub fn is_table(entry: Entry) -> bool
    ensures { result ≡ spec.is_table entry }
{
    match entry {
        Entry::Table(_) => true,
        Entry::Unassigned(_) | Entry::Assigned(..) | Entry::UnassignedNs | Entry::AssignedNs(_) =>
            false,
    }
}

/// Whether an entry keeps its table in use.
pub fn is_live(entry: Entry) -> bool
    ensures { result ≡ spec.is_live entry }
{
    match entry {
        Entry::Assigned(..) | Entry::AssignedNs(_) | Entry::Table(_) => true,
        Entry::Unassigned(_) | Entry::UnassignedNs => false,
    }
}

/// Whether an entry is one that is looked for.
pub fn passes(test: EntryTest, entry: Entry) -> bool
    ensures { result ≡ spec.passes test entry }
{
    match test {
        EntryTest::Live => is_live(entry),
        EntryTest::Link => is_table(entry),
        EntryTest::Unlike(first) => is_unlike(first, entry),
    }
}

// Whether the second entry isn't unassigned as the first is.
fn is_unlike(first: Entry, entry: Entry) -> bool
    ensures { result ≡ spec.is_unlike first entry }
{
    match (first, entry) {
        (Entry::Unassigned(ripas), Entry::Unassigned(other)) => {
            ripas_number(ripas) != ripas_number(other)
        }
        (Entry::UnassignedNs, Entry::UnassignedNs) => false,
        _ => true,
    }
}

/// Whether the RIPAS of an entry may be set: never a link's, and before a realm runs no page's.
pub fn can_be_set(purpose: StretchUse, entry: Entry) -> bool
    ensures { result ≡ stretch.can_be_set purpose entry }
{
    match (purpose, entry) {
        (_, Entry::Table(_)) | (StretchUse::Init, Entry::Assigned(..)) => false,
        (_, Entry::Unassigned(_) | Entry::UnassignedNs | Entry::AssignedNs(_))
        | (StretchUse::Requested { .. }, Entry::Assigned(..)) => true,
    }
}
