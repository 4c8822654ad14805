//! How entries are told apart, and what a reply tells of one.

ghost use Rattle.std.specs.Prelude.{◌≡◌};
ghost use Rattle.rmm_spec.specs.Lookup as lookup;
ghost use Rattle.rmm_spec.specs.Walk as spec;

use rmm_spec::{Entry, Ripas};

/// The granule or page that an entry names, and 0 where it names none.
pub fn entry_address(entry: Entry) -> u64
    ensures { result ≡ spec.entry_address entry }
{
    match entry {
        Entry::Assigned(_, granule) | Entry::Table(granule) => granule,
        Entry::AssignedNs(page) => page,
        Entry::Unassigned(_) | Entry::UnassignedNs => 0,
    }
}

/// An entry's RIPAS, and EMPTY where it has none.
pub fn entry_ripas(entry: Entry) -> Ripas
    ensures { result ≡ spec.entry_ripas entry }
{
    match entry {
        Entry::Unassigned(ripas) | Entry::Assigned(ripas, _) => ripas,
        Entry::Table(_) | Entry::UnassignedNs | Entry::AssignedNs(_) => Ripas::Empty,
    }
}

/// What an entry is: 0 unassigned, 1 assigned, 2 a table.
pub fn entry_state(entry: Entry) -> u64
    ensures { result ≡ spec.entry_state entry }
{
    match entry {
        Entry::Unassigned(_) | Entry::UnassignedNs => 0,
        Entry::Assigned(..) | Entry::AssignedNs(_) => 1,
        Entry::Table(_) => 2,
    }
}

/// A RIPAS as replies tell it.
pub fn ripas_number(ripas: Ripas) -> u64
    ensures { result ≡ lookup.ripas_number ripas }
{
    match ripas {
        Ripas::Empty => 0,
        Ripas::Ram => 1,
        Ripas::Destroyed => 2,
    }
}

/// Whether an entry is unassigned memory of the realm.
pub fn is_unassigned(entry: Entry) -> bool
    ensures { result ≡ spec.is_unassigned entry }
{
    matches!(entry, Entry::Unassigned(_))
}

/// Whether the realm was told that it is memory.
pub fn is_ram(ripas: Ripas) -> bool
    ensures { result ≡ spec.is_ram ripas }
{
    matches!(ripas, Ripas::Ram)
}

/// Whether an entry has a data granule.
pub fn is_assigned(entry: Entry) -> bool
    ensures { result ≡ spec.is_assigned entry }
{
    matches!(entry, Entry::Assigned(..))
}

/// Whether an entry of the host's half has no page.
pub fn is_unassigned_ns(entry: Entry) -> bool
    ensures { result ≡ spec.is_unassigned_ns entry }
{
    matches!(entry, Entry::UnassignedNs)
}

/// Whether an entry of the host's half has a page.
pub fn is_assigned_ns(entry: Entry) -> bool
    ensures { result ≡ spec.is_assigned_ns entry }
{
    matches!(entry, Entry::AssignedNs(_))
}
