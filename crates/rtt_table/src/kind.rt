//! What an entry is, apart from the address that it names, in one byte.

ghost use Rattle.std.specs.Prelude.{◌≡◌};
ghost use Rattle.rmm_spec.specs.declared.tag.Ripas.{Ripas};
ghost use Rattle.rtt_table.specs.Columns as spec;

use rmm_spec::{Entry, Ripas};
use std::mem::size_of;

/// An entry without its address.
#[derive(Clone, Copy, PartialEq)]
pub enum Kind {
    UnassignedEmpty,
    UnassignedRam,
    UnassignedDestroyed,
    AssignedEmpty,
    AssignedRam,
    AssignedDestroyed,
    Table,
    UnassignedNs,
    AssignedNs,
}

const _: () = prove!(size_of::<Kind>() == 1);

/// What an entry is.
pub fn kind_of(entry: Entry) -> Kind
    ensures { result ≡ spec.kind_of entry }
{
    match entry {
        Entry::Unassigned(ripas) => unassigned(ripas),
        Entry::Assigned(ripas, _) => assigned(ripas),
        Entry::Table(_) => Kind::Table,
        Entry::UnassignedNs => Kind::UnassignedNs,
        Entry::AssignedNs(_) => Kind::AssignedNs,
    }
}

/// The entry of a kind, with the address where the kind has one.
pub fn entry_from(kind: Kind, address: u64) -> Entry
    ensures { result ≡ spec.entry_from kind address }
{
    match kind {
        Kind::UnassignedEmpty => Entry::Unassigned(Ripas::Empty),
        Kind::UnassignedRam => Entry::Unassigned(Ripas::Ram),
        Kind::UnassignedDestroyed => Entry::Unassigned(Ripas::Destroyed),
        Kind::AssignedEmpty => Entry::Assigned(Ripas::Empty, address),
        Kind::AssignedRam => Entry::Assigned(Ripas::Ram, address),
        Kind::AssignedDestroyed => Entry::Assigned(Ripas::Destroyed, address),
        Kind::Table => Entry::Table(address),
        Kind::UnassignedNs => Entry::UnassignedNs,
        Kind::AssignedNs => Entry::AssignedNs(address),
    }
}

/// The kind with another RIPAS, where it has one: one of the two kinds with that RIPAS.
pub fn kind_of_two(kind: Kind, unassigned: Kind, assigned: Kind) -> Kind
    ensures { (ripas : Ripas) → unassigned ≡ spec.unassigned ripas → assigned ≡ spec.assigned ripas → result ≡ spec.kind_with_ripas ripas kind }
{
    if matches!(
        kind,
        Kind::UnassignedEmpty | Kind::UnassignedRam | Kind::UnassignedDestroyed
    ) {
        unassigned
    } else if matches!(
        kind,
        Kind::AssignedEmpty | Kind::AssignedRam | Kind::AssignedDestroyed
    ) {
        assigned
    } else {
        kind
    }
}

/// The kind of an entry that is unassigned with this RIPAS.
pub fn unassigned(ripas: Ripas) -> Kind
    ensures { result ≡ spec.unassigned ripas }
{
    match ripas {
        Ripas::Empty => Kind::UnassignedEmpty,
        Ripas::Ram => Kind::UnassignedRam,
        Ripas::Destroyed => Kind::UnassignedDestroyed,
    }
}

/// The kind of an entry that has a data granule and this RIPAS.
pub fn assigned(ripas: Ripas) -> Kind
    ensures { result ≡ spec.assigned ripas }
{
    match ripas {
        Ripas::Empty => Kind::AssignedEmpty,
        Ripas::Ram => Kind::AssignedRam,
        Ripas::Destroyed => Kind::AssignedDestroyed,
    }
}
