//! The plain states of granules, of realms and of the memory that a realm sees.

/// What the monitor keeps a granule as (DEN0137, granule state and its delegated sub-states).
#[derive(Clone, Copy, PartialEq)]
pub enum Tag {
    Undelegated,
    Delegated,
    Rd,
    Rec,
    RecAux,
    Data,
    Rtt,
}

/// How far a realm has come in its life (DEN0137, realm state).
#[derive(Clone, Copy, PartialEq)]
pub enum RealmState {
    New,
    Active,
    SystemOff,
}

/// What a realm was told of a page of its address space (DEN0137, RIPAS).
#[derive(Clone, Copy, PartialEq)]
pub enum Ripas {
    Empty,
    Ram,
    Destroyed,
}
