//! What a source has on a machine, and whether what it is of is there.

ghost use Rattle.std.specs.Prelude.{◌≡◌, ◌≤◌, ◌∷◌, [], length};
ghost use Rattle.spec_machine.specs.View.{state_of};
ghost use Rattle.reasons.specs.Reading as spec;

use crate::place::rec_inside;
use crate::source::Source;
use arrayvec::ArrayVec;
use command_rows::Sight;
use memory_map::{entry_address, entry_ripas, entry_state, ripas_number};
use realm_desc::{Realm, Rec, words, words8};
use rec_steps::answer_to_exit;
use rmm_spec::{Measurement, RealmState, Tag, Walked};
use spec_machine::Machine;

/// What the source has.
#[tactic(auto, unfolding(crate::specs::Reading::read))]
pub fn read(machine: &Machine, source: Source) -> ArrayVec<u64, 10>
    ensures { result.items ≡ spec.read (state_of machine.now) source }
{
    match source {
        Source::Nothing => ArrayVec::new(),
        Source::Place { cpu } => of_place(rec_inside(machine, cpu)),
        Source::Tag { granule } => one(tag_read(machine, granule)),
        Source::State { rd } => of_state(machine.realm(rd)),
        Source::OwnerState { rec } => of_state(owner_realm(machine, machine.rec(rec))),
        Source::NextIndex { rd } => of_index(machine.realm(rd)),
        Source::Space { rd } => of_space(machine.realm(rd)),
        Source::OwnerSpace { rec } => of_space(owner_realm(machine, machine.rec(rec))),
        Source::Running { rec } => of_cpu(machine.rec(rec)),
        Source::Runnable { rec } => of_runnable(machine.rec(rec)),
        Source::Owner { rec } => of_owner(machine.rec(rec)),
        Source::Request { rec } => of_request(machine.rec(rec)),
        Source::Leaving { rec } => of_leaving(machine.rec(rec)),
        Source::Walk { rd, ipa, level } => walk_in(machine, rd, ipa, level),
        Source::Measured { rd, index } => of_measurement(machine.realm(rd), index),
    }
}

/// Whether the realm or the REC that the source is of is there.
#[tactic(auto, unfolding(crate::specs::Reading::stands_for))]
pub fn is_there(machine: &Machine, source: Source) -> bool
    ensures { result ≡ spec.stands_for (state_of machine.now) source }
{
    match source {
        Source::Nothing | Source::Place { .. } | Source::Tag { .. } => true,
        Source::State { rd }
        | Source::NextIndex { rd }
        | Source::Space { rd }
        | Source::Walk { rd, .. }
        | Source::Measured { rd, .. } => machine.has_tag(rd, Tag::Rd),
        Source::OwnerState { rec }
        | Source::OwnerSpace { rec }
        | Source::Running { rec }
        | Source::Runnable { rec }
        | Source::Owner { rec }
        | Source::Request { rec }
        | Source::Leaving { rec } => machine.has_tag(rec, Tag::Rec),
    }
}

// The realm of a REC.
#[tactic(auto, unfolding(realm_desc::specs::View::rec_record))]
fn owner_realm(machine: &Machine, rec: Option<Rec>) -> Option<Realm>
    ensures { result ≡ spec.owner_realm (state_of machine.now) rec }
{
    match rec {
        Some(rec) => machine.realm(rec.owner.address()),
        None => None,
    }
}

fn one(number: u64) -> ArrayVec<u64, 10>
    ensures { result.items ≡ number ∷ [] }
{
    let mut read = ArrayVec::new();
    read.push(number);
    read
}

fn of_place(rec: Option<u64>) -> ArrayVec<u64, 10>
    ensures { result.items ≡ spec.cpu_read rec }
{
    match rec {
        Some(rec) => one(rec),
        None => ArrayVec::new(),
    }
}

// A granule's tag as a number.
fn tag_read(machine: &Machine, granule: u64) -> u64
    ensures { result ≡ spec.tag_read (state_of machine.now) granule }
{
    if machine.has_tag(granule, Tag::Undelegated) {
        0
    } else if machine.has_tag(granule, Tag::Delegated) {
        1
    } else if machine.has_tag(granule, Tag::Rd) {
        2
    } else if machine.has_tag(granule, Tag::Rec) {
        3
    } else if machine.has_tag(granule, Tag::RecAux) {
        4
    } else if machine.has_tag(granule, Tag::Data) {
        5
    } else {
        6
    }
}

#[tactic(auto, unfolding(realm_desc::specs::View::realm_record))]
fn of_state(realm: Option<Realm>) -> ArrayVec<u64, 10>
    ensures { result.items ≡ spec.of_realm spec.state_read realm }
{
    match realm {
        Some(realm) => one(state_number(realm.state)),
        None => ArrayVec::new(),
    }
}

fn state_number(state: RealmState) -> u64
    ensures { result ≡ spec.state_number state }
{
    match state {
        RealmState::New => 0,
        RealmState::Active => 1,
        RealmState::SystemOff => 2,
    }
}

#[tactic(auto, unfolding(realm_desc::specs::View::realm_record))]
fn of_index(realm: Option<Realm>) -> ArrayVec<u64, 10>
    ensures { result.items ≡ spec.of_realm spec.index_read realm }
{
    match realm {
        Some(realm) => one(u64::from(realm.next_index)),
        None => ArrayVec::new(),
    }
}

#[tactic(auto, unfolding(realm_desc::specs::View::realm_record))]
fn of_space(realm: Option<Realm>) -> ArrayVec<u64, 10>
    ensures { result.items ≡ spec.of_realm spec.space_read realm }
{
    let mut read = ArrayVec::new();
    if let Some(realm) = realm {
        read.push(u64::from(realm.space.width()));
        read.push(u64::from(realm.start_level()));
        read.push(u64::from(realm.algorithm.number()));
    }
    read
}

#[tactic(auto, unfolding(realm_desc::specs::View::rec_record))]
fn of_cpu(rec: Option<Rec>) -> ArrayVec<u64, 10>
    ensures { result.items ≡ spec.of_rec spec.running_read rec }
{
    let Some(rec) = rec else {
        return ArrayVec::new();
    };
    match rec.cpu {
        Some(cpu) => one(u64::from(cpu)),
        None => ArrayVec::new(),
    }
}

#[tactic(auto, unfolding(realm_desc::specs::View::rec_record))]
fn of_runnable(rec: Option<Rec>) -> ArrayVec<u64, 10>
    ensures { result.items ≡ spec.of_rec spec.runnable_read rec }
{
    match rec {
        Some(rec) if rec.runnable => one(1),
        Some(_) => one(0),
        None => ArrayVec::new(),
    }
}

#[tactic(auto, unfolding(realm_desc::specs::View::rec_record))]
fn of_owner(rec: Option<Rec>) -> ArrayVec<u64, 10>
    ensures { result.items ≡ spec.of_rec spec.owner_read rec }
{
    match rec {
        Some(rec) => one(rec.owner.address()),
        None => ArrayVec::new(),
    }
}

#[tactic(auto, unfolding(realm_desc::specs::View::rec_record))]
fn of_request(rec: Option<Rec>) -> ArrayVec<u64, 10>
    ensures { result.items ≡ spec.of_rec spec.asked_read rec }
{
    let Some(rec) = rec else {
        return ArrayVec::new();
    };
    let Some(request) = rec.request else {
        return ArrayVec::new();
    };
    let mut read = ArrayVec::new();
    read.push(request.base);
    read.push(request.top);
    read.push(ripas_number(request.ripas));
    read
}

fn of_leaving(rec: Option<Rec>) -> ArrayVec<u64, 10>
    ensures { result.items ≡ spec.of_rec spec.leaving_read rec }
{
    match rec {
        Some(rec) => answer_to_exit(&rec).words,
        None => ArrayVec::new(),
    }
}

// Where a walk ends in a realm that is there.
fn walk_in(machine: &Machine, rd: u64, ipa: u64, level: u8) -> ArrayVec<u64, 10>
    ensures { result.items ≡ spec.walk_in (state_of machine.now) rd ipa level }
{
    if !machine.has_tag(rd, Tag::Rd) {
        return ArrayVec::new();
    }
    of_walk(machine.walk(rd, ipa, level.min(3)))
}

fn of_walk(end: Walked) -> ArrayVec<u64, 10>
    ensures { result.items ≡ spec.walk_read end }
{
    let mut read = ArrayVec::new();
    read.push(u64::from(end.level));
    read.push(entry_state(end.entry));
    read.push(entry_address(end.entry));
    read.push(ripas_number(entry_ripas(end.entry)));
    read
}

fn of_measurement(realm: Option<Realm>, index: u64) -> ArrayVec<u64, 10>
    ensures { result.items ≡ spec.of_realm (spec.measured_read index) realm }
{
    let Some(realm) = realm else {
        return ArrayVec::new();
    };
    match realm.measurement(index.min(4) as u8) {
        Measurement::Sha256(bytes) => listed(&words(bytes)),
        Measurement::Sha512(bytes) => listed(&words8(bytes)),
    }
}

fn listed(words: &[u64]) -> ArrayVec<u64, 10>
    requires { length words.now ≤ 10 }
    ensures { result.items ≡ words.now }
{
    let mut read = ArrayVec::new();
    for i in 0..words.len() {
        read.push(words[i]);
    }
    read
}
