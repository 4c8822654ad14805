//! The state before a step, as far as its command names it.

ghost use Rattle.std.specs.Prelude.{◌≡◌, ◌≤◌, All, IfSome, MatchOption, IsTrue, ℕ, [], take};
ghost use Rattle.rmm_spec.specs.Lookup.{is_granule};
ghost use Rattle.rmm_spec.specs.Ownership.{IsTied};
ghost use Rattle.rmm_spec.specs.State.{State};
ghost use Rattle.rmm_spec.specs.Step.Terms as terms;
ghost use Rattle.reasons.specs.Report.{AddsOwners};
ghost use Rattle.spec_machine.specs.View.{state_of};
ghost use Rattle.explain.specs.Before.{AreGranulesBefore, IsBefore, IsEntryBefore, IsGranuleBefore, IsRealmBefore, IsRealmOf, IsRecBefore, IsRecOf, IsWalkBefore};

use crate::fact::{entry_read, found_tag, owner};
use arrayvec::ArrayVec;
use command_rows::Sight;
use command_words::{Name, Way, named, way_of, words_allow};
use memory_map::entry_number;
use reasons::{
    EntryRead, GranuleBefore, OwnerRow, RealmBefore, RecBefore, StateBefore, WalkBefore, rec_inside,
};
use rmm_spec::Call;
use spec_machine::Machine;

/// What the CPU's command names, in the machine's state.
pub(crate) fn state_before(
    machine: &Machine,
    owners: &[OwnerRow],
    cpu: u8,
    call: &Call,
) -> StateBefore
    requires { AddsOwners (state_of machine.now) [] owners.now }
    ensures { IsBefore (state_of machine.now) cpu call.now result }
{
    let rec = rec_named(machine, cpu, call);
    StateBefore {
        granules: granules_before(owners, call),
        realm: realm_named(machine, call, &rec),
        rec,
        walk: walk_before(machine, call),
    }
}

// The granules that a command names.
fn granules_before(owners: &[OwnerRow], call: &Call) -> ArrayVec<GranuleBefore, 4>
    ensures { (s : State) → AddsOwners s [] owners.now → AreGranulesBefore s (take 4 (terms.named call.now)) result.items }
{
    let named = named(call);
    let names = named.as_slice();
    let mut granules = ArrayVec::new();
    for i in 0..names.len().min(4) {
        granules.push(granule_before(owners, names[i]));
    }
    granules
}

// One granule.
fn granule_before(owners: &[OwnerRow], name: Name) -> GranuleBefore
    ensures { (s : State) → AddsOwners s [] owners.now → IsGranuleBefore s name.granule result }
{
    let granule = name.granule;
    GranuleBefore {
        granule,
        tag: found_tag(owners, granule),
        rd: owner_of(owners, granule),
    }
}

// The realm of a granule.
fn owner_of(owners: &[OwnerRow], granule: u64) -> Option<u64>
    ensures { (s : State) → AddsOwners s [] owners.now
        → MatchOption result (IsTrue (is_granule s.config.granules granule) → (realm : ℕ) → ¬ IsTied (s.tag granule) s granule realm)
        (λ realm. IsTied (s.tag granule) s granule realm) }
{
    match owner(owners, granule) {
        Some(row) => realm_of(&row),
        None => None,
    }
}

// The realm of a row.
fn realm_of(row: &OwnerRow) -> Option<u64>
    ensures { result ≡ row.now.realm }
{
    match row.realm {
        Some(realm) => Some(realm.address()),
        None => None,
    }
}

// The realm that a command names, or the REC's.
fn realm_named(machine: &Machine, call: &Call, rec: &Option<RecBefore>) -> Option<RealmBefore>
    ensures { IfSome result (λ realm. IsRealmBefore (state_of machine.now) realm × IsRealmOf call.now rec.now realm.rd) }
{
    let named = named(call);
    let names = named.as_slice();
    for i in 0..names.len() {
        let name = names[i];
        if let Some(realm) = realm_before(machine, name.granule) {
            return Some(realm);
        }
    }
    match rec {
        Some(rec) => realm_before(machine, rec.rd),
        None => None,
    }
}

// A realm, where one is.
#[tactic(auto, unfolding(realm_desc::specs::View::realm_record))]
fn realm_before(machine: &Machine, rd: u64) -> Option<RealmBefore>
    ensures { IfSome result (λ realm. IsRealmBefore (state_of machine.now) realm × (realm.rd ≡ rd)) }
{
    let realm = machine.realm(rd)?;
    Some(RealmBefore {
        rd,
        state: realm.state,
        width: realm.space.width(),
        start_level: realm.space.start_level(),
        vmid: realm.vmid,
        algo: realm.algorithm.number(),
        root: realm.root.address(),
        next_index: realm.next_index,
    })
}

// The REC that a command names, or inside which its CPU is.
fn rec_named(machine: &Machine, cpu: u8, call: &Call) -> Option<RecBefore>
    ensures { IfSome result (λ rec. IsRecBefore (state_of machine.now) rec × IsRecOf (state_of machine.now) cpu call.now rec.rec) }
{
    let named = named(call);
    let names = named.as_slice();
    for i in 0..names.len() {
        let name = names[i];
        if let Some(rec) = rec_before(machine, name.granule) {
            return Some(rec);
        }
    }
    match rec_inside(machine, cpu) {
        Some(rec) => rec_before(machine, rec),
        None => None,
    }
}

// A REC, where one is.
#[tactic(auto, unfolding(realm_desc::specs::View::rec_record))]
fn rec_before(machine: &Machine, rec: u64) -> Option<RecBefore>
    ensures { IfSome result (λ told. IsRecBefore (state_of machine.now) told × (told.rec ≡ rec)) }
{
    let held = machine.rec(rec)?;
    Some(RecBefore {
        rec,
        rd: held.owner.address(),
        index: held.index,
        runnable: held.runnable,
        cpu: held.cpu,
        request: held.request,
        pending: held.pending,
    })
}

// The entries on the command's walk.
fn walk_before(machine: &Machine, call: &Call) -> Option<WalkBefore>
    ensures { IfSome result (IsWalkBefore (state_of machine.now) call.now) }
{
    if !words_allow(call) {
        return None;
    }
    let Way { rd, ipa, max } = way_of(call)?;
    let realm = machine.realm(rd)?;
    if ipa >= realm.space_end() {
        return None;
    }
    Some(WalkBefore {
        ipa,
        entries: entries_on(machine, rd, ipa, realm.start_level(), max.min(3)),
    })
}

// From the root's on.
fn entries_on(machine: &Machine, rd: u64, ipa: u64, first: u8, max: u8) -> ArrayVec<EntryRead, 4>
    requires { max ≤ 3 }
    ensures { All (IsEntryBefore (state_of machine.now) rd ipa) result.items }
{
    let last = machine.walk(rd, ipa, max).level;
    let mut entries = ArrayVec::new();
    for level in 0..4u8 {
        if level >= first && level <= last {
            let entry = machine.entry_at(rd, level, entry_number(level, ipa));
            entries.push(entry_read(level, entry));
        }
    }
    entries
}
