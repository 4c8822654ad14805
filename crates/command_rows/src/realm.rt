//! The commands that make a realm, let it run and take it apart.

ghost use Rattle.std.specs.Prelude.{◌≡◌};
ghost use Rattle.rmm_spec.specs.Step.Realm as spec;

use crate::reply::done;
use crate::sight::Sight;
use command_words::{algorithm_in, is_width};
use realm_desc::Space;
use rmm_spec::{Accepted, Change, Condition, EntryTest, RealmChange, RealmUpdate, Refusal, Tag};

/// The words of REALM_CREATE.
#[derive(Clone, Copy)]
pub(crate) struct RealmCreate {
    pub(crate) rd: u64,
    pub(crate) root: u64,
    pub(crate) width: u64,
    pub(crate) level: u64,
    pub(crate) vmid: u64,
    pub(crate) algo: u64,
}

#[tactic(auto, unfolding(rmm_spec::specs::Step::Terms::words_of, rmm_spec::specs::Step::Terms::named))]
#[inline(never)]
pub(crate) fn realm_create<S: Sight>(sight: &S, call: RealmCreate) -> Result<Accepted, Refusal>
    ensures { result ≡ spec.realm_create_told (S.uses_vmid sight.now call.vmid) (S.state sight.now)
        call.rd call.root call.width call.level call.vmid call.algo }
{
    if call.rd == call.root {
        return Err(Refusal::Input(Condition::Alias));
    }
    if !is_width(call.width) {
        return Err(Refusal::Input(Condition::ParamsSupp));
    }
    let Some(space) = Space::of(call.width, call.level) else {
        return Err(Refusal::Input(Condition::RttNumLevel));
    };
    if call.vmid > 0xff {
        return Err(Refusal::Input(Condition::VmidValid));
    }
    if !sight.has_tag(call.rd, Tag::Delegated) {
        return Err(Refusal::Input(Condition::GranState));
    }
    if !sight.has_tag(call.root, Tag::Delegated) {
        return Err(Refusal::Input(Condition::GranState));
    }
    let Some(algorithm) = algorithm_in(sight.version(), call.algo) else {
        return Err(Refusal::Input(Condition::ParamsSupp));
    };
    let vmid = call.vmid as u8;
    if sight.is_vmid_used(vmid) {
        return Err(Refusal::Input(Condition::VmidValid));
    }
    Ok(done(Change::RealmMade {
        rd: call.rd,
        root: call.root,
        width: space.width(),
        level: space.start_level(),
        vmid,
        algo: algorithm.number(),
    }))
}

#[tactic(auto, unfolding(rmm_spec::specs::Step::Realm::realm_activate, rmm_spec::specs::Step::Terms::words_of, rmm_spec::specs::Step::Terms::named, rmm_spec::specs::Lookup::realm_at))]
#[inline(never)]
pub(crate) fn realm_activate<S: Sight>(sight: &S, rd: u64) -> Result<Accepted, Refusal>
    ensures { result ≡ spec.realm_activate (S.state sight.now) rd }
{
    let Some(realm) = sight.realm(rd) else {
        return Err(Refusal::Input(Condition::GranState));
    };
    if !realm.is_new() {
        return Err(Refusal::Realm(Condition::RealmState, 0));
    }
    let update = RealmUpdate::Activated;
    Ok(done(Change::RecordsChanged {
        realm: Some(RealmChange { rd, update }),
        rec: None,
    }))
}

#[tactic(auto, unfolding(rmm_spec::specs::Step::Terms::words_of, rmm_spec::specs::Step::Terms::named, rmm_spec::specs::Lookup::realm_at, realm_desc::specs::View::realm_record))]
#[inline(never)]
pub(crate) fn realm_destroy<S: Sight>(sight: &S, rd: u64) -> Result<Accepted, Refusal>
    ensures { result ≡ spec.realm_destroy_told (S.has_recs sight.now rd) (S.state sight.now) rd }
{
    let Some(realm) = sight.realm(rd) else {
        return Err(Refusal::Input(Condition::GranState));
    };
    if sight.has_rec(rd) {
        return Err(Refusal::Realm(Condition::RealmLive, 0));
    }
    if sight.has_entry(rd, realm.start_level(), 0, EntryTest::Link) {
        return Err(Refusal::Realm(Condition::RealmLive, 0));
    }
    let root = realm.root.address();
    Ok(done(Change::RealmDestroyed { rd, root }))
}
