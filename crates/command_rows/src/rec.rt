//! The commands that make a REC, enter it and take it apart.

ghost use Rattle.std.specs.Prelude.{◌≡◌};
ghost use Rattle.rmm_spec.specs.declared.call.Call.TheVariants.{RecEnter};
ghost use Rattle.rmm_spec.specs.Step.Rec as spec;
ghost use Rattle.command_rows.specs.Answers.{IsOwned};

use crate::inside::owner;
use crate::reply::{accepted_at, done};
use crate::sight::Sight;
use command_words::are_apart;
use realm_desc::RECS;
use rec_steps::answer_to_enter;
use rmm_spec::{Accepted, Change, Condition, Refusal, Tag};

/// The words of REC_CREATE.
#[derive(Clone, Copy)]
pub(crate) struct RecCreate {
    pub(crate) rd: u64,
    pub(crate) rec: u64,
    pub(crate) mpidr: u64,
    pub(crate) flags: u64,
    pub(crate) aux0: u64,
    pub(crate) aux1: u64,
}

#[tactic(auto, unfolding(rmm_spec::specs::Step::Rec::rec_create, rmm_spec::specs::Step::Terms::words_of, rmm_spec::specs::Step::Terms::named, rmm_spec::specs::Lookup::realm_at))]
#[inline(never)]
pub(crate) fn rec_create<S: Sight>(sight: &S, call: RecCreate) -> Result<Accepted, Refusal>
    ensures { result ≡ spec.rec_create (S.state sight.now) call.rd call.rec call.mpidr call.flags call.aux0 call.aux1 }
{
    if !are_apart(call.rec, call.aux0, call.aux1) {
        return Err(Refusal::Input(Condition::AuxAlias));
    }
    if call.flags > 1 {
        return Err(Refusal::Input(Condition::OwnFlags));
    }
    let Some(realm) = sight.realm(call.rd) else {
        return Err(Refusal::Input(Condition::GranState));
    };
    if !sight.has_tag(call.rec, Tag::Delegated) {
        return Err(Refusal::Input(Condition::GranState));
    }
    if !sight.has_tag(call.aux0, Tag::Delegated) {
        return Err(Refusal::Input(Condition::GranState));
    }
    if !sight.has_tag(call.aux1, Tag::Delegated) {
        return Err(Refusal::Input(Condition::GranState));
    }
    if !realm.is_new() {
        return Err(Refusal::Realm(Condition::RealmState, 0));
    }
    if !realm.is_next_index(call.mpidr) {
        return Err(Refusal::Input(Condition::MpidrIndex));
    }
    if call.mpidr >= RECS {
        return Err(Refusal::Input(Condition::OwnRecCount));
    }
    Ok(done(Change::RecMade {
        rd: call.rd,
        rec: call.rec,
        mpidr: call.mpidr as u8,
        flags: call.flags,
        aux0: call.aux0,
        aux1: call.aux1,
    }))
}

#[tactic(auto, unfolding(rmm_spec::specs::Step::Rec::rec_destroy, rmm_spec::specs::Step::Terms::words_of, rmm_spec::specs::Step::Terms::named, rmm_spec::specs::Lookup::rec_at, realm_desc::specs::View::rec_record))]
#[inline(never)]
pub(crate) fn rec_destroy<S: Sight>(sight: &S, address: u64) -> Result<Accepted, Refusal>
    ensures { result ≡ spec.rec_destroy (S.state sight.now) address }
{
    let Some(rec) = sight.rec(address) else {
        return Err(Refusal::Input(Condition::GranState));
    };
    if !rec.is_ready() {
        return Err(Refusal::Rec(Condition::RecState));
    }
    Ok(done(Change::RecDestroyed {
        rec: address,
        aux0: rec.aux0.address(),
        aux1: rec.aux1.address(),
    }))
}

#[tactic(auto, unfolding(rmm_spec::specs::Step::Rec::rec_enter, rmm_spec::specs::Step::Terms::words_of, rmm_spec::specs::Step::Terms::named))]
#[inline(never)]
pub(crate) fn rec_enter<S: Sight>(sight: &S, cpu: u8, address: u64) -> Result<Accepted, Refusal>
    requires { IsOwned (S.state sight.now) (RecEnter address) }
    ensures { result ≡ spec.rec_enter (S.state sight.now) cpu address }
{
    let Some(rec) = sight.rec(address) else {
        return Err(Refusal::Input(Condition::GranState));
    };
    let rd = owner(&rec);
    let Some(realm) = sight.realm(rd) else {
        unreachable!()
    };
    let answer = answer_to_enter(&realm, &rec, cpu);
    accepted_at(rd, address, answer)
}
