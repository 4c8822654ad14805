//! The commands that set the RIPAS of a stretch: before the realm runs, or as one of its RECs asked.

ghost use Rattle.std.specs.Prelude.{◌≡◌, ◌<◌, ◌≤◌, ◌+◌, ◌∷◌, [], nat_le};
ghost use Rattle.rmm_spec.specs.declared.accepted.Accepted.TheVariants.{Reaches};
ghost use Rattle.rmm_spec.specs.declared.condition.Condition.TheVariants as condition;
ghost use Rattle.rmm_spec.specs.Rows.{decided, rtt_row};
ghost use Rattle.rmm_spec.specs.Step.Ripas as spec;
ghost use Rattle.rmm_spec.specs.Walk as walk;
ghost use Rattle.rmm_spec.specs.Walk.{is_multiple};

use crate::sight::Sight;
use command_words::{is_aligned, is_page};
use memory_map::{entry_size, is_unassigned};
use rmm_spec::{Accepted, Condition, Refusal, Stretch, StretchUse, Tag};

#[tactic(auto, unfolding(rmm_spec::specs::Step::Ripas::rtt_init_ripas, rmm_spec::specs::Step::Terms::words_of, rmm_spec::specs::Step::Terms::named, rmm_spec::specs::Lookup::realm_at))]
#[inline(never)]
pub(crate) fn rtt_init_ripas<S: Sight>(
    sight: &S,
    rd: u64,
    base: u64,
    top: u64,
) -> Result<Accepted, Refusal>
    ensures { result ≡ spec.rtt_init_ripas (S.state sight.now) rd base top }
{
    if !is_page(base) {
        return Err(Refusal::Input(Condition::OwnBase));
    }
    if !is_page(top) {
        return Err(Refusal::Input(Condition::TopGranAlign));
    }
    if base >= top {
        return Err(Refusal::Input(Condition::SizeValid));
    }
    let Some(realm) = sight.realm(rd) else {
        return Err(Refusal::Input(Condition::GranState));
    };
    if top > realm.protected_end() {
        return Err(Refusal::Input(Condition::TopBound));
    }
    if !realm.is_new() {
        return Err(Refusal::Realm(Condition::RealmState, 0));
    }
    let end = sight.walk(rd, base, 3);
    let level = end.level;
    if !is_unassigned(end.entry) {
        return Err(Refusal::Rtt(Condition::RtteState, level));
    }
    reached(Stretch {
        rd,
        base,
        top,
        level,
        purpose: StretchUse::Init,
    })
}

#[tactic(auto, unfolding(rmm_spec::specs::Step::Ripas::rtt_set_ripas, rmm_spec::specs::Step::Terms::words_of, rmm_spec::specs::Step::Terms::named, rmm_spec::specs::Lookup::rec_at, realm_desc::specs::View::rec_record))]
#[inline(never)]
pub(crate) fn rtt_set_ripas<S: Sight>(
    sight: &S,
    rd: u64,
    address: u64,
    base: u64,
    top: u64,
) -> Result<Accepted, Refusal>
    ensures { result ≡ spec.rtt_set_ripas (S.state sight.now) rd address base top }
{
    if !sight.has_tag(rd, Tag::Rd) {
        return Err(Refusal::Input(Condition::GranState));
    }
    let Some(rec) = sight.rec(address) else {
        return Err(Refusal::Input(Condition::GranState));
    };
    if rec.owner.address() != rd {
        return Err(Refusal::Rec(Condition::RecOwner));
    }
    if !rec.is_ready() {
        return Err(Refusal::Rec(Condition::RecState));
    }
    let Some(request) = rec.request else {
        return Err(Refusal::Input(Condition::OwnRequest));
    };
    if base != request.base {
        return Err(Refusal::Input(Condition::BaseBound));
    }
    if top > request.top {
        return Err(Refusal::Input(Condition::TopBound));
    }
    if base >= top {
        return Err(Refusal::Input(Condition::SizeValid));
    }
    if !is_page(top) {
        return Err(Refusal::Input(Condition::TopGranAlign));
    }
    let ripas = request.ripas;
    reached(Stretch {
        rd,
        base,
        top,
        level: sight.walk(rd, base, 3).level,
        purpose: StretchUse::Requested {
            rec: address,
            ripas,
        },
    })
}

// A stretch from an entry's first address on, at least as long as the entry.
#[inline(always)]
fn reached(stretch: Stretch) -> Result<Accepted, Refusal>
    requires level { stretch.level ≤ 3 }
    requires some { stretch.base < stretch.top }
    ensures { result ≡ decided
        (rtt_row condition.BaseAlign stretch.level (is_multiple stretch.base (walk.entry_size stretch.level))
        ∷ rtt_row condition.TopRttAlign stretch.level (nat_le (stretch.base + walk.entry_size stretch.level) stretch.top) ∷ [])
        (Reaches stretch) }
{
    let level = stretch.level;
    if !is_aligned(stretch.base, level) {
        return Err(Refusal::Rtt(Condition::BaseAlign, level));
    }
    if entry_size(level) > stretch.top - stretch.base {
        return Err(Refusal::Rtt(Condition::TopRttAlign, level));
    }
    Ok(Accepted::Reaches(stretch))
}
