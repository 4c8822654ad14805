//! A realm asks for a RIPAS of its memory, and reads one.

ghost use Rattle.std.specs.Prelude.{◌≡◌, ℕ, IfOk, IfSome, IsTrue, is_some};
ghost use Rattle.rmm_spec.specs.State.{State};
ghost use Rattle.rmm_spec.specs.Lookup.{realm_at, rec_at};
ghost use Rattle.rmm_spec.specs.Step.RealmCall.{ipa_state_set, ipa_state_get};
ghost use Rattle.rmm_spec.specs.Walk.{walk, entry_ripas, is_protected};
ghost use Rattle.rec_steps.specs.Answers.{answer_at, IsStep};

use crate::step::RecStep;
use memory_map::{is_page, ripas_number};
use realm_desc::Realm;
use rmm_spec::{Condition, RecUpdate, Refusal, Ripas};

#[tactic(auto, unfolding(rmm_spec::specs::Step::RealmCall::ipa_state_set, rmm_spec::specs::Step::Terms::words_of, rmm_spec::specs::Step::Terms::named))]
pub(crate) fn ipa_state_set(
    realm: &Realm,
    base: u64,
    top: u64,
    ripas: u64,
) -> Result<RecStep, Refusal>
    ensures answer { (s : State) (rec : ℕ) → realm_at s (rec_at s rec).owner ≡ realm.now
        → answer_at (rec_at s rec).owner rec result ≡ ipa_state_set s rec base top ripas }
    ensures fits { IfOk result IsStep }
{
    if !is_page(base) {
        return Err(Refusal::Input(Condition::BaseAlign));
    }
    if !is_page(top) {
        return Err(Refusal::Input(Condition::TopAlign));
    }
    if base >= top {
        return Err(Refusal::Input(Condition::SizeValid));
    }
    if ripas > 1 {
        return Err(Refusal::Input(Condition::RipasValid));
    }
    if top > realm.protected_end() {
        return Err(Refusal::Input(Condition::RgnBound));
    }
    let ripas = if ripas == 0 { Ripas::Empty } else { Ripas::Ram };
    Ok(RecStep::of_rec(RecUpdate::RipasRequested { base, top, ripas }))
}

/// The RIPAS is that of the entry for the address, and is needed only where the address is a page of the protected half.
#[tactic(auto, unfolding(rmm_spec::specs::Step::RealmCall::ipa_state_get, rmm_spec::specs::Step::Terms::words_of, rmm_spec::specs::Step::Terms::named))]
pub(crate) fn ipa_state_get(
    realm: &Realm,
    ipa: u64,
    ripas: Option<Ripas>,
) -> Result<RecStep, Refusal>
    requires { IsTrue (is_protected realm.now ipa) → IsTrue (is_some ripas) }
    ensures answer { (s : State) (rec : ℕ) → realm_at s (rec_at s rec).owner ≡ realm.now
        → IfSome ripas (λ read. entry_ripas (walk s (rec_at s rec).owner ipa 3).entry ≡ read)
        → answer_at (rec_at s rec).owner rec result ≡ ipa_state_get s rec ipa }
    ensures fits { IfOk result IsStep }
{
    if !is_page(ipa) {
        return Err(Refusal::Input(Condition::IpaAlign));
    }
    if ipa >= realm.protected_end() {
        return Err(Refusal::Input(Condition::IpaBound));
    }
    let Some(ripas) = ripas else { unreachable!() };
    Ok(RecStep::read(&[ripas_number(ripas)]))
}
