//! A realm reads how it was made.

ghost use Rattle.std.specs.Prelude.{◌≡◌, ℕ, IfOk};
ghost use Rattle.rmm_spec.specs.State.{State};
ghost use Rattle.rmm_spec.specs.Lookup.{realm_at, rec_at};
ghost use Rattle.rmm_spec.specs.Step.RealmCall.{realm_config};
ghost use Rattle.rec_steps.specs.Answers.{answer_at, IsStep};

use crate::step::RecStep;
use realm_desc::Realm;
use rmm_spec::Refusal;

#[tactic(auto, unfolding(rmm_spec::specs::Step::RealmCall::realm_config, rmm_spec::specs::Step::Terms::words_of, rmm_spec::specs::Step::Terms::named, realm_desc::specs::View::realm_record))]
pub(crate) fn config_of(realm: &Realm) -> Result<RecStep, Refusal>
    ensures answer { (s : State) (rec : ℕ) → realm_at s (rec_at s rec).owner ≡ realm.now
        → answer_at (rec_at s rec).owner rec result ≡ realm_config s rec }
    ensures fits { IfOk result IsStep }
{
    let width = realm.space.width();
    let algorithm = realm.algorithm.number();
    Ok(RecStep::read(&[u64::from(width), u64::from(algorithm)]))
}
