//! The commands that lend a granule to the realm world and take it back.

ghost use Rattle.std.specs.Prelude.{◌≡◌};
ghost use Rattle.rmm_spec.specs.Step.Granule as spec;

use crate::reply::done;
use crate::sight::Sight;
use rmm_spec::{Accepted, Change, Condition, Refusal, Tag, TagChange};

#[tactic(auto, unfolding(rmm_spec::specs::Step::Granule::granule_delegate, rmm_spec::specs::Step::Terms::words_of, rmm_spec::specs::Step::Terms::named))]
pub(crate) fn granule_delegate<S: Sight>(sight: &S, granule: u64) -> Result<Accepted, Refusal>
    ensures { result ≡ spec.granule_delegate (S.state sight.now) granule }
{
    if !sight.has_tag(granule, Tag::Undelegated) {
        return Err(Refusal::Input(Condition::GranState));
    }
    let tag = Tag::Delegated;
    Ok(done(Change::Retagged(TagChange { granule, tag })))
}

#[tactic(auto, unfolding(rmm_spec::specs::Step::Granule::granule_undelegate, rmm_spec::specs::Step::Terms::words_of, rmm_spec::specs::Step::Terms::named))]
pub(crate) fn granule_undelegate<S: Sight>(sight: &S, granule: u64) -> Result<Accepted, Refusal>
    ensures { result ≡ spec.granule_undelegate (S.state sight.now) granule }
{
    if !sight.has_tag(granule, Tag::Delegated) {
        return Err(Refusal::Input(Condition::GranState));
    }
    let tag = Tag::Undelegated;
    Ok(done(Change::Retagged(TagChange { granule, tag })))
}
