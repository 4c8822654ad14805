//! A realm reads its measurements and extends them.

ghost use Rattle.std.specs.Prelude.{◌≡◌, ◌≤◌, ℕ, List, IfOk};
ghost use Rattle.rmm_spec.specs.State.{State};
ghost use Rattle.rmm_spec.specs.Lookup.{realm_at, rec_at};
ghost use Rattle.rmm_spec.specs.Step.RealmCall.{measurement_read, measurement_extend};
ghost use Rattle.rec_steps.specs.Answers.{answer_at, extension_at, IsStep};

use crate::step::RecStep;
use arrayvec::ArrayVec;
use realm_desc::{Realm, words, words8};
use rmm_spec::{Condition, Measurement, RealmUpdate, Refusal};

#[tactic(auto, unfolding(rmm_spec::specs::Step::RealmCall::measurement_read, rmm_spec::specs::Step::Terms::words_of, rmm_spec::specs::Step::Terms::named))]
pub(crate) fn measurement_read(realm: &Realm, index: u64) -> Result<RecStep, Refusal>
    ensures answer { (s : State) (rec : ℕ) → realm_at s (rec_at s rec).owner ≡ realm.now
        → answer_at (rec_at s rec).owner rec result ≡ measurement_read s rec index }
    ensures fits { IfOk result IsStep }
{
    if index > 4 {
        return Err(Refusal::Input(Condition::IndexBound));
    }
    match realm.measurement(index as u8) {
        Measurement::Sha256(bytes) => Ok(RecStep::read(&words(bytes))),
        Measurement::Sha512(bytes) => Ok(RecStep::read(&words8(bytes))),
    }
}

/// Which measurement is extended, from 1 to 4, and by how many bytes, from 1 to 64.
#[derive(Clone, Copy)]
pub struct Extension {
    pub index: u8,
    pub size: u8,
}

// The extension that the words ask for.
#[tactic(auto, unfolding(rmm_spec::specs::Step::RealmCall::measurement_extend, rmm_spec::specs::Step::Terms::words_of, rmm_spec::specs::Step::Terms::named))]
pub(crate) fn extension_of(index: u64, size: u64) -> Result<Extension, Refusal>
    ensures answer { (s : State) (rec : ℕ) (values : List ℕ)
        → extension_at (rec_at s rec).owner values result ≡ measurement_extend s rec index size values }
    ensures fits { IfOk result (λ extension. (1 ≤ extension.index) × (extension.index ≤ 4) × (extension.size ≤ 0x40)) }
{
    if index < 1 || index > 4 {
        return Err(Refusal::Input(Condition::IndexBound));
    }
    if size < 1 || size > 0x40 {
        return Err(Refusal::Input(Condition::SizeBound));
    }
    Ok(Extension {
        index: index as u8,
        size: size as u8,
    })
}

pub(crate) fn measurement_extend(
    index: u64,
    size: u64,
    values: &[u64; 8],
) -> Result<RecStep, Refusal>
    ensures answer { (s : State) (rec : ℕ)
        → answer_at (rec_at s rec).owner rec result ≡ measurement_extend s rec index size values.now }
    ensures fits { IfOk result IsStep }
{
    let Extension { index, size } = extension_of(index, size)?;
    Ok(RecStep {
        words: ArrayVec::new(),
        realm: Some(RealmUpdate::MeasurementExtended {
            index,
            size,
            values: *values,
        }),
        rec: None,
    })
}
