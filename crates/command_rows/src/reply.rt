//! Acceptances, as the definitions' rows say them.

ghost use Rattle.std.specs.Prelude.{◌≡◌, [], ◌∷◌};
ghost use Rattle.rmm_spec.specs.declared.change.Change.TheVariants.{Unchanged};
ghost use Rattle.rmm_spec.specs.Rows as rows;
ghost use Rattle.rec_steps.specs.Answers.{answer_at};

use arrayvec::ArrayVec;
use rec_steps::RecStep;
use rmm_spec::{Accepted, Change, Refusal};

/// The change is made, and the reply has no words.
pub fn done(change: Change) -> Accepted
    ensures { result ≡ rows.done [] change }
{
    Accepted::Done {
        words: ArrayVec::new(),
        change,
    }
}

/// The change is made, and the reply has this word.
pub fn done_with(word: u64, change: Change) -> Accepted
    ensures { result ≡ rows.done (word ∷ []) change }
{
    let mut words = ArrayVec::new();
    words.push(word);
    Accepted::Done { words, change }
}

/// Nothing changes, and the reply has these words.
pub fn told(told: [u64; 4]) -> Accepted
    ensures { result ≡ rows.done told Unchanged }
{
    let [first, second, third, fourth] = told;
    let mut words = ArrayVec::new();
    words.push(first);
    words.push(second);
    words.push(third);
    words.push(fourth);
    Accepted::Done {
        words,
        change: Change::Unchanged,
    }
}

/// What is answered to the REC and its realm at their addresses.
pub fn accepted_at(rd: u64, rec: u64, answer: Result<RecStep, Refusal>) -> Result<Accepted, Refusal>
    ensures { result ≡ answer_at rd rec answer }
{
    match answer {
        Ok(step) => Ok(step.accepted(rd, rec)),
        Err(refusal) => Err(refusal),
    }
}
