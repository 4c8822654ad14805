//! What the words of this crate's clauses mean.

ghost use Rattle.std.specs.Prelude.{◌≡◌, ℕ, List, Ok};
ghost use Rattle.reasons.specs.Reading.{read};
ghost use Rattle.explain.specs.Deciding.{words_source};
ghost use Rattle.rmm_spec.specs.declared.call.Call.{Call};
ghost use Rattle.rmm_spec.specs.declared.change.Change.{Change};
ghost use Rattle.rmm_spec.specs.Rows.{done};
ghost use Rattle.rmm_spec.specs.Sound.{IsSound};
ghost use Rattle.rmm_spec.specs.State.{State};
ghost use Rattle.rmm_spec.specs.Step.{outcome};

/// Law: where a command is accepted in two states, and what the words of its reply are read from is the same in both, so are the words.
pub fn words_are_read()
    ensures { (s other : State) (cpu : ℕ) (given : Call) (words also : List ℕ) (change next : Change) → IsSound s → IsSound other
        → outcome s cpu given ≡ Ok (done words change) → outcome other cpu given ≡ Ok (done also next)
        → read s (words_source s cpu given) ≡ read other (words_source other cpu given) → words ≡ also }
{}
