//! What the words of this crate's clauses mean of states, and that no two answers are counted in one place.

ghost use Rattle.std.specs.Prelude.{◌≡◌, ℕ, Option, false};
ghost use Rattle.rmm_spec.specs.declared.change.Change.{Change};
ghost use Rattle.rmm_spec.specs.declared.condition.Condition.{Condition};
ghost use Rattle.rmm_spec.specs.declared.function_id.FunctionId.{FunctionId};
ghost use Rattle.rmm_spec.specs.Change.{changed};
ghost use Rattle.rmm_spec.specs.State.{State};
ghost use Rattle.run_steps.specs.Places.{place_of};
ghost use Rattle.run_steps.specs.Touched.{touches};

/// Law: a granule that a change doesn't touch keeps its tag, and the realm or the REC that it is its record.
pub fn untouched()
    ensures tag { (s : State) (change : Change) (granule : ℕ) → touches change granule ≡ false → (changed s change).tag granule ≡ s.tag granule }
    ensures realm { (s : State) (change : Change) (granule : ℕ)
        → touches change granule ≡ false → (changed s change).realm granule ≡ s.realm granule }
    ensures rec { (s : State) (change : Change) (granule : ℕ) → touches change granule ≡ false → (changed s change).rec granule ≡ s.rec granule }
{}

/// Law: each function has a place of its own for what is accepted, and for each condition.
pub fn places_differ()
    ensures function { (called other : FunctionId) (refused failed : Option Condition)
        → place_of called refused ≡ place_of other failed → called ≡ other }
    ensures condition { (called other : FunctionId) (refused failed : Option Condition)
        → place_of called refused ≡ place_of other failed → refused ≡ failed }
{}
