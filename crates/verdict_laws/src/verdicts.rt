//! The laws of verdicts: each is the contract of a function that does nothing.

ghost use Rattle.std.specs.Prelude.{◌≡◌, ℕ, List};
ghost use Rattle.rmm_spec.specs.declared.verdict.Verdict.{Verdict};
ghost use Rattle.rmm_spec.specs.Judgement.{Judges};

/// Two verdicts that are right of the same two texts are equal.
pub fn one_verdict()
    ensures { (v w : Verdict) (history certificate : List ℕ)
        → Judges v history certificate → Judges w history certificate → v ≡ w }
{}

/// Some verdict is right of any two texts.
pub fn a_verdict_exists()
    ensures { (history certificate : List ℕ) → (v : Verdict) × Judges v history certificate }
{}
