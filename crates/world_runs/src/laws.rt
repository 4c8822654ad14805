//! What holds of the runs of scenarios. Each promise is the contract of a function that does nothing.

ghost use Rattle.std.specs.Prelude.{◌≡◌, ℕ, ◌<◌, List};
ghost use Rattle.rmm_spec.specs.declared.verdict.Verdict.{Verdict};
ghost use Rattle.rmm_spec.specs.Scenario.{Scenario};
ghost use Rattle.rmm_spec.specs.World.{World};
ghost use Rattle.world_runs.specs.Played.{IsPlayed, IsPrinted, played_world};

/// A scenario has one run: turns that are played from it lead to one world, and what is printed is one text with one verdict.
pub fn runs_are_one()
    ensures world { (scenario : Scenario) (w : World) → 0 < scenario.config.cpus → IsPlayed scenario w → w ≡ played_world scenario }
    ensures text { (scenario : Scenario) (judged other : Verdict) (text second : List ℕ)
        → IsPrinted scenario judged text → IsPrinted scenario other second
        → (judged ≡ other) × (text ≡ second) }
{}
