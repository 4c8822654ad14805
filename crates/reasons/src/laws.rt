//! That the lists are those of the definitions, and of which words.

ghost use Rattle.std.specs.Prelude.{◌≡◌, ℕ, List};
ghost use Rattle.rmm_spec.specs.declared.call.Call.{Call};
ghost use Rattle.rmm_spec.specs.declared.function_id.FunctionId.{FunctionId};
ghost use Rattle.rmm_spec.specs.Call.{call_from};
ghost use Rattle.rmm_spec.specs.Lookup.{rec_inside};
ghost use Rattle.rmm_spec.specs.State.{State};
ghost use Rattle.rmm_spec.specs.Step.{outcome};
ghost use Rattle.reasons.specs.Law.{AreOfWords, first_failing, refused_for};
ghost use Rattle.reasons.specs.Lists.{conditions};

/// In every state, a command is refused for the first of its conditions that fails, and accepted where each passes.
pub fn conditions_decide()
    ensures { (s : State) (cpu : ℕ) (given : Call)
        → refused_for (outcome s cpu given) ≡ first_failing s (conditions cpu (rec_inside s cpu) given) }
{}

/// What a condition asks of a word, it asks of the command's word at that place.
pub fn words_are_asked()
    ensures { (function : FunctionId) (words : List ℕ) (cpu rec : ℕ) → AreOfWords words (conditions cpu rec (call_from function words)) }
{}
