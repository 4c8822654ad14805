//! The laws of calls that end a REC or a realm, beside calls that make others, work on tables or lend granules, and beside each other.

ghost use Rattle.std.specs.Prelude.{◌≡◌, ℕ, true, List};
ghost use Rattle.rmm_spec.specs.declared.command.Command.{Command};
ghost use Rattle.rmm_spec.specs.declared.line.Line.{Line};
ghost use Rattle.rmm_spec.specs.declared.reply.Reply.{Reply};
ghost use Rattle.rmm_spec.specs.Call.{call_of};
ghost use Rattle.rmm_spec.specs.HistoryText.{History, IsHistory};
ghost use Rattle.rmm_spec.specs.Ownership.{is_accepted};
ghost use Rattle.rmm_spec.specs.Sound.{IsSound};
ghost use Rattle.rmm_spec.specs.State.{State};
ghost use Rattle.rmm_spec.specs.Step.{Step};
ghost use Rattle.verdict_laws.specs.Apart.{IsCarriedOut};
ghost use Rattle.verdict_laws.specs.Ending.{EndsApart, EndsApartLines, EndsLater, EndsLaterLines, IsLeftAlone, NamesNoPart};
ghost use Rattle.verdict_laws.specs.Forward.{IsKept, Passes};

/// A call that makes something or is local, and one on another CPU that ends a REC or a realm which the first doesn't name, may as well come the
/// other way round where both are carried out: what is ended gives back granules that are in use, and so none that the first names.
pub fn ending_comes_first()
    ensures { (old middle new : State) (cpu other : ℕ) (one two : Command) (given answered : Reply)
        → IsSound old → ¬ (cpu ≡ other) → EndsApart (call_of one) (call_of two) → is_accepted given ≡ true → is_accepted answered ≡ true
        → Step old cpu one given middle → Step middle other two answered new
        → (between : State) × Step old other two answered between × Step between cpu one given new }
{}

/// So the call passes the other, wherever open calls lead.
pub fn ending_is_passed()
    ensures { (history : History) (place : ℕ) (lines : List Line) (state : State) (line other : Line) → IsHistory history
        → IsKept history place lines state → EndsApartLines history.events line other → IsCarriedOut history.events line
        → IsCarriedOut history.events other → Passes history place lines state line other }
{}

/// A call that ends a REC or a realm, and one on another CPU that doesn't name what is ended, and makes, changes or ends something, may as well
/// come the other way round where both are carried out and no granule that the second names is a part of anything before them.
pub fn ending_comes_last()
    ensures { (old middle new : State) (cpu other : ℕ) (one two : Command) (given answered : Reply)
        → IsSound old → EndsLater (call_of one) (call_of two) → NamesNoPart old (call_of two) → is_accepted given ≡ true
        → is_accepted answered ≡ true → Step old cpu one given middle → Step middle other two answered new
        → (between : State) × Step old other two answered between × Step between cpu one given new }
{}

/// So the first passes the second, wherever open calls lead, where no other one names what the second does.
pub fn ending_passes()
    ensures { (history : History) (place : ℕ) (lines : List Line) (state : State) (line other : Line)
        → IsKept history place lines state → EndsLaterLines history.events line other
        → IsLeftAlone history.events place lines state other → IsCarriedOut history.events line
        → IsCarriedOut history.events other → Passes history place lines state line other }
{}
