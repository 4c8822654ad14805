//! The laws of calls that change a REC alone, beside calls that work on tables or lend granules.

ghost use Rattle.std.specs.Prelude.{◌≡◌, ℕ, List};
ghost use Rattle.rmm_spec.specs.declared.command.Command.{Command};
ghost use Rattle.rmm_spec.specs.declared.line.Line.{Line};
ghost use Rattle.rmm_spec.specs.declared.reply.Reply.{Reply};
ghost use Rattle.rmm_spec.specs.Call.{call_of};
ghost use Rattle.rmm_spec.specs.HistoryText.{History, IsHistory};
ghost use Rattle.rmm_spec.specs.Sound.{IsSound};
ghost use Rattle.rmm_spec.specs.State.{State};
ghost use Rattle.rmm_spec.specs.Step.{Step};
ghost use Rattle.verdict_laws.specs.Beside.{AreBeside, AreBesideLines};
ghost use Rattle.verdict_laws.specs.Forward.{IsKept, Passes};

/// A call that enters a REC, leaves one or asks something of the host there, and one on another CPU that works, but not on the REC's granule, may
/// as well come the other way round, whichever came first.
pub fn entries_exchange()
    ensures entry_first { (old middle new : State) (cpu other : ℕ) (one two : Command) (given answered : Reply)
        → IsSound old → ¬ (cpu ≡ other) → AreBeside (call_of one) (call_of two) answered
        → Step old cpu one given middle → Step middle other two answered new
        → (between : State) × Step old other two answered between × Step between cpu one given new }
    ensures work_first { (old middle new : State) (cpu other : ℕ) (one two : Command) (given answered : Reply)
        → IsSound old → ¬ (cpu ≡ other) → AreBeside (call_of two) (call_of one) given
        → Step old cpu one given middle → Step middle other two answered new
        → (between : State) × Step old other two answered between × Step between cpu one given new }
{}

/// So each passes the other, wherever open calls lead.
pub fn entries_pass()
    ensures entry_first { (history : History) (place : ℕ) (lines : List Line) (state : State) (line other : Line) → IsHistory history
        → IsKept history place lines state → AreBesideLines history.events line other → Passes history place lines state line other }
    ensures work_first { (history : History) (place : ℕ) (lines : List Line) (state : State) (line other : Line) → IsHistory history
        → IsKept history place lines state → AreBesideLines history.events other line → Passes history place lines state line other }
{}
