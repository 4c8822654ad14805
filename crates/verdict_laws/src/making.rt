//! The laws of calls that make a realm or a REC, beside calls of other realms and on other granules.

ghost use Rattle.std.specs.Prelude.{◌≡◌, ℕ, List};
ghost use Rattle.rmm_spec.specs.declared.command.Command.{Command};
ghost use Rattle.rmm_spec.specs.declared.line.Line.{Line};
ghost use Rattle.rmm_spec.specs.declared.reply.Reply.{Reply};
ghost use Rattle.rmm_spec.specs.Call.{call_of};
ghost use Rattle.rmm_spec.specs.HistoryText.{History, IsHistory};
ghost use Rattle.rmm_spec.specs.Sound.{IsSound};
ghost use Rattle.rmm_spec.specs.State.{State};
ghost use Rattle.rmm_spec.specs.Step.{Step};
ghost use Rattle.verdict_laws.specs.Forward.{IsKept, Passes};
ghost use Rattle.verdict_laws.specs.Making.{AreMadeApart, AreMadeApartLines};

/// Two such calls on two CPUs, with these replies, may as well come the other way round.
pub fn made_apart_exchange()
    ensures { (old middle new : State) (cpu other : ℕ) (one two : Command) (given answered : Reply)
        → IsSound old → ¬ (cpu ≡ other) → AreMadeApart (call_of one) given (call_of two) answered
        → Step old cpu one given middle → Step middle other two answered new
        → (between : State) × Step old other two answered between × Step between cpu one given new }
{}

/// So such a call passes the other, wherever open calls lead.
pub fn made_apart_pass()
    ensures { (history : History) (place : ℕ) (lines : List Line) (state : State) (line other : Line) → IsHistory history
        → IsKept history place lines state → AreMadeApartLines history.events line other
        → Passes history place lines state line other }
{}
