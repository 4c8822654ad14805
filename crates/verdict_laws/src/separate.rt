//! The laws of calls on the tables of different realms, and on different granules.

ghost use Rattle.std.specs.Prelude.{◌≡◌, ℕ, List};
ghost use Rattle.rmm_spec.specs.declared.command.Command.{Command};
ghost use Rattle.rmm_spec.specs.declared.line.Line.{Line};
ghost use Rattle.rmm_spec.specs.declared.reply.Reply.{Reply};
ghost use Rattle.rmm_spec.specs.Call.{call_of};
ghost use Rattle.rmm_spec.specs.HistoryText.{History};
ghost use Rattle.rmm_spec.specs.State.{State};
ghost use Rattle.rmm_spec.specs.Step.{Step};
ghost use Rattle.verdict_laws.specs.Forward.{Passes};
ghost use Rattle.verdict_laws.specs.Separate.{AreSeparate, AreSeparateLines};

/// Two such calls, with these replies, may as well come the other way round.
pub fn separate_calls_exchange()
    ensures { (old middle new : State) (cpu other : ℕ) (one two : Command) (given answered : Reply)
        → AreSeparate (call_of one) given (call_of two) answered
        → Step old cpu one given middle → Step middle other two answered new
        → (between : State) × Step old other two answered between × Step between cpu one given new }
{}

/// So such a call passes the other, wherever open calls lead.
pub fn separate_calls_pass()
    ensures { (history : History) (place : ℕ) (lines : List Line) (state : State) (line other : Line)
        → AreSeparateLines history.events line other
        → Passes history place lines state line other }
{}
