//! The laws of calls that have nothing to do with each other.

ghost use Rattle.std.specs.Prelude.{◌≡◌, ℕ, true, false, List, Some};
ghost use Rattle.rmm_spec.specs.declared.command.Command.{Command};
ghost use Rattle.rmm_spec.specs.declared.line.Line.{Line};
ghost use Rattle.rmm_spec.specs.declared.reply.Reply.{Reply};
ghost use Rattle.rmm_spec.specs.Call.{call_of};
ghost use Rattle.rmm_spec.specs.Locks.{is_named};
ghost use Rattle.rmm_spec.specs.Ownership.{is_accepted};
ghost use Rattle.rmm_spec.specs.Step.Terms.{named};
ghost use Rattle.rmm_spec.specs.HistoryText.{History, IsHistory};
ghost use Rattle.rmm_spec.specs.Sound.{IsSound};
ghost use Rattle.rmm_spec.specs.State.{State};
ghost use Rattle.rmm_spec.specs.Step.{Step};
ghost use Rattle.verdict_laws.specs.Apart.{IsApart, IsCarriedOut, Lends, LetsLend, NamesOthers, is_apart_from, lent, lets_lend};
ghost use Rattle.verdict_laws.specs.Forward.{IsKept, Passes};

/// A call that lends a granule or takes it back, and one on another CPU that is apart from the granule, may as well come the other way round.
pub fn lending_exchanges()
    ensures { (old middle new : State) (cpu other : ℕ) (one two : Command) (given answered : Reply) (granule : ℕ)
        → IsSound old → ¬ (cpu ≡ other) → lent (call_of one) ≡ Some granule → is_apart_from (call_of two) granule ≡ true
        → Step old cpu one given middle → Step middle other two answered new
        → (between : State) × Step old other two answered between × Step between cpu one given new }
{}

/// So such a call passes the other, wherever open calls lead.
pub fn lending_passes()
    ensures { (history : History) (place : ℕ) (lines : List Line) (state : State) (line other : Line) (granule : ℕ) → IsHistory history
        → IsKept history place lines state → Lends history.events line granule → IsApart history.events other granule
        → Passes history place lines state line other }
{}

/// A call that lends a granule or takes it back, and is carried out, and one on another CPU that doesn't name the granule, may as well come the
/// other way round: what the other gives back without naming it is in use, and so no such granule.
pub fn done_lending_exchanges()
    ensures { (old middle new : State) (cpu other : ℕ) (one two : Command) (given answered : Reply) (granule : ℕ)
        → IsSound old → ¬ (cpu ≡ other) → lent (call_of one) ≡ Some granule → is_accepted given ≡ true
        → is_named (named (call_of two)) granule ≡ false → Step old cpu one given middle → Step middle other two answered new
        → (between : State) × Step old other two answered between × Step between cpu one given new }
{}

/// So such a call passes the other, wherever open calls lead.
pub fn done_lending_passes()
    ensures { (history : History) (place : ℕ) (lines : List Line) (state : State) (line other : Line) (granule : ℕ) → IsHistory history
        → IsKept history place lines state → Lends history.events line granule → IsCarriedOut history.events line
        → NamesOthers history.events other granule → Passes history place lines state line other }
{}

/// A call that may as well come behind a lending, and that lending, which is carried out behind it on another CPU, may come the other way round.
pub fn lending_comes_first()
    ensures { (old middle new : State) (cpu other : ℕ) (one two : Command) (given answered : Reply) (granule : ℕ)
        → IsSound old → ¬ (cpu ≡ other) → lent (call_of two) ≡ Some granule → is_accepted answered ≡ true
        → lets_lend (call_of one) (call_of two) granule ≡ true → Step old cpu one given middle → Step middle other two answered new
        → (between : State) × Step old other two answered between × Step between cpu one given new }
{}

/// So the call passes the lending, wherever open calls lead.
pub fn lending_is_passed()
    ensures { (history : History) (place : ℕ) (lines : List Line) (state : State) (line other : Line) (granule : ℕ) → IsHistory history
        → IsKept history place lines state → Lends history.events other granule → IsCarriedOut history.events other
        → LetsLend history.events line other granule → Passes history place lines state line other }
{}
