//! The laws of a realm's measurements, each by itself.

ghost use Rattle.std.specs.Prelude.{◌≡◌, ℕ, ◌+◌, Bool, List, [], ◌∷◌, ◌++◌, None, Option, Some};
ghost use Rattle.rmm_spec.specs.declared.line.Line.{Line};
ghost use Rattle.rmm_spec.specs.declared.line.Line.TheVariants as line;
ghost use Rattle.rmm_spec.specs.declared.measurement.Measurement.{Measurement};
ghost use Rattle.rmm_spec.specs.declared.reply.Reply.{Reply};
ghost use Rattle.rmm_spec.specs.HistoryText.{History, IsHistory};
ghost use Rattle.rmm_spec.specs.Linearization.{IsLinearization, IsReturned};
ghost use Rattle.verdict_laws.specs.Forward.{MadeBefore};
ghost use Rattle.verdict_laws.specs.Order.{LeadsNowhere};
ghost use Rattle.verdict_laws.specs.Registers.{AreMine, AreNext, HaveParts, IsDone, IsRegister, IsRegisterRun, Possibility, Register, RegisterCall, at_first};

/// The first lines of a linearization, which were made before a place, are a run of each register whose RECs are known there.
pub fn register_runs()
    ensures { (history : History) (register : Register) (mine : ℕ → Bool) (place : ℕ) (lines more : List Line) → IsHistory history
        → IsRegister register → AreMine history.events register mine place → IsLinearization history (lines ++ more)
        → MadeBefore history.events lines place → (value : Option Measurement) × IsRegisterRun history.events register mine None lines value }
{}

/// Before the first event no call stands, and the register isn't there.
pub fn register_at_first()
    ensures { (history : History) (register : Register) (mine : ℕ → Bool) → HaveParts history register mine 0 (at_first ∷ []) }
{}

/// An event that is no return, or whose call does nothing to the register, changes nothing.
pub fn register_after_another_event()
    ensures { (history : History) (register : Register) (mine : ℕ → Bool) (place : ℕ) (possibilities : List Possibility) → IsHistory history
        → ((cpu number : ℕ) (given : Reply) → IsReturned history.events place cpu number given
        → IsDone history.events register mine (line.Keep cpu number) given None)
        → HaveParts history register mine place possibilities → HaveParts history register mine (place + 1) possibilities }
{}

/// At the return of a call that does something to the register, the next possibilities are those that follow by open calls and that one.
pub fn register_after_a_return()
    ensures { (history : History) (register : Register) (mine : ℕ → Bool) (place cpu number : ℕ) (given : Reply) (done : RegisterCall)
        (possibilities begun next : List Possibility) → IsHistory history → IsRegister register → AreMine history.events register mine place
        → IsReturned history.events place cpu number given → IsDone history.events register mine (line.Keep cpu number) given (Some done)
        → AreNext history register mine place cpu given done possibilities begun next
        → HaveParts history register mine place possibilities → HaveParts history register mine (place + 1) next }
{}

/// Where nothing is possible, no certificate is a linearization.
pub fn nowhere_without_possibilities()
    ensures { (history : History) (register : Register) (mine : ℕ → Bool) (place : ℕ) → HaveParts history register mine place []
        → LeadsNowhere history [] }
{}
