//! What changes keep: each law is the contract of a function that does nothing.

ghost use Rattle.std.specs.Prelude.{◌≡◌, ℕ, List, Ok};
ghost use Rattle.rmm_spec.specs.declared.accepted.Accepted.TheVariants.{Reaches};
ghost use Rattle.rmm_spec.specs.declared.accepted.Stretch.{Stretch};
ghost use Rattle.rmm_spec.specs.declared.change.Change.{Change};
ghost use Rattle.rmm_spec.specs.declared.command.Command.{Command};
ghost use Rattle.rmm_spec.specs.declared.reply.Reply.{Reply};
ghost use Rattle.rmm_spec.specs.HistoryText.{Config};
ghost use Rattle.rmm_spec.specs.Call.{call_of};
ghost use Rattle.rmm_spec.specs.Rows.{done};
ghost use Rattle.rmm_spec.specs.State.{State, opening};
ghost use Rattle.rmm_spec.specs.Change.{changed};
ghost use Rattle.rmm_spec.specs.Step.{outcome, Step};
ghost use Rattle.rmm_spec.specs.Step.Ripas.{IsReached, reached_change};
ghost use Rattle.rmm_spec.specs.Sound.{IsSound};
ghost use Rattle.rmm_spec.specs.Applicable.{CanApply};
ghost use Rattle.rmm_spec.specs.Run.{JournalEntry, IsRun};

/// Where a command is accepted, its rows say all that its kind of change requires.
pub fn accepted_changes_apply()
    ensures done { (s : State) (cpu : ℕ) (command : Command) (words : List ℕ) (change : Change) → IsSound s
        → outcome s cpu (call_of command) ≡ Ok (done words change) → CanApply s change }
    ensures reached { (s : State) (cpu : ℕ) (command : Command) (stretch : Stretch) (top : ℕ) → IsSound s
        → outcome s cpu (call_of command) ≡ Ok (Reaches stretch) → IsReached s stretch top → CanApply s (reached_change stretch top) }
{}

/// A change that a state can take keeps it sound, whichever command makes it.
pub fn changes_keep_sound()
    ensures { (s : State) (change : Change) → IsSound s → CanApply s change → IsSound (changed s change) }
{}

/// A state in which every granule is the host's is sound.
pub fn opening_is_sound()
    ensures { (config : Config) → IsSound (opening config) }
{}

/// Every command keeps states sound, whatever it is answered.
pub fn steps_keep_sound()
    ensures { (old : State) (cpu : ℕ) (command : Command) (given : Reply) (new : State)
        → IsSound old → Step old cpu command given new → IsSound new }
{}

/// Each state that a run comes to is sound, so no run reads a record that isn't there.
pub fn runs_are_sound()
    ensures { (config : Config) (entries : List JournalEntry) (last : State)
        → IsRun (opening config) entries last → IsSound last }
{}
