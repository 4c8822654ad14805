//! The laws over the definitions: each is the contract of a function that does nothing.

ghost use Rattle.std.specs.Prelude.{◌≡◌, ℕ, take, List, [], false};
ghost use Rattle.rmm_spec.specs.declared.command.Command.{Command};
ghost use Rattle.rmm_spec.specs.declared.function_id.FunctionId.TheVariants.{GranuleDelegate, GranuleUndelegate};
ghost use Rattle.rmm_spec.specs.declared.reply.Reply.{Reply};
ghost use Rattle.rmm_spec.specs.HistoryText.{Config, History};
ghost use Rattle.rmm_spec.specs.State.{State, opening};
ghost use Rattle.rmm_spec.specs.Rows.{ok};
ghost use Rattle.rmm_spec.specs.Step.{Step};
ghost use Rattle.rmm_spec.specs.Run.{JournalEntry, IsRun};
ghost use Rattle.rmm_spec.specs.Ownership.{is_accepted, IsIsolated};
ghost use Rattle.rmm_spec.specs.Judgement.{IsIsolatedThroughout};
ghost use Rattle.rmm_laws.specs.Commands as commands;

/// A reply has at most one next state, so who knows a run's commands and replies knows its states.
pub fn reply_decides()
    ensures { (old a b : State) (cpu : ℕ) (command : Command) (given : Reply)
        → Step old cpu command given a → Step old cpu command given b → a ≡ b }
{}

/// Every command has a reply in every state, and on every CPU.
pub fn a_reply_exists()
    ensures { (old : State) (cpu : ℕ) (command : Command)
        → (given : Reply) × (next : State) × Step old cpu command given next }
{}

/// A reply other than `ok` changes nothing.
pub fn refusals_change_nothing()
    ensures { (old next : State) (cpu : ℕ) (command : Command) (given : Reply)
        → Step old cpu command given next → is_accepted given ≡ false → next ≡ old }
{}

/// A granule that is delegated and then undelegated leaves the state as it was.
pub fn undelegation_restores()
    ensures { (old middle next : State) (cpu other : ℕ) (words : List ℕ)
        → Step old cpu (commands.command GranuleDelegate words) (ok []) middle
        → Step middle other (commands.command GranuleUndelegate words) (ok []) next
        → next ≡ old }
{}

/// Each first part of a run is a run, so that the states of `runs_are_isolated` are there.
pub fn first_parts_are_runs()
    ensures { (count : ℕ) (entries : List JournalEntry) (old last : State)
        → IsRun old entries last → (middle : State) × IsRun old (take count entries) middle }
{}

/// After every run, and so after each first part of one, no granule is more than one realm's.
pub fn runs_are_isolated()
    ensures isolated { (config : Config) (entries : List JournalEntry) (last : State)
        → IsRun (opening config) entries last → IsIsolated entries last }
    ensures throughout { (history : History) (entries : List JournalEntry) → IsIsolatedThroughout history entries }
{}
