//! What the core rests on: each law is the contract of a function that does nothing.

ghost use Rattle.std.specs.Prelude.{◌≡◌, ℕ, true, IsTrue, List, Result};
ghost use Rattle.rmm_spec.specs.HistoryText.{Config};
ghost use Rattle.rmm_spec.specs.declared.accepted.Accepted.{Accepted};
ghost use Rattle.rmm_spec.specs.declared.call.Call.{Call};
ghost use Rattle.rmm_spec.specs.declared.change.Change.{Change};
ghost use Rattle.rmm_spec.specs.declared.command.Command.{Command};
ghost use Rattle.rmm_spec.specs.declared.refusal.Refusal.{Refusal};
ghost use Rattle.rmm_spec.specs.declared.reply.Reply.{Reply};
ghost use Rattle.rmm_spec.specs.Call.{call_of};
ghost use Rattle.rmm_spec.specs.Rows.{Needed};
ghost use Rattle.rmm_spec.specs.Step.{outcome};
ghost use Rattle.rmm_spec.specs.Cell.{Cell};
ghost use Rattle.rmm_spec.specs.Flat.{flat_state};
ghost use Rattle.rmm_spec.specs.Shape.{CpuPlace, IsWellShaped};
ghost use Rattle.rmm_spec.specs.Local.{HeldCell, Hold, granules_held, Agrees, LocalStep};
ghost use Rattle.rmm_spec.specs.Locks.{IsRisingTake};
ghost use Rattle.world_laws.specs.Replaced.{replaced_all};
ghost use Rattle.rmm_laws.specs.Whole.{side_changed};
ghost use Rattle.command_core.specs.Seen.{are_distinct, known_cell};
ghost use Rattle.command_core.specs.Changed.{CanAnswer, Answers, Decides, new_cells, new_place};
ghost use Rattle.command_core.specs.Named.{is_upward, is_downward};
ghost use Rattle.command_core.specs.Settled.{is_settled};
ghost use Rattle.command_core.specs.Unshaped.{is_unshaped};
ghost use Rattle.command_core.specs.Plan.{IsReady};

/// What every well-shaped whole answers that agrees with what is held is a local step: a refusal that changes nothing, or the
/// answer's words with its change, made of the cells that are held, of the side table and of the CPU's place.
pub fn answers_are_local()
    ensures { (config : Config) (cpu : ℕ) (command : Command) (hold : Hold) (answer : Result Accepted Refusal) → CanAnswer cpu hold answer
        → ((cells : ℕ → Cell) (places : ℕ → CpuPlace) → IsWellShaped config hold.side places cells → Agrees cells hold.cells
        → places cpu ≡ hold.place → outcome (flat_state config cells) cpu (call_of command) ≡ answer)
        → Answers config cpu command hold answer }
{}

/// Where what is held settles a command, it allows a local step, whatever the side table has and whichever CPU it is.
pub fn settled_commands_are_ready()
    ensures { (config : Config) (command : Command) (place : CpuPlace) (held : List HeldCell)
        → is_settled config (call_of command) place held ≡ true → IsReady config command place held }
{}

/// What passes the test of a take by name, or of a part of a realm, REC or table that is held, is a rising take of it.
pub fn tested_takes_rise()
    ensures upward { (config : Config) (names : List Needed) (held : List HeldCell) (next : ℕ) → IsTrue (are_distinct (granules_held held))
        → is_upward config names held next ≡ true → IsRisingTake config names held next }
    ensures downward { (config : Config) (names : List Needed) (held : List HeldCell) (above index next : ℕ)
        → IsTrue (are_distinct (granules_held held))
        → is_downward config names held above index next ≡ true → IsRisingTake config names held next }
{}

/// A decided change that is made of what is held is a local step, from what was held to what is held then.
pub fn applied_decisions_are_local()
    ensures { (config : Config) (cpu : ℕ) (command : Command) (hold new : Hold) (given : Reply) (change : Change)
        → Decides config cpu command hold given change
        → new.cells ≡ replaced_all hold.cells (new_cells hold.cells change) → new.side ≡ side_changed (known_cell hold.cells) hold.side change
        → new.place ≡ new_place hold.cells hold.place change → LocalStep config cpu command given hold new }
{}

/// Cells that are unshaped for a command at a CPU's place are those of no well-shaped whole with the CPU there. They settle the
/// command, so that nothing more is taken or freed for it.
pub fn unshaped_cells_have_no_whole()
    ensures none { (config : Config) (cpu : ℕ) (call : Call) (hold : Hold) (cells : ℕ → Cell) (places : ℕ → CpuPlace)
        → IsTrue (is_unshaped config call hold.place hold.cells) → IsWellShaped config hold.side places cells
        → Agrees cells hold.cells → places cpu ≡ hold.place → ⊥ }
    ensures settled { (config : Config) (call : Call) (place : CpuPlace) (held : List HeldCell)
        → IsTrue (is_unshaped config call place held) → IsTrue (is_settled config call place held) }
{}
