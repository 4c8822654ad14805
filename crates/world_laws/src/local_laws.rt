//! Laws on local steps: what may be committed with few cells held.

ghost use Rattle.std.specs.Prelude.{◌≡◌, ℕ, true, false, ◌==◌, ◌⊎◌, List, [], Contains};
ghost use Rattle.std.specs.List.{list_all};
ghost use Rattle.rmm_spec.specs.HistoryText.{Config};
ghost use Rattle.rmm_spec.specs.declared.call.Call.TheVariants.{GranuleDelegate, GranuleUndelegate};
ghost use Rattle.rmm_spec.specs.declared.command.Command.{Command};
ghost use Rattle.rmm_spec.specs.declared.reply.Reply.{Reply};
ghost use Rattle.rmm_spec.specs.declared.reply.Reply.TheVariants.{Misplaced};
ghost use Rattle.rmm_spec.specs.Call.{ByHost, ByRealm, ByExit, call_of, class_of};
ghost use Rattle.rmm_spec.specs.Lookup.{tag_number, is_granule};
ghost use Rattle.rmm_spec.specs.Rows.{Needed, ok, input_error, all_allowed};
ghost use Rattle.rmm_spec.specs.Step.{Step};
ghost use Rattle.rmm_spec.specs.Step.Terms.{words_of, named};
ghost use Rattle.rmm_spec.specs.Cell.{Cell, Undelegated, Delegated, put, tag_of};
ghost use Rattle.rmm_spec.specs.Flat.{flat_state};
ghost use Rattle.rmm_spec.specs.Shape.{Side, CpuPlace, Outside, Inside, IsWellShaped};
ghost use Rattle.rmm_spec.specs.Local.{HeldCell, Hold, granules_held, Agrees, put_all, LocalStep};
ghost use Rattle.world_laws.specs.Replaced.{held_at, replaced, replaced_all};

/// What is a step of every well-shaped whole that agrees with what is held, and changes held cells, the side table and the
/// CPU's place alone, is a local step, whatever else is held.
pub fn local_on_any_hold()
    ensures { (config : Config) (cpu : ℕ) (command : Command) (given : Reply) (old : Hold) (changes : List HeldCell) (side : Side)
        (place : CpuPlace)
        → ((h : HeldCell) → Contains changes h → Contains (granules_held old.cells) h.granule)
        → ((cells : ℕ → Cell) (places : ℕ → CpuPlace) → IsWellShaped config old.side places cells
        → Agrees cells old.cells → places cpu ≡ old.place
        → Step (flat_state config cells) cpu command given (flat_state config (put_all cells changes))
        × IsWellShaped config side (put places cpu place) (put_all cells changes))
        → LocalStep config cpu command given old
        (record { cells = replaced_all old.cells changes; side = side; place = place }) }
{}

/// What a host's command is refused for by its words, by a named address that is no granule, or by the tag of a named granule
/// that is held, is refused as input in a local step that changes nothing, whatever else is held.
pub fn input_refusals_are_local()
    ensures words { (config : Config) (cpu : ℕ) (command : Command) (hold : Hold) → class_of (call_of command) ≡ ByHost → hold.place ≡ Outside
        → all_allowed (words_of (call_of command)) ≡ false → LocalStep config cpu command input_error hold hold }
    ensures addresses { (config : Config) (cpu : ℕ) (command : Command) (hold : Hold) (n : Needed) → class_of (call_of command) ≡ ByHost
        → hold.place ≡ Outside → Contains (named (call_of command)) n → is_granule config.granules n.granule ≡ false
        → LocalStep config cpu command input_error hold hold }
    ensures tags { (config : Config) (cpu : ℕ) (command : Command) (hold : Hold) (h : HeldCell) (n : Needed)
        → class_of (call_of command) ≡ ByHost → hold.place ≡ Outside → Contains hold.cells h → Contains (named (call_of command)) n
        → n.granule ≡ h.granule → (tag_number (tag_of h.cell) == tag_number n.tag) ≡ false
        → LocalStep config cpu command input_error hold hold }
{}

/// A host's command inside of a REC, and a realm's call or an exit outside of RECs, is misplaced in a local step that changes
/// nothing, whatever is held.
pub fn misplaced_commands_are_local()
    ensures inside { (config : Config) (cpu : ℕ) (command : Command) (hold : Hold) (rec rd : ℕ) → class_of (call_of command) ≡ ByHost
        → hold.place ≡ Inside rec rd → LocalStep config cpu command Misplaced hold hold }
    ensures outside { (config : Config) (cpu : ℕ) (command : Command) (hold : Hold)
        → (class_of (call_of command) ≡ ByRealm) ⊎ (class_of (call_of command) ≡ ByExit)
        → hold.place ≡ Outside → LocalStep config cpu command Misplaced hold hold }
{}

/// A granule that is held is delegated, or undelegated, in a local step, whatever else is held.
pub fn delegations_are_local()
    ensures delegated { (config : Config) (cpu granule : ℕ) (command : Command) (hold : Hold) → call_of command ≡ GranuleDelegate granule
        → hold.place ≡ Outside → is_granule config.granules granule ≡ true → Contains hold.cells (held_at granule Undelegated)
        → LocalStep config cpu command (ok []) hold (replaced hold granule Delegated) }
    ensures undelegated { (config : Config) (cpu granule : ℕ) (command : Command) (hold : Hold) → call_of command ≡ GranuleUndelegate granule
        → hold.place ≡ Outside → is_granule config.granules granule ≡ true → Contains hold.cells (held_at granule Delegated)
        → LocalStep config cpu command (ok []) hold (replaced hold granule Undelegated) }
{}
