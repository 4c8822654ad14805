//! What walks rest on: each law is the contract of a function that does nothing.

ghost use Rattle.std.specs.Prelude.{◌≡◌, ℕ, ◌+◌, ◌≤◌, ◌||◌, true, List, Some, Ok, is_some};
ghost use Rattle.rmm_spec.specs.HistoryText.{Config};
ghost use Rattle.rmm_spec.specs.declared.accepted.Accepted.TheVariants.{Reaches};
ghost use Rattle.rmm_spec.specs.declared.accepted.Stretch.{Stretch};
ghost use Rattle.rmm_spec.specs.declared.call.Call.{Call};
ghost use Rattle.rmm_spec.specs.declared.change.Change.{Change};
ghost use Rattle.rmm_spec.specs.declared.command.Command.{Command};
ghost use Rattle.rmm_spec.specs.declared.tag.Tag.{Tag};
ghost use Rattle.rmm_spec.specs.Applicable.{CanApply};
ghost use Rattle.rmm_spec.specs.Call.{call_of};
ghost use Rattle.rmm_spec.specs.Lookup.{has_tag, rec_at};
ghost use Rattle.rmm_spec.specs.Walk.{entry_size, walk};
ghost use Rattle.rmm_spec.specs.Step.{answer_of};
ghost use Rattle.rmm_spec.specs.Step.RealmCall.{ipa_state_get};
ghost use Rattle.rmm_spec.specs.Step.Ripas.{IsReached};
ghost use Rattle.rmm_spec.specs.Cell.{Cell};
ghost use Rattle.rmm_spec.specs.Flat.{flat_state};
ghost use Rattle.rmm_spec.specs.Shape.{Side, CpuPlace, Outside, IsWellShaped};
ghost use Rattle.rmm_spec.specs.Local.{HeldCell, Hold, Agrees, put_all};
ghost use Rattle.rmm_laws.specs.Whole.{cells_changed};
ghost use Rattle.world_laws.specs.Held.{is_held};
ghost use Rattle.world_laws.specs.SeenState.{table_behind, seen_state};
ghost use Rattle.world_laws.specs.Walking.{Way, way, way_of, part_below, is_walk_held, is_part_held, is_refused_early, seen_answer, is_walk_settled, is_kept};
ghost use Rattle.world_laws.specs.Same.{SameSpace, SameWalk, HoldsEnd};
ghost use Rattle.world_laws.specs.TableCells.{table_cells, holds_change};
ghost use Rattle.world_laws.specs.Settled.{IsLocalAnswer};
ghost use Rattle.world_laws.specs.Misfits.{is_misfit_walk};

/// What held cells tell of a realm of which a table is held, and of a walk that ends at a held table, each well-shaped whole has
/// that agrees with them, also while the realm's own granule is free.
pub fn held_tables_tell_walks()
    ensures tag { (config : Config) (side : Side) (held : List HeldCell) (cells : ℕ → Cell) (places : ℕ → CpuPlace) (rd : ℕ) (asked : Tag)
        → IsWellShaped config side places cells → Agrees cells held → (is_held rd held || is_some (table_behind held rd)) ≡ true
        → has_tag (flat_state config cells) rd asked ≡ has_tag (seen_state config held) rd asked }
    ensures space { (config : Config) (side : Side) (held : List HeldCell) (cells : ℕ → Cell) (places : ℕ → CpuPlace) (rd : ℕ)
        → IsWellShaped config side places cells → Agrees cells held → (is_held rd held || is_some (table_behind held rd)) ≡ true
        → SameSpace (flat_state config cells) (seen_state config held) rd }
    ensures walk { (config : Config) (side : Side) (held : List HeldCell) (cells : ℕ → Cell) (places : ℕ → CpuPlace) (way : Way)
        → IsWellShaped config side places cells → Agrees cells held → is_walk_held config held way ≡ true
        → SameWalk (flat_state config cells) (seen_state config held) way }
{}

/// Where what is held settles a host's command that walks, on a CPU that is outside of RECs, what is answered in the state that
/// the held cells tell of is a local step: a refusal that changes nothing, or its change of the held cells, all of which are held.
pub fn settled_walks_are_local()
    ensures { (config : Config) (cpu : ℕ) (command : Command) (hold : Hold) → is_some (way_of (call_of command)) ≡ true → hold.place ≡ Outside
        → is_walk_settled config (call_of command) hold.cells ≡ true
        → IsLocalAnswer config cpu command hold (seen_answer config (call_of command) hold.cells) }
{}

/// What a realm is told of an address from a REC that is held, where the walk's end is held or the address is refused, is what
/// each well-shaped whole answers that agrees.
pub fn realm_reads_are_told()
    ensures { (config : Config) (side : Side) (held : List HeldCell) (cells : ℕ → Cell) (places : ℕ → CpuPlace) (rec rd ipa : ℕ)
        → IsWellShaped config side places cells → Agrees cells held → is_held rec held ≡ true
        → (rec_at (seen_state config held) rec).owner ≡ rd → (is_held rd held || is_some (table_behind held rd)) ≡ true
        → (is_walk_held config held (way rd ipa 3) || is_refused_early (ipa_state_get (seen_state config held) rec ipa)) ≡ true
        → ipa_state_get (flat_state config cells) rec ipa ≡ ipa_state_get (seen_state config held) rec ipa }
{}

/// Where a command leads to a stretch of entries, the end of the first may be chosen.
pub fn first_ends_are_reached()
    ensures { (config : Config) (cpu : ℕ) (held : List HeldCell) (c : Call) (stretch : Stretch)
        → answer_of (seen_state config held) cpu c ≡ Ok (Reaches stretch)
        → IsReached (seen_state config held) stretch (stretch.base + entry_size stretch.level) }
{}

/// A change of tables, of which all is held that it changes, is made of the held cells as of each well-shaped whole that agrees
/// and can take it.
pub fn table_changes_are_held()
    ensures { (config : Config) (side : Side) (held : List HeldCell) (cells : ℕ → Cell) (places : ℕ → CpuPlace) (change : Change)
        → IsWellShaped config side places cells → Agrees cells held → CanApply (flat_state config cells) change
        → holds_change held change ≡ true → cells_changed config cells change ≡ put_all cells (table_cells held change) }
{}

/// Where the table is held at which the walk of a well-shaped whole ends, what is held tells that it ends there. So what a
/// command's plan keeps to the commit settles it: what it names, but for a realm that it frees, that table, and a part below.
pub fn held_ends_settle()
    ensures walk { (config : Config) (side : Side) (held : List HeldCell) (cells : ℕ → Cell) (places : ℕ → CpuPlace) (way : Way)
        → IsWellShaped config side places cells → Agrees cells held → way.max ≤ 3 → HoldsEnd (flat_state config cells) held way
        → is_walk_held config held way ≡ true }
    ensures command { (config : Config) (side : Side) (held : List HeldCell) (cells : ℕ → Cell) (places : ℕ → CpuPlace) (c : Call) (way : Way)
        → IsWellShaped config side places cells → Agrees cells held → way_of c ≡ Some way → way.max ≤ 3
        → HoldsEnd (flat_state config cells) held way → is_kept c held ≡ true
        → is_part_held (part_below c (walk (flat_state config cells) way.rd way.ipa way.max).entry) held ≡ true
        → is_walk_settled config c held ≡ true }
{}

/// Cells that are a misfit for a walk are those of no well-shaped whole.
pub fn misfit_walks_have_no_whole()
    ensures { (config : Config) (side : Side) (held : List HeldCell) (cells : ℕ → Cell) (places : ℕ → CpuPlace) (rd ipa : ℕ)
        → is_misfit_walk config held rd ipa ≡ true → IsWellShaped config side places cells → Agrees cells held → ⊥ }
{}
