//! What changes keep of wholes: each law is the contract of a function that does nothing.

ghost use Rattle.std.specs.Prelude.{◌≡◌, ℕ, List, [], ◌∷◌, Ok};
ghost use Rattle.rmm_spec.specs.HistoryText.{Config};
ghost use Rattle.rmm_spec.specs.declared.accepted.Accepted.TheVariants.{Reaches};
ghost use Rattle.rmm_spec.specs.declared.accepted.Stretch.{Stretch};
ghost use Rattle.rmm_spec.specs.declared.change.Change.{Change};
ghost use Rattle.rmm_spec.specs.declared.command.Command.{Command};
ghost use Rattle.rmm_spec.specs.Call.{call_of};
ghost use Rattle.rmm_spec.specs.Applicable.{CanApply};
ghost use Rattle.rmm_spec.specs.Change.{changed};
ghost use Rattle.rmm_spec.specs.Rows.{ok, done};
ghost use Rattle.rmm_spec.specs.Step.{outcome, Step};
ghost use Rattle.rmm_spec.specs.Step.Ripas.{IsReached, reached_change};
ghost use Rattle.rmm_spec.specs.Flat.{flat_state};
ghost use Rattle.rmm_spec.specs.Sound.{IsSound};
ghost use Rattle.rmm_laws.specs.Whole.{Whole, IsShaped, cells_changed, whole_changed};

/// A well-shaped whole stands for a sound state.
pub fn well_shaped_is_sound()
    ensures { (config : Config) (w : Whole) → IsShaped config w → IsSound (flat_state config w.cells) }
{}

/// A change that the flat state of a well-shaped whole can take, whichever of the ten kinds it is, leaves the whole well
/// shaped, and is the same change of its flat state.
pub fn changes_keep_shape()
    ensures shaped { (config : Config) (w : Whole) (change : Change) → IsShaped config w → CanApply (flat_state config w.cells) change
        → IsShaped config (whole_changed config w change) }
    ensures flat { (config : Config) (w : Whole) (change : Change) → IsShaped config w → CanApply (flat_state config w.cells) change
        → flat_state config (cells_changed config w.cells change) ≡ changed (flat_state config w.cells) change }
{}

/// Where the flat state of a well-shaped whole accepts a command, the command's change leaves the whole well shaped, and is
/// the machine's step with that reply.
pub fn accepted_commands_keep_shape()
    ensures done { (config : Config) (w : Whole) (cpu : ℕ) (command : Command) (words : List ℕ) (change : Change) → IsShaped config w
        → outcome (flat_state config w.cells) cpu (call_of command) ≡ Ok (done words change)
        → IsShaped config (whole_changed config w change)
        × Step (flat_state config w.cells) cpu command (ok words) (flat_state config (cells_changed config w.cells change)) }
    ensures reached { (config : Config) (w : Whole) (cpu : ℕ) (command : Command) (stretch : Stretch) (top : ℕ) → IsShaped config w
        → outcome (flat_state config w.cells) cpu (call_of command) ≡ Ok (Reaches stretch)
        → IsReached (flat_state config w.cells) stretch top
        → IsShaped config (whole_changed config w (reached_change stretch top))
        × Step (flat_state config w.cells) cpu command (ok (top ∷ []))
        (flat_state config (cells_changed config w.cells (reached_change stretch top))) }
{}
