//! The version and what goes with it.

ghost use Rattle.std.specs.Prelude.{◌≡◌, IfOk, string_bytes};
ghost use Rattle.file_programs.specs.Texts.{version_lines};

use std::alloc::{AllocError, Global};

/// The version of all programs.
pub const VERSION: &str = "1.0.0";

/// The versions of the rules, by the first word of a history.
pub const RULES: &str = "rmh1, rmh2 and rml1";

/// The kit that all is proved with, as `rt version` prints it.
pub const KIT: &str = "rattle-kit-13f logic dac8208d650f15bf";

/// What `--version` prints after a program's name.
pub fn version_text(alloc: Global) -> Result<String, AllocError>
    ensures { IfOk result (λ text. string_bytes text ≡ version_lines) }
{
    format!(in alloc; "{VERSION}\nrules: {RULES}\nproved with: {KIT}")
}
