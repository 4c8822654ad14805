//! A report of an explanation, as text.

ghost use Rattle.std.specs.Prelude.{◌≡◌, ℕ, ◌++◌, List, OnOk, OnErr};
ghost use Rattle.explain.specs.Explained.{verdict_of};
ghost use Rattle.rmm_spec.specs.VerdictText.{verdict_line};

use checker::verdict_text;
use reasons::Explanation;
use std::alloc::{AllocError, Global};

/// Appends a report: the verdict's line, and behind it lines for people. Nothing is appended where memory is refused.
pub fn report(
    alloc: Global,
    explanation: &Explanation<'_>,
    out: &mut Vec<u8>,
) -> Result<(), AllocError>
    ensures ok { OnOk result ((more : List ℕ) × (out.new.items ≡ out.old.items ++ (verdict_line (verdict_of explanation.now) ++ more))) }
    ensures err { OnErr result (out.new.items ≡ out.old.items) }
{
    let mut text = Vec::new(alloc);
    verdict_text(&explanation.verdict(), &mut text)?;
    let lines = format!(in alloc; "{explanation}")?;
    text.extend_from_slice(lines.as_bytes())?;
    out.extend_from_slice(text.as_slice())
}
