//! The lines of a text.

ghost use Rattle.std.specs.Prelude.{◌≡◌, ◌++◌, ◌∷◌, IfSome, IfNone};
ghost use Rattle.rmm_spec.specs.Text.{HasNoNewline};

use memchr::memchr;

/// Cuts the first line off, without its newline.
#[inline(always)]
pub fn next_line(text: &[u8]) -> Option<(&[u8], &[u8])>
    ensures line { IfSome result (λ cut. text.now ≡ cut.0.now ++ 10 ∷ cut.1.now) }
    ensures no_newline { IfSome result (λ cut. HasNoNewline cut.0.now) }
    ensures unfinished { IfNone result (HasNoNewline text.now) }
{
    let end = memchr(b'\n', text)?;
    let (line, rest) = text.split_at(end);
    Some((line, rest.split_at(1).1))
}
