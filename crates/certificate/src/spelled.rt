//! The line that bytes spell.

ghost use Rattle.std.specs.Prelude.{◌≡◌, ◌≤◌, ℕ, [], ◌∷◌, ◌++◌, length, take, IfSome, IfNone};
ghost use Rattle.rmm_spec.specs.declared.line.Line.TheVariants as line;
ghost use Rattle.rmm_spec.specs.declared.reply.Reply.{Reply};
ghost use Rattle.certificate.specs.Spelling.{IsLineOf, IsNoLine};
ghost use Rattle.rmm_spec.specs.CertificateText.{IsLine, line_parts};
ghost use Rattle.rmm_spec.specs.Text.{line_text, parts_of};

use rmi_codec::{Head, Parts, head_at, head_from, reply_from};
use rmm_spec::Line;

// How many CPUs a line can name.
const CPUS: u8 = 8;

// How many calls of a CPU a line can name.
const CALLS: u32 = 1_000_000;

/// The line that the bytes spell, where they spell one. The words of a reply are read to the buffer.
pub(crate) fn line_from(words: &mut [u64; 10], bytes: &[u8]) -> Option<Line>
    ensures found { IfSome result (IsLineOf (parts_of bytes.now)) }
    ensures none { IfNone result (IsNoLine (parts_of bytes.now)) }
{
    if let Some((cpu, number)) = kept_from(bytes) {
        return Some(Line::Keep { cpu, number });
    }
    claimed_from(words, bytes)
}

/// How long the line at a text's front is with its newline, and the CPU and the number of the call that it keeps, where it is whole
/// and keeps one.
#[inline(always)]
pub(crate) fn kept_front(text: &[u8]) -> Option<(usize, u8, u32)>
    ensures found { IfSome result (λ kept. take kept.0 text.now ≡ line_text (line_parts (line.Keep kept.1 kept.2)) ++ 10 ∷ []) }
    ensures line { IfSome result (λ kept. IsLine (line.Keep kept.1 kept.2)) }
    ensures inside { IfSome result (λ kept. kept.0 ≤ length text.now) }
{
    let (cpu, number, end) = head_at(text, CPUS, CALLS)?;
    if text[0] != b'k' {
        return None;
    }
    if text[end] != b'\n' {
        return None;
    }
    Some((end + 1, cpu, number))
}

/// The CPU and the number of the call that a line keeps, where the bytes spell such a line.
fn kept_from(bytes: &[u8]) -> Option<(u8, u32)>
    ensures found { IfSome result (λ call. IsLineOf (parts_of bytes.now) (line.Keep call.0 call.1)) }
    ensures none { IfNone result ((cpu number : ℕ) → ¬ IsLineOf (parts_of bytes.now) (line.Keep cpu number)) }
{
    let mut parts = Parts::of(bytes);
    let Some(
        Head {
            letter,
            cpu,
            number,
        },
    ) = head_from(&mut parts, CPUS, CALLS)
    else {
        return None;
    };
    match letter {
        b'k' => match parts.next_part() {
            None => Some((cpu, number)),
            Some(_) => None,
        },
        _ => None,
    }
}

/// The unfinished line that the bytes spell, where they spell one.
fn claimed_from(words: &mut [u64; 10], bytes: &[u8]) -> Option<Line>
    ensures found { IfSome result (IsLineOf (parts_of bytes.now)) }
    ensures none { IfNone result ((cpu number : ℕ) (reply : Reply) → ¬ IsLineOf (parts_of bytes.now) (line.Unfinished cpu number reply)) }
{
    let mut parts = Parts::of(bytes);
    let Some(
        Head {
            letter,
            cpu,
            number,
        },
    ) = head_from(&mut parts, CPUS, CALLS)
    else {
        return None;
    };
    match letter {
        b'u' => {
            let Ok(reply) = reply_from(words, parts) else {
                return None;
            };
            Some(Line::Unfinished {
                cpu,
                number,
                reply: reply.to_reply(),
            })
        }
        _ => None,
    }
}
