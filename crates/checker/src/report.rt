//! A verdict's one line.

ghost use Rattle.std.specs.Prelude.{◌≡◌, ◌<◌, ◌≤◌, ◌+◌, ◌++◌, length, map, OnOk, OnErr, vec_len, vec_capacity};
ghost use Rattle.std.specs.Int.Digits.{digits_of};
ghost use Rattle.arrayvec.specs.ArrayVec.{array_vec_len};
ghost use Rattle.rmm_spec.specs.Text.{decimal, glyph, line_text};
ghost use Rattle.rmm_spec.specs.VerdictText.{reason_parts, verdict_parts, verdict_line};

use arrayvec::ArrayVec;
use rmm_spec::{Reason, Verdict};
use std::alloc::AllocError;
use std::marker::Model;

/// As many bytes as each verdict's line fits in.
const MOST_LINE: usize = 80;

/// Appends the verdict's line with its newline, or nothing where there is no room for it and memory is refused.
pub fn verdict_text(verdict: &Verdict, out: &mut Vec<u8>) -> Result<(), AllocError>
    ensures ok { OnOk result (out.new.items ≡ out.old.items ++ verdict_line verdict.now) }
    ensures err { OnErr result (out.new.items ≡ out.old.items) }
    ensures full { OnErr result (vec_capacity out.old < vec_len out.old + length (verdict_line verdict.now)) }
{
    let line = VerdictLine::of(verdict);
    out.extend_from_slice(line.as_slice())
}

/// A verdict's line with its newline, which takes no memory.
#[derive(Drop)]
pub struct VerdictLine {
    bytes: ArrayVec<u8, MOST_LINE>,
}

impl Model for VerdictLine {
    ghost use Rattle.std.specs.Prelude.{ℕ, List};

    ghost Value = { List ℕ };

    ghost view = { λ line. line.bytes.items };
}

impl VerdictLine {
    /// The line of that verdict.
    pub fn of(verdict: &Verdict) -> VerdictLine
        ensures { result ≡ verdict_line verdict.now }
    {
        let mut bytes = ArrayVec::new();
        push_verdict(&mut bytes, verdict);
        bytes.push(b'\n');
        VerdictLine { bytes }
    }

    /// Its bytes.
    pub fn as_slice(&self) -> &[u8]
        ensures value { result.now ≡ self.now }
        ensures few { length result.now ≤ 80 }
    {
        self.bytes.as_slice()
    }
}

fn push_verdict(line: &mut ArrayVec<u8, MOST_LINE>, verdict: &Verdict)
    requires { array_vec_len line.old ≡ 0 }
    ensures text { line.new.items ≡ line.old.items ++ line_text (verdict_parts verdict.now) }
    ensures few { array_vec_len line.new ≤ 73 }
{
    match verdict {
        Verdict::HistoryFault(number) => push_count(line, b"fault history ", *number),
        Verdict::CertificateFault(number) => push_count(line, b"fault certificate ", *number),
        Verdict::Yes(count) => push_count(line, b"yes ", *count),
        Verdict::No { step, reason } => {
            push_count(line, b"no ", *step);
            line.push(b' ');
            push_reason(line, reason);
        }
    }
}

fn push_reason(line: &mut ArrayVec<u8, MOST_LINE>, reason: &Reason)
    requires { array_vec_len line.old ≤ 24 }
    ensures text { line.new.items ≡ line.old.items ++ line_text (reason_parts reason.now) }
    ensures few { array_vec_len line.new ≤ array_vec_len line.old + 49 }
{
    match reason {
        Reason::Unknown => push_text(line, b"unknown"),
        Reason::Repeated => push_text(line, b"repeated"),
        Reason::Kind => push_text(line, b"kind"),
        Reason::Order => push_text(line, b"order"),
        Reason::Reply => push_text(line, b"reply"),
        Reason::Missing(cpu, number) => {
            push_count(line, b"missing ", u64::from(*cpu));
            push_count(line, b" ", u64::from(*number));
        }
    }
}

// Appends words and a number.
fn push_count(line: &mut ArrayVec<u8, MOST_LINE>, words: &[u8], count: u64)
    requires { array_vec_len line.old + length words.now + 20 ≤ 80 }
    ensures text { line.new.items ≡ line.old.items ++ (words.now ++ decimal count) }
    ensures few { array_vec_len line.new ≤ array_vec_len line.old + length words.now + 20 }
{
    push_text(line, words);
    push_number(line, count);
}

fn push_text(line: &mut ArrayVec<u8, MOST_LINE>, text: &[u8])
    requires { array_vec_len line.old + length text.now ≤ 80 }
    ensures text { line.new.items ≡ line.old.items ++ text.now }
    ensures few { array_vec_len line.new ≡ array_vec_len line.old + length text.now }
{
    // There is room.
    let _ = line.try_extend_from_slice(text);
}

#[tactic(auto, using(std::proofs::lemmas::Grind::common_steps, crate::proofs::Decimals::few_digits, crate::proofs::Decimals::shown_digits), unfolding(rmm_spec::specs::Text::decimal, rmm_spec::specs::Text::numeral))]
fn push_number(line: &mut ArrayVec<u8, MOST_LINE>, number: u64)
    requires { array_vec_len line.old + 20 ≤ 80 }
    ensures text { line.new.items ≡ line.old.items ++ decimal number }
    ensures few { array_vec_len line.new ≤ array_vec_len line.old + 20 }
{
    if number == 0 {
        line.push(b'0');
    } else {
        push_digits(line, number);
    }
}

// Appends the digits of a number, and nothing for 0.
#[tactic(auto, using(std::proofs::lemmas::Grind::common_steps, rmi_codec::proofs::NumberLaws::digits_more, crate::proofs::Decimals::digits_step, crate::proofs::Decimals::shown_digits))]
fn push_digits(line: &mut ArrayVec<u8, MOST_LINE>, number: u64)
    requires { array_vec_len line.old + length (digits_of 10 number) ≤ 80 }
    ensures { line.new.items ≡ line.old.items ++ map glyph (digits_of 10 number) }
{
    if number == 0 {
        return;
    }
    push_digits(line, number / 10);
    line.push((number % 10) as u8 + b'0');
}
