//! Numbers, written in digits.

ghost use Rattle.std.specs.Prelude.{◌≡◌, ◌++◌, length, map, take, OnOk, OnErr, ◌≤◌, ◌<◌, ◌+◌, vec_len, vec_capacity};
ghost use Rattle.std.specs.Int.Digits.{digits_of};
ghost use Rattle.rmm_spec.specs.Text.{decimal, fixed_hex, glyph, numeral};
ghost use Rattle.text_writers.specs.Beginning.{IsBeginning};

use std::alloc::AllocError;

// The byte that shows a digit.
#[inline(always)]
fn byte_from(digit: u64) -> u8
    requires { digit < 16 }
    ensures { result ≡ glyph digit }
{
    if digit < 10 {
        digit as u8 + b'0'
    } else {
        digit as u8 - 10 + b'a'
    }
}

// Appends the digits of a number, and nothing for 0.
#[tactic(auto, using(std::proofs::lemmas::Grind::common_steps, rmi_codec::proofs::NumberLaws::digits_more))]
fn push_digits(out: &mut Vec<u8>, number: u64, base: u64) -> Result<(), AllocError>
    requires least { 2 ≤ base }
    requires most { base ≤ 16 }
    ensures ok { OnOk result (out.new.items ≡ out.old.items ++ map glyph (digits_of base number)) }
    ensures kept { OnErr result (take (length out.old.items) out.new.items ≡ out.old.items) }
    ensures beginning { OnErr result (IsBeginning out.new.items (out.old.items ++ map glyph (digits_of base number))) }
    ensures full { OnErr result (vec_capacity out.old < vec_len out.old + length (map glyph (digits_of base number))) }
    ensures capacity { vec_capacity out.old ≤ vec_capacity out.new }
{
    if number == 0 {
        return Ok(());
    }
    push_digits(out, number / base, base)?;
    out.push(byte_from(number % base))?;
    Ok(())
}

// Appends a number.
#[tactic(auto, unfolding(rmm_spec::specs::Text::numeral))]
pub(crate) fn push_numeral(out: &mut Vec<u8>, number: u64, base: u64) -> Result<(), AllocError>
    requires least { 2 ≤ base }
    requires most { base ≤ 16 }
    ensures ok { OnOk result (out.new.items ≡ out.old.items ++ numeral base number) }
    ensures kept { OnErr result (take (length out.old.items) out.new.items ≡ out.old.items) }
    ensures beginning { OnErr result (IsBeginning out.new.items (out.old.items ++ numeral base number)) }
    ensures full { OnErr result (vec_capacity out.old < vec_len out.old + length (numeral base number)) }
    ensures capacity { vec_capacity out.old ≤ vec_capacity out.new }
{
    if number == 0 {
        out.push(b'0')?;
        return Ok(());
    }
    push_digits(out, number, base)
}

/// Appends a decimal. Where memory is refused, a beginning of it may have been appended.
#[tactic(auto, unfolding(rmm_spec::specs::Text::decimal))]
pub fn push_decimal(out: &mut Vec<u8>, number: u64) -> Result<(), AllocError>
    ensures ok { OnOk result (out.new.items ≡ out.old.items ++ decimal number) }
    ensures kept { OnErr result (take (length out.old.items) out.new.items ≡ out.old.items) }
    ensures beginning { OnErr result (IsBeginning out.new.items (out.old.items ++ decimal number)) }
    ensures full { OnErr result (vec_capacity out.old < vec_len out.old + length (decimal number)) }
    ensures capacity { vec_capacity out.old ≤ vec_capacity out.new }
{
    push_numeral(out, number, 10)
}

// Appends the last digits of a number, so many of them.
#[tactic(auto, using(std::proofs::lemmas::Grind::common_steps, crate::proofs::NumberTexts::fixed_hex_none, crate::proofs::NumberTexts::fixed_hex_more))]
pub(crate) fn push_fixed_hex(out: &mut Vec<u8>, count: usize, number: u64) -> Result<(), AllocError>
    ensures ok { OnOk result (out.new.items ≡ out.old.items ++ fixed_hex count number) }
    ensures kept { OnErr result (take (length out.old.items) out.new.items ≡ out.old.items) }
    ensures beginning { OnErr result (IsBeginning out.new.items (out.old.items ++ fixed_hex count number)) }
    ensures full { OnErr result (vec_capacity out.old < vec_len out.old + length (fixed_hex count number)) }
    ensures capacity { vec_capacity out.old ≤ vec_capacity out.new }
{
    if count == 0 {
        return Ok(());
    }
    push_fixed_hex(out, count - 1, number / 16)?;
    out.push(byte_from(number % 16))?;
    Ok(())
}
