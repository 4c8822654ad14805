//! What a line begins with, written.

ghost use Rattle.std.specs.Prelude.{◌≡◌, [], ◌∷◌, ◌++◌, length, take, OnOk, OnErr, ◌≤◌, ◌<◌, ◌+◌, vec_len, vec_capacity};
ghost use Rattle.rmi_codec.specs.Head.{head_text};
ghost use Rattle.rmi_codec.specs.Spaced.{spaced};
ghost use Rattle.rmm_spec.specs.Text.{decimal};
ghost use Rattle.text_writers.specs.Beginning.{IsBeginning};

use crate::numbers::push_decimal;
use std::alloc::AllocError;

// Appends a number behind a space.
fn push_next(out: &mut Vec<u8>, number: u64) -> Result<(), AllocError>
    ensures ok { OnOk result (out.new.items ≡ out.old.items ++ 32 ∷ decimal number) }
    ensures kept { OnErr result (take (length out.old.items) out.new.items ≡ out.old.items) }
    ensures beginning { OnErr result (IsBeginning out.new.items (out.old.items ++ 32 ∷ decimal number)) }
    ensures full { OnErr result (vec_capacity out.old < vec_len out.old + length (32 ∷ decimal number)) }
    ensures capacity { vec_capacity out.old ≤ vec_capacity out.new }
{
    out.push(b' ')?;
    push_decimal(out, number)
}

/// Appends two numbers, each behind a space. Where memory is refused, a beginning of them may have been appended.
#[tactic(auto, using(std::proofs::lemmas::Grind::common_steps, crate::proofs::WriteLaws::writing))]
pub fn push_numbers(out: &mut Vec<u8>, first: u64, second: u64) -> Result<(), AllocError>
    ensures ok { OnOk result (out.new.items ≡ out.old.items ++ spaced (decimal first ∷ decimal second ∷ [])) }
    ensures kept { OnErr result (take (length out.old.items) out.new.items ≡ out.old.items) }
    ensures beginning { OnErr result (IsBeginning out.new.items (out.old.items ++ spaced (decimal first ∷ decimal second ∷ []))) }
    ensures full { OnErr result (vec_capacity out.old < vec_len out.old + length (spaced (decimal first ∷ decimal second ∷ []))) }
    ensures capacity { vec_capacity out.old ≤ vec_capacity out.new }
{
    push_next(out, first)?;
    push_next(out, second)
}

/// Appends a letter, a CPU and the number of a call. Where memory is refused, a beginning of them may have been appended.
#[tactic(auto, unfolding(rmi_codec::specs::Head::head_text))]
pub fn push_head(out: &mut Vec<u8>, letter: u8, cpu: u8, number: u32) -> Result<(), AllocError>
    ensures ok { OnOk result (out.new.items ≡ out.old.items ++ head_text letter cpu number) }
    ensures kept { OnErr result (take (length out.old.items) out.new.items ≡ out.old.items) }
    ensures beginning { OnErr result (IsBeginning out.new.items (out.old.items ++ head_text letter cpu number)) }
    ensures full { OnErr result (vec_capacity out.old < vec_len out.old + length (head_text letter cpu number)) }
    ensures capacity { vec_capacity out.old ≤ vec_capacity out.new }
{
    out.push(letter)?;
    push_numbers(out, u64::from(cpu), u64::from(number))
}
