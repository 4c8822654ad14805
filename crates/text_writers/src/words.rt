//! Words, written in hex digits.

ghost use Rattle.std.specs.Prelude.{◌≡◌, ◌∷◌, ◌++◌, length, map, take, OnOk, OnErr, ◌≤◌, ◌<◌, ◌+◌, vec_len, vec_capacity};
ghost use Rattle.rmi_codec.specs.Spaced.{spaced};
ghost use Rattle.rmm_spec.specs.Text.{word};
ghost use Rattle.text_writers.specs.Beginning.{IsBeginning};

use crate::numbers::push_numeral;
use std::alloc::AllocError;

// Appends a word behind a space.
#[tactic(auto, unfolding(rmm_spec::specs::Text::word))]
fn push_word(out: &mut Vec<u8>, number: u64) -> Result<(), AllocError>
    ensures ok { OnOk result (out.new.items ≡ out.old.items ++ 32 ∷ word number) }
    ensures kept { OnErr result (take (length out.old.items) out.new.items ≡ out.old.items) }
    ensures beginning { OnErr result (IsBeginning out.new.items (out.old.items ++ 32 ∷ word number)) }
    ensures full { OnErr result (vec_capacity out.old < vec_len out.old + length (32 ∷ word number)) }
    ensures capacity { vec_capacity out.old ≤ vec_capacity out.new }
{
    out.push(b' ')?;
    push_numeral(out, number, 16)
}

// Appends words, each behind a space.
pub(crate) fn push_words(out: &mut Vec<u8>, words: &[u64]) -> Result<(), AllocError>
    ensures ok { OnOk result (out.new.items ≡ out.old.items ++ spaced (map word words.now)) }
    ensures kept { OnErr result (take (length out.old.items) out.new.items ≡ out.old.items) }
    ensures beginning { OnErr result (IsBeginning out.new.items (out.old.items ++ spaced (map word words.now))) }
    ensures full { OnErr result (vec_capacity out.old < vec_len out.old + length (spaced (map word words.now))) }
    ensures capacity { vec_capacity out.old ≤ vec_capacity out.new }
{
    for word in words {
        push_word(out, *word)?;
    }
    Ok(())
}
