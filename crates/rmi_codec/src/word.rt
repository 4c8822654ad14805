//! Words: numbers of 64 bits in lower-case hex.

ghost use Rattle.std.specs.Prelude.{◌≡◌, ◌≢◌, ℕ, ◌<◌, ◌≤◌, ◌^◌, ◌∷◌, List, length, map, Ok, IsOk, IfOk, IfErr, IfSome, IfNone};
ghost use Rattle.rmm_spec.specs.CommandText.{AreWords};
ghost use Rattle.rmm_spec.specs.Text.{word};
ghost use Rattle.rmi_codec.specs.Faults.{IsWordsFault};

use crate::fault::{CodecFault, part_fault};
use crate::parts::Parts;

/// Takes the next part off, where it is a word: 64 bits in lower-case hex without leading zeros. Else nothing is taken.
#[inline(always)]
#[tactic(auto, unfolding(rmm_spec::specs::Text::word))]
pub fn next_word(parts: &mut Parts<'_>) -> Option<u64>
    ensures found { IfSome result (λ w. parts.old ≡ word w ∷ parts.new) }
    ensures none { IfNone result ((w : ℕ) (rest : List (List ℕ)) → w < 2 ^ 64 → parts.old ≢ word w ∷ rest) }
    ensures kept { IfNone result (parts.new ≡ parts.old) }
{
    parts.next_numeral(16, u64::MAX)
}

// Reads words to the end of a line, at most ten, into a buffer that may hold any others. With more the fault is `excess`.
#[inline(always)]
#[tactic(auto, using(std::proofs::lemmas::Grind::common_steps))]
pub(crate) fn read_words<'w>(
    words: &'w mut [u64; 10],
    mut parts: Parts<'_>,
    excess: CodecFault,
) -> Result<&'w [u64], CodecFault>
    ensures found { IfOk result (λ read. parts.entry ≡ map word read.now) }
    ensures words { IfOk result (λ read. AreWords read.now) }
    ensures count { IfOk result (λ read. length read.now ≤ 10) }
    ensures only { (ws : List ℕ) → AreWords ws → length ws ≤ 10 → parts.entry ≡ map word ws → IsOk result }
    ensures fault { IfErr result (λ e. IsWordsFault excess e parts.entry) }
{
    let mut count: usize = 0;
    while !parts.is_over() {
        let Some(word) = next_word(&mut parts) else {
            return Err(part_fault(&mut parts));
        };
        if count == words.len() {
            return Err(excess);
        }
        words[count] = word;
        count += 1;
    }
    Ok(&words[..count])
}
