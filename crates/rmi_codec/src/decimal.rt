//! Decimals.

ghost use Rattle.std.specs.Prelude.{◌≡◌, ◌≢◌, ℕ, ◌<◌, ◌^◌, ◌∷◌, List, Some, IfSome, IfNone, ◌≤◌};
ghost use Rattle.rmm_spec.specs.Text.{decimal};

use crate::numeral::numeral_from;
use crate::parts::Parts;

/// The number that a part spells, where it is a decimal of 64 bits without leading zeros.
#[tactic(auto, unfolding(rmm_spec::specs::Text::decimal))]
pub fn decimal_from(part: &[u8]) -> Option<u64>
    ensures found { IfSome result (λ n. part.now ≡ decimal n) }
    ensures only { (n : ℕ) → n < 2 ^ 64 → part.now ≡ decimal n → result ≡ Some n }
{
    numeral_from(part, 10)
}

// Takes the next part off, where it is a decimal within the limit. Else nothing is taken.
#[inline(always)]
#[tactic(auto, unfolding(rmm_spec::specs::Text::decimal))]
pub(crate) fn next_decimal(parts: &mut Parts<'_>, most: u64) -> Option<u64>
    ensures found { IfSome result (λ n. parts.old ≡ decimal n ∷ parts.new) }
    ensures within { IfSome result (λ n. n ≤ most) }
    ensures none { IfNone result ((n : ℕ) (rest : List (List ℕ)) → n ≤ most → parts.old ≢ decimal n ∷ rest) }
    ensures kept { IfNone result (parts.new ≡ parts.old) }
{
    parts.next_numeral(10, most)
}
