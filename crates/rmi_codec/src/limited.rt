//! Numbers below a limit.

ghost use Rattle.std.specs.Prelude.{◌≡◌, ◌<◌, ◌∷◌, IfSome, IfNone};
ghost use Rattle.rmm_spec.specs.Text.{decimal};
ghost use Rattle.rmi_codec.specs.Limited.{HasNoNumber};

use crate::decimal::next_decimal;
use crate::parts::Parts;

/// Takes a decimal below a limit off the parts.
#[inline(always)]
pub fn number_below(parts: &mut Parts<'_>, limit: u32) -> Option<u32>
    ensures below { IfSome result (λ n. n < limit) }
    ensures found { IfSome result (λ n. parts.old ≡ decimal n ∷ parts.new) }
    ensures none { IfNone result (HasNoNumber limit parts.old) }
{
    let most = limit.checked_sub(1)?;
    let number = next_decimal(parts, u64::from(most))?;
    Some(number as u32)
}
