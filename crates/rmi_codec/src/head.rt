//! What a line begins with.

ghost use Rattle.std.specs.Prelude.{◌≡◌, IfSome, IfNone, ◌<◌};
ghost use Rattle.rmi_codec.specs.Head.{HasNoHead, head_parts};

use crate::limited::number_below;
use crate::parts::Parts;

/// A letter, and the CPU and the number of a call.
#[derive(Clone, Copy)]
pub struct Head {
    pub letter: u8,
    pub cpu: u8,
    pub number: u32,
}

/// Takes a head off the parts, where its CPU and its number are below these limits.
#[inline(always)]
pub fn head_from(parts: &mut Parts<'_>, cpus: u8, calls: u32) -> Option<Head>
    ensures found { IfSome result (λ head. parts.old ≡ head_parts head.letter head.cpu head.number parts.new) }
    ensures cpu { IfSome result (λ head. head.cpu < cpus) }
    ensures number { IfSome result (λ head. head.number < calls) }
    ensures none { IfNone result (HasNoHead cpus calls parts.old) }
{
    let letter = parts.next_letter()?;
    let cpu = number_below(parts, u32::from(cpus))? as u8;
    let number = number_below(parts, calls)?;
    Some(Head {
        letter,
        cpu,
        number,
    })
}
