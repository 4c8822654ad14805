//! Why a text is refused.

ghost use Rattle.rmi_codec.specs.Faults.{IsPartFault};

use crate::parts::Parts;
use thiserror::Error;

/// Why a text isn't a command or a reply. Where several apply, which one is reported is left open.
#[derive(Clone, Copy, Debug, Error)]
pub enum CodecFault {
    /// The number is that of no function.
    #[error("no such function")]
    UnknownNumber,
    /// The function takes another count of words.
    #[error("another count of words")]
    WordCount,
    /// A part isn't the one spelling of a number.
    #[error("not a number in its one spelling")]
    BadWord,
    /// A part is empty: the line begins or ends with a space, or two stand side by side.
    #[error("a space too many")]
    BadSpacing,
    /// A reply begins with none of its three forms, or has too many or too few parts for it.
    #[error("not a form of a reply")]
    BadForm,
}

// Why the next part is no number, where it is none.
#[cold]
#[inline(never)]
pub(crate) fn part_fault(parts: &mut Parts<'_>) -> CodecFault
    ensures { IsPartFault result parts.old }
{
    match parts.next_part() {
        None => CodecFault::BadForm,
        Some(part) if part.is_empty() => CodecFault::BadSpacing,
        Some(_) => CodecFault::BadWord,
    }
}
