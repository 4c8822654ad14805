//! The first wrong part of a line.

ghost use Rattle.std.specs.Prelude.{IfSome, IfNone};
ghost use Rattle.rmm_spec.specs.Text.{parts_of};
ghost use Rattle.reasons.specs.Wanted.{GoesOn};
ghost use Rattle.reasons.specs.Wrong.{IsWrong};

use crate::wanted::Wanted;
use rmi_codec::Parts;

/// A part that can't stand where it stands.
#[derive(Clone, Copy)]
pub struct WrongPart<'a> {
    /// How many parts stand before it.
    pub index: usize,
    /// Its bytes, or nothing where the line ends too soon.
    pub part: Option<&'a [u8]>,
    pub wanted: Wanted,
}

/// The first wrong part of a line from which this is wanted.
pub(crate) fn wrong_part(line: &[u8], start: Wanted) -> Option<WrongPart<'_>>
    ensures wrong { IfSome result (IsWrong (GoesOn start) (parts_of line.now)) }
    ensures none { IfNone result (GoesOn start (parts_of line.now)) }
{
    let mut parts = Parts::of(line);
    let mut wanted = start;
    let mut index = 0;
    while let Some(part) = parts.next_part() {
        let Some(next) = wanted.after(part) else {
            return Some(WrongPart {
                index,
                part: Some(part),
                wanted,
            });
        };
        wanted = next;
        index += 1;
    }
    if wanted.may_end() {
        return None;
    }
    Some(WrongPart {
        index,
        part: None,
        wanted,
    })
}
