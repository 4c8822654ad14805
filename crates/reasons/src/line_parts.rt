//! The kinds of lines.

ghost use Rattle.std.specs.Prelude.{◌≡◌, IfSome, IfNone};
ghost use Rattle.rmm_spec.specs.HistoryText.{Config};
ghost use Rattle.rmm_spec.specs.Text.{parts_of};
ghost use Rattle.reasons.specs.Wrong.{IsCertificateLine, IsCommandLine, IsEventLine, IsHeader, IsHeaderOf, IsWrong};

use crate::wanted::Wanted;
use crate::wrong_part::{WrongPart, wrong_part};
use rmi_codec::{Parts, number_below};

/// The first wrong part of a history's first line, which is given without its newline.
pub fn wrong_in_header(line: &[u8]) -> Option<WrongPart<'_>>
    ensures wrong { IfSome result (IsWrong IsHeader (parts_of line.now)) }
    ensures none { IfNone result (IsHeader (parts_of line.now)) }
{
    wrong_part(line, Wanted::Format)
}

/// The first wrong part of a later line of a history with this first line.
pub fn wrong_in_event<'a>(line: &'a [u8], header: &[u8]) -> Option<WrongPart<'a>>
    ensures wrong { IfSome result (λ wrong. (config : Config) → IsHeaderOf (parts_of header.now) config
        → IsWrong (IsEventLine config.cpus) (parts_of line.now) wrong) }
    ensures none { IfNone result ((config : Config) → IsHeaderOf (parts_of header.now) config → IsEventLine config.cpus (parts_of line.now)) }
{
    wrong_on(line, cpus_of(header))
}

// The first wrong part of a history's later line, on a machine of so many CPUs.
fn wrong_on(line: &[u8], cpus: u8) -> Option<WrongPart<'_>>
    ensures wrong { IfSome result (IsWrong (IsEventLine cpus) (parts_of line.now)) }
    ensures none { IfNone result (IsEventLine cpus (parts_of line.now)) }
{
    wrong_part(line, Wanted::EventLetter { cpus })
}

// How many CPUs a history's first line tells of, and 0 where it is none.
fn cpus_of(header: &[u8]) -> u8
    ensures { (config : Config) → IsHeaderOf (parts_of header.now) config → result ≡ config.cpus }
{
    let mut parts = Parts::of(header);
    let _format = parts.next_part();
    let _granules = parts.next_part();
    match number_below(&mut parts, 9) {
        Some(cpus) => cpus as u8,
        None => 0,
    }
}

/// The first wrong part of a certificate's line.
pub fn wrong_in_certificate_line(line: &[u8]) -> Option<WrongPart<'_>>
    ensures wrong { IfSome result (IsWrong IsCertificateLine (parts_of line.now)) }
    ensures none { IfNone result (IsCertificateLine (parts_of line.now)) }
{
    wrong_part(line, Wanted::LineLetter)
}

/// The first wrong part of a command's text.
pub fn wrong_in_command(text: &[u8]) -> Option<WrongPart<'_>>
    ensures wrong { IfSome result (IsWrong IsCommandLine (parts_of text.now)) }
    ensures none { IfNone result (IsCommandLine (parts_of text.now)) }
{
    wrong_part(text, Wanted::Function)
}
