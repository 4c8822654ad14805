//! What is wrong with a bad line.

ghost use Rattle.std.specs.Prelude.{◌≡◌, ◌≢◌};
ghost use Rattle.explain.specs.Explained.{IsCertificateFlaw, IsFlawOf, IsHistoryFlaw, IsLineIn, IsMisplaced, IsOnFirstLine};
ghost use Rattle.reasons.specs.Wrong.{IsCertificateLine, IsEventLine, IsHeader, IsHeaderOf};
ghost use Rattle.rmm_spec.specs.CertificateText.{InCertificates};
ghost use Rattle.rmm_spec.specs.HistoryText.{Config};
ghost use Rattle.rmm_spec.specs.Text.{IsBadLine, parts_of};
ghost use Rattle.reasons.specs.declared.flaw.Misplaced.TheVariants as misplaced;

use crate::explaining::{behind_lines, first_line, line_of};
use reasons::{
    BadLine, Flaw, Misplaced, wrong_in_certificate_line, wrong_in_event, wrong_in_header,
};
use rmi_codec::next_line;

/// How many lines a text may have.
const MOST_LINES: u64 = 1_000_000;

/// A history's bad line, counted from 1.
pub(crate) fn bad_history_line(text: &[u8], line: u64) -> BadLine<'_>
    ensures line { result.line ≡ line }
    ensures bytes { IsLineIn text.now line result.bytes.now }
    ensures flaw { IsHistoryFlaw result.flaw text.now line (parts_of result.bytes.now) }
{
    let bytes = line_of(text, line);
    let flaw = if line == 1 {
        header_flaw(text, line, bytes)
    } else {
        event_flaw(text, line, bytes)
    };
    BadLine { line, bytes, flaw }
}

/// A certificate's bad line, counted from 1.
pub(crate) fn bad_certificate_line(text: &[u8], line: u64) -> BadLine<'_>
    requires { IsBadLine InCertificates text.now line }
    ensures line { result.line ≡ line }
    ensures bytes { IsLineIn text.now line result.bytes.now }
    ensures flaw { IsCertificateFlaw result.flaw text.now line (parts_of result.bytes.now) }
{
    let bytes = line_of(text, line);
    let flaw = match wrong_in_certificate_line(bytes) {
        Some(wrong) => Flaw::Part(wrong),
        None => Flaw::Place(why_left_over(text, line, bytes)),
    };
    BadLine { line, bytes, flaw }
}

// Why a certificate's line of its kind is bad: each with room and a newline can stand there.
fn why_left_over(text: &[u8], line: u64, bytes: &[u8]) -> Misplaced
    requires bad { IsBadLine InCertificates text.now line }
    requires here { IsLineIn text.now line bytes.now }
    requires kind { IsCertificateLine (parts_of bytes.now) }
    ensures place { IsMisplaced result text.now line }
    ensures turn { result ≢ misplaced.OutOfTurn }
{
    match why_misplaced(text, line) {
        Misplaced::Unended => Misplaced::Unended,
        Misplaced::Full => Misplaced::Full,
        Misplaced::OutOfTurn => unreachable!(),
    }
}

// Why the first line of a history is bad.
fn header_flaw<'a>(text: &[u8], line: u64, bytes: &'a [u8]) -> Flaw<'a>
    ensures { IsFlawOf IsHeader result text.now line (parts_of bytes.now) }
{
    match wrong_in_header(bytes) {
        Some(wrong) => Flaw::Part(wrong),
        None => Flaw::Place(why_misplaced(text, line)),
    }
}

// Why a later one is.
fn event_flaw<'a>(text: &[u8], line: u64, bytes: &'a [u8]) -> Flaw<'a>
    ensures { IsOnFirstLine text.now (λ header. (config : Config) → IsHeaderOf (parts_of header) config
        → IsFlawOf (IsEventLine config.cpus) result text.now line (parts_of bytes.now)) }
{
    let header = first_line(text);
    match wrong_in_event(bytes, header) {
        Some(wrong) => Flaw::Part(wrong),
        None => Flaw::Place(why_misplaced(text, line)),
    }
}

// Why a line of its kind is bad.
fn why_misplaced(text: &[u8], line: u64) -> Misplaced
    ensures { IsMisplaced result text.now line }
{
    if line > MOST_LINES {
        return Misplaced::Full;
    }
    match next_line(behind_lines(text, line.saturating_sub(1))) {
        Some(_) => Misplaced::OutOfTurn,
        None => Misplaced::Unended,
    }
}
