//! Lines of a certificate by their index, counted from 0: which call one names, and which one before another it is about.

ghost use Rattle.std.specs.Prelude.{◌≡◌, ◌<◌, ◌≤◌, ◌↔◌, length, take, IfNone, IfSome, IsTrue};
ghost use Rattle.certificate.specs.LineRef.{line_seen};
ghost use Rattle.explain.specs.Told.{HasLine, IsMadeAfter, IsLineFor, Names, NamesAt};
ghost use Rattle.rmm_spec.specs.Linearization.{IsNamed, cpu_named, number_named};

use certificate::{Certificate, LineRef};
use history::History;

/// The CPU and the number of the call that a line names.
pub(crate) fn called_by(line: LineRef<'_>) -> (u8, u32)
    ensures cpu { result.0 ≡ cpu_named (line_seen line.entry) }
    ensures number { result.1 ≡ number_named (line_seen line.entry) }
{
    match line {
        LineRef::Keep { cpu, number } | LineRef::Unfinished { cpu, number, .. } => (cpu, number),
    }
}

/// The first line that names the call, which one before the index does.
pub(crate) fn line_naming(certificate: &Certificate, index: usize, cpu: u8, number: u32) -> usize
    requires within { index ≤ length certificate.now.lines }
    requires named { IsNamed (take index certificate.now.lines) cpu number }
    ensures before { result < index }
    ensures names { IsLineFor certificate.now.lines result (Names cpu number) }
{
    for i in 0..index {
        if names(certificate.line(i), cpu, number) {
            return i;
        }
    }
    unreachable!()
}

/// The step of the first line that names the call, where one does.
pub(crate) fn line_if_any(certificate: &Certificate, cpu: u8, number: u32) -> Option<u64>
    ensures some { IfSome result (λ step. NamesAt certificate.now.lines step cpu number) }
    ensures none { IfNone result (¬ HasLine certificate.now.lines (Names cpu number)) }
{
    for i in 0..certificate.len() {
        if names(certificate.line(i), cpu, number) {
            return Some(i as u64 + 1);
        }
    }
    None
}

// Whether a line names the call.
fn names(line: LineRef<'_>, cpu: u8, number: u32) -> bool
    ensures { IsTrue result ↔ Names cpu number (line_seen line.entry) }
{
    let (named_cpu, named_number) = called_by(line);
    named_cpu == cpu && named_number == number
}

/// The first line whose call was made behind the place, where one before the index is.
pub(crate) fn line_made_after(
    history: &History,
    certificate: &Certificate,
    index: usize,
    returned: u32,
) -> usize
    requires within { index ≤ length certificate.now.lines }
    requires late { HasLine (take index certificate.now.lines) (IsMadeAfter history.now.recorded.events returned) }
    ensures before { result < index }
    ensures made { IsLineFor certificate.now.lines result (IsMadeAfter history.now.recorded.events returned) }
{
    for i in 0..index {
        if is_made_after(history, certificate.line(i), returned) {
            return i;
        }
    }
    unreachable!()
}

// Whether the call of a line was made behind the place.
fn is_made_after(history: &History, line: LineRef<'_>, returned: u32) -> bool
    ensures { IsTrue result ↔ IsMadeAfter history.now.recorded.events returned (line_seen line.entry) }
{
    let _fact = history.well_formed();
    let (cpu, number) = called_by(line);
    match history.places_of(cpu, number) {
        Some(places) => places.called > returned,
        None => false,
    }
}
