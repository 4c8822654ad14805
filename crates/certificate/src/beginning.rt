//! The beginning of a certificate's text.

ghost use Rattle.std.specs.Prelude.{◌≡◌, ◌+◌, ◌<◌, ◌≤◌, ℕ, List, [], ◌∷◌, ◌++◌, Some, take, IfOk, IfErr, IfSome, IfNone};
ghost use Rattle.certificate.specs.Pieces.{IsReadTo, Takes, with_told};
ghost use Rattle.certificate.specs.Spelling.{IsLineOf, IsNoLine};
ghost use Rattle.rmm_spec.specs.CertificateText.{InCertificates, IsCertificateText};
ghost use Rattle.rmm_spec.specs.Text.{HasNoNewline, IsBadLine, parts_of};
ghost use Rattle.rmm_spec.specs.declared.line.Line.{Line};
ghost use Rattle.rmm_spec.specs.declared.line.Line.TheVariants as line;

use crate::certificate::MOST_LINES;
use crate::spelled::{kept_front, line_from};
use rmi_codec::{UnfinishedLine, next_line};
use rmm_spec::Line;
use std::marker::Model;

/// The first bytes of a text: whole lines, none of them bad, which are counted, and the beginning of the next.
#[derive(Drop)]
pub(crate) struct Beginning {
    count: usize,
    line: UnfinishedLine,
    // the buffer for the words of a line
    words: [u64; 10],
}

impl Model for Beginning {
    ghost use Rattle.std.specs.Prelude.{◌≤◌};
    ghost use Rattle.certificate.specs.Pieces.{Begun};

    ghost Value = { Begun };

    ghost view = { λ beginning. record { count = beginning.count; begun = beginning.line } };

    ghost invariant = { λ beginning. beginning.count ≤ 1000000 };
}

impl Beginning {
    /// No byte yet.
    pub(crate) fn new() -> Beginning
        ensures { result ≡ record { count = 0; begun = [] } }
    {
        Beginning {
            count: 0,
            line: UnfinishedLine::new(),
            words: [0; 10],
        }
    }

    /// How many lines are whole.
    pub(crate) fn count(&self) -> usize
        ensures count { result ≡ self.now.count }
        ensures most { result ≤ MOST_LINES }
    {
        self.count
    }

    /// Takes the line at the piece's front, where it lies there whole and keeps a call, and tells its bytes and that call.
    /// Else nothing is taken. Nearly all lines are such, and this one has no place for a reply.
    #[inline(always)]
    pub(crate) fn take_kept(&mut self, piece: &[u8]) -> Option<(usize, u8, u32)>
        ensures taken { IfSome result (λ kept. Takes piece.now kept.0 (Some (line.Keep kept.1 kept.2))) }
        ensures read { IfSome result (λ kept. (text : List ℕ) (lines : List Line) → IsReadTo text lines self.old
            → IsReadTo (text ++ take kept.0 piece.now) (lines ++ line.Keep kept.1 kept.2 ∷ []) self.new) }
        ensures none { IfNone result (self.new ≡ self.old) }
    {
        if !self.line.is_empty() {
            return None;
        }
        if self.count >= MOST_LINES {
            return None;
        }
        let (count, cpu, number) = kept_front(piece)?;
        self.count += 1;
        Some((count, cpu, number))
    }

    /// Takes the bytes up to the next newline and with it, and tells how many and the line that it ends; or all, where
    /// there is none. Where a line is bad, its number is told.
    pub(crate) fn take(&mut self, piece: &[u8]) -> Result<(usize, Option<Line>), u64>
        ensures taken { IfOk result (λ told. Takes piece.now told.0 told.1) }
        ensures read { IfOk result (λ told. (text : List ℕ) (lines : List Line) → IsReadTo text lines self.old
            → IsReadTo (text ++ take told.0 piece.now) (with_told lines told.1) self.new) }
        ensures bad { IfErr result (λ line. (text more : List ℕ) (lines : List Line) → IsReadTo text lines self.old
            → IsBadLine InCertificates (text ++ (piece.now ++ more)) line) }
    {
        let bad_line = self.count as u64 + 1;
        let Some((last, _later)) = next_line(piece) else {
            if !self.line.extend(piece) {
                return Err(bad_line);
            }
            return Ok((piece.len(), None));
        };
        if self.count >= MOST_LINES {
            return Err(bad_line);
        }
        let Some(line) = ended_line(&mut self.line, &mut self.words, last) else {
            return Err(bad_line);
        };
        self.count += 1;
        Ok((last.len() + 1, Some(line)))
    }

    /// The text ends here. Where its last line has no newline, it is bad, and its number is told.
    pub(crate) fn finish(self) -> Result<(), u64>
        ensures whole { IfOk result (λ _. (text : List ℕ) (lines : List Line) → IsReadTo text lines self → IsCertificateText text lines) }
        ensures bad { IfErr result (λ line. (text : List ℕ) (lines : List Line) → IsReadTo text lines self → IsBadLine InCertificates text line) }
    {
        if self.line.is_empty() {
            return Ok(());
        }
        Err(self.count as u64 + 1)
    }
}

/// The line that ends with these bytes, where it is one. What was begun of it is then forgotten.
fn ended_line(begun: &mut UnfinishedLine, words: &mut [u64; 10], last: &[u8]) -> Option<Line>
    requires { HasNoNewline last.now }
    ensures found { IfSome result (IsLineOf (parts_of (begun.old ++ last.now))) }
    ensures forgotten { IfSome result (λ _. begun.new ≡ []) }
    ensures none { IfNone result (IsNoLine (parts_of (begun.old ++ last.now))) }
{
    if begun.is_empty() {
        return line_from(words, last);
    }
    begun_line(begun, words, last)
}

/// The line that was begun in an earlier piece.
fn begun_line(begun: &mut UnfinishedLine, words: &mut [u64; 10], last: &[u8]) -> Option<Line>
    requires { HasNoNewline last.now }
    ensures found { IfSome result (IsLineOf (parts_of (begun.old ++ last.now))) }
    ensures forgotten { IfSome result (λ _. begun.new ≡ []) }
    ensures none { IfNone result (IsNoLine (parts_of (begun.old ++ last.now))) }
{
    if !begun.extend(last) {
        return None;
    }
    let line = line_from(words, begun.bytes());
    begun.clear();
    line
}
