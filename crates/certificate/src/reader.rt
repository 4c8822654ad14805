//! Texts, read to certificates.

ghost use Rattle.std.specs.Prelude.{◌≡◌, ◌≢◌, ◌+◌, ◌<◌, ◌≤◌, ℕ, List, [], ◌∷◌, ◌++◌, length, take, Some, None, Ok, Err, IsOk, IfOk, IfErr, OnOk, OnErr, IfSome, IfNone, MatchResult};
ghost use Rattle.certificate.specs.Faults.{IsFaultOf};
ghost use Rattle.certificate.specs.Pieces.{HasRead, IsReadTo, Takes, with_told};
ghost use Rattle.certificate.specs.declared.fault.CertFault.TheVariants.{BadLine, NoMemory};
ghost use Rattle.rmm_spec.specs.CertificateText.{InCertificates, IsCertificate, IsCertificateText};
ghost use Rattle.rmm_spec.specs.Text.{IsBadLine};
ghost use Rattle.rmm_spec.specs.declared.line.Line.{Line};
ghost use Rattle.rmm_spec.specs.declared.line.Line.TheVariants as line;

use crate::beginning::Beginning;
use crate::certificate::{Certificate, MOST_LINES};
use crate::fault::CertFault;
use rmm_spec::Line;
use std::alloc::{AllocError, Global};
use std::marker::Model;

/// Reads a certificate's lines from a text that comes in pieces, in one pass and without memory. Contracts see how many lines
/// were told and the beginning of the next, at most 256 bytes, or the number of the bad line by which the reader has failed.
#[derive(Drop)]
pub struct Reader {
    beginning: Beginning,
    failed: Option<u64>,
}

impl Model for Reader {
    ghost use Rattle.std.specs.Prelude.{ℕ, Result};
    ghost use Rattle.certificate.specs.Pieces.{Begun, begun_or_fault};

    ghost Value = { Result Begun ℕ };

    ghost view = { λ reader. begun_or_fault reader.beginning reader.failed };
}

impl Reader {
    /// No byte yet.
    pub fn new() -> Reader
        ensures { result ≡ Ok (record { count = 0; begun = [] }) }
    {
        Reader {
            beginning: Beginning::new(),
            failed: None,
        }
    }

    /// How many lines were told. Of a reader that has failed it tells nothing.
    pub fn count(&self) -> usize
        ensures count { IfOk self.now (λ kept. result ≡ kept.count) }
        ensures most { result ≤ MOST_LINES }
    {
        self.beginning.count()
    }

    /// Takes the piece's bytes up to the next newline and with it, and tells how many and the line that it ends; or all, where
    /// there is no newline. A bad line is told only once it is bad whatever follows, and at the latest with its newline.
    /// A reader that has failed tells the same line from then on.
    pub fn next(&mut self, piece: &[u8]) -> Result<(usize, Option<Line>), CertFault>
        ensures answered { MatchResult self.new (λ _. IsOk result) (λ line. result ≡ Err (BadLine line)) }
        ensures taken { IfOk result (λ told. Takes piece.now told.0 told.1) }
        ensures read { IfOk self.old (λ old. IfOk result (λ told. IfOk self.new (λ new. (text : List ℕ) (lines : List Line)
            → IsReadTo text lines old → IsReadTo (text ++ take told.0 piece.now) (with_told lines told.1) new))) }
        ensures bad { IfOk self.old (λ old. IfErr self.new (λ line. (text more : List ℕ) (lines : List Line)
            → IsReadTo text lines old → IsBadLine InCertificates (text ++ (piece.now ++ more)) line)) }
        ensures failed { IfErr self.old (λ line. self.new ≡ Err line) }
    {
        if let Some(line) = self.failed {
            return Err(CertFault::BadLine(line));
        }
        if let Some((count, cpu, number)) = self.beginning.take_kept(piece) {
            return Ok((count, Some(Line::Keep { cpu, number })));
        }
        self.next_other(piece)
    }

    /// Takes the line at the piece's front as `next` does, where it lies there whole and keeps a call, and tells its bytes and
    /// that call. Else nothing is taken. Nearly all lines are such, and this one has no place for a reply.
    #[inline(always)]
    pub fn next_kept(&mut self, piece: &[u8]) -> Option<(usize, u8, u32)>
        ensures answered { IfSome result (λ kept. IsOk self.new) }
        ensures taken { IfSome result (λ kept. Takes piece.now kept.0 (Some (line.Keep kept.1 kept.2))) }
        ensures read { IfSome result (λ kept. IfOk self.old (λ old. IfOk self.new (λ new. (text : List ℕ) (lines : List Line)
            → IsReadTo text lines old → IsReadTo (text ++ take kept.0 piece.now) (lines ++ line.Keep kept.1 kept.2 ∷ []) new))) }
        ensures none { IfNone result (self.new ≡ self.old) }
        ensures failed { IfErr self.old (λ line. result ≡ None) }
    {
        if self.failed.is_some() {
            return None;
        }
        self.beginning.take_kept(piece)
    }

    /// Takes bytes as `next` does, in any case.
    #[inline(never)]
    fn next_other(&mut self, piece: &[u8]) -> Result<(usize, Option<Line>), CertFault>
        requires { IsOk self.old }
        ensures answered { MatchResult self.new (λ _. IsOk result) (λ line. result ≡ Err (BadLine line)) }
        ensures taken { IfOk result (λ told. Takes piece.now told.0 told.1) }
        ensures read { IfOk self.old (λ old. IfOk result (λ told. IfOk self.new (λ new. (text : List ℕ) (lines : List Line)
            → IsReadTo text lines old → IsReadTo (text ++ take told.0 piece.now) (with_told lines told.1) new))) }
        ensures bad { IfOk self.old (λ old. IfErr self.new (λ line. (text more : List ℕ) (lines : List Line)
            → IsReadTo text lines old → IsBadLine InCertificates (text ++ (piece.now ++ more)) line)) }
    {
        match self.beginning.take(piece) {
            Ok(told) => Ok(told),
            Err(line) => {
                self.failed = Some(line);
                Err(CertFault::BadLine(line))
            }
        }
    }

    /// The text ends here. A last line without a newline is bad.
    pub fn finish(self) -> Result<(), CertFault>
        ensures whole { IfOk self (λ kept. OnOk result ((text : List ℕ) (lines : List Line)
            → IsReadTo text lines kept → IsCertificateText text lines)) }
        ensures bad { IfOk self (λ kept. IfErr result (λ fault. (line : ℕ) × ((fault ≡ BadLine line) × ((text : List ℕ) (lines : List Line)
            → IsReadTo text lines kept → IsBadLine InCertificates text line)))) }
        ensures failed { IfErr self (λ line. result ≡ Err (BadLine line)) }
        ensures no_memory { result ≢ Err NoMemory }
    {
        let Reader { beginning, failed } = self;
        if let Some(line) = failed {
            return Err(CertFault::BadLine(line));
        }
        match beginning.finish() {
            Ok(()) => Ok(()),
            Err(line) => Err(CertFault::BadLine(line)),
        }
    }
}

/// Reads a certificate. The empty text is the one without lines, and a line past the most that there may be is bad.
pub fn read(alloc: Global, text: &[u8]) -> Result<Certificate, CertFault>
    ensures found { IfOk result (λ certificate. IsCertificateText text.now certificate.lines) }
    ensures fault { IfErr result (IsFaultOf text.now) }
{
    let mut reader = Reader::new();
    let mut lines = Certificate::new(alloc);
    read_lines(&mut reader, &mut lines, text)?;
    reader.finish()?;
    Ok(lines)
}

/// Appends each line that ends in the piece.
pub(crate) fn read_lines(
    reader: &mut Reader,
    lines: &mut Certificate,
    piece: &[u8],
) -> Result<(), CertFault>
    requires { (text : List ℕ) × HasRead reader.old text lines.old.lines }
    ensures read { OnOk result ((text : List ℕ) → HasRead reader.old text lines.old.lines → HasRead reader.new (text ++ piece.now) lines.new.lines) }
    ensures fault { IfErr result (λ fault. (text more : List ℕ)
        → HasRead reader.old text lines.old.lines → IsFaultOf (text ++ (piece.now ++ more)) fault) }
{
    let mut rest = piece;
    while !rest.is_empty() {
        let (count, line) = reader.next(rest)?;
        append_told(lines, line)?;
        let later = rest.split_at(count).1;
        rest = later;
    }
    Ok(())
}

/// Appends the line that was told, where one was.
#[inline(always)]
fn append_told(lines: &mut Certificate, told: Option<Line>) -> Result<(), AllocError>
    requires { IsCertificate (with_told lines.old.lines told) }
    ensures ok { OnOk result (lines.new.lines ≡ with_told lines.old.lines told) }
    ensures refused { OnErr result (0 < length (with_told lines.old.lines told)) }
{
    match told {
        Some(line) => lines.push(line),
        None => Ok(()),
    }
}
