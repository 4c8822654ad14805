//! The law of the reader of pieces: it is the contract of a function that calls it.

ghost use Rattle.std.specs.Prelude.{IfOk, IfErr};
ghost use Rattle.std.specs.List.{flat_map};
ghost use Rattle.rmm_spec.specs.CertificateText.{IsCertificateText};
ghost use Rattle.certificate.specs.Faults.{IsFaultOf};

use crate::certificate::Certificate;
use crate::fault::CertFault;
use crate::reader::{Reader, read_lines};
use std::alloc::Global;

/// A text that comes in pieces is read as it is whole, however it is cut.
pub fn read_pieces(alloc: Global, pieces: &[&[u8]]) -> Result<Certificate, CertFault>
    ensures found { IfOk result (λ certificate. IsCertificateText (flat_map (λ piece. piece.now) pieces.now) certificate.lines) }
    ensures fault { IfErr result (IsFaultOf (flat_map (λ piece. piece.now) pieces.now)) }
{
    let mut reader = Reader::new();
    let mut lines = Certificate::new(alloc);
    for piece in pieces {
        read_lines(&mut reader, &mut lines, piece)?;
    }
    reader.finish()?;
    Ok(lines)
}
