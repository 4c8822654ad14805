//! The verdict on two texts.

ghost use Rattle.std.specs.Prelude.{◌≡◌, ◌↔◌, List, length, IfOk, OnErr};
ghost use Rattle.rmm_spec.specs.declared.line.Line.{Line};
ghost use Rattle.rmm_spec.specs.declared.verdict.Verdict.TheVariants as verdict;
ghost use Rattle.rmm_spec.specs.HistoryText.{History, IsHistoryText};
ghost use Rattle.rmm_spec.specs.CertificateText.{IsCertificateText};
ghost use Rattle.rmm_spec.specs.Linearization.{IsLinearization};
ghost use Rattle.rmm_spec.specs.Judgement.{Judges};
ghost use Rattle.checker.specs.Judgement.{TakesMemory};

use crate::session::Session;
use history::HistoryFault;
use rmm_spec::Verdict;
use std::alloc::{AllocError, Global};

/// Judges a certificate's text against a history's: `Yes` exactly where the certificate is a linearization of the
/// history (Herlihy and Wing 1990), with its count of lines, else the first fault. A fault of a text is its bad line.
/// Memory is refused only for an event that was read, or for the machine of a whole history: a text without a header, or
/// whose first line behind it is bad, is at fault whatever memory there is.
pub fn check(alloc: Global, history: &[u8], certificate: &[u8]) -> Result<Verdict, AllocError>
    ensures judged { IfOk result (λ v. Judges v history.now certificate.now) }
    ensures valid { IfOk result (λ v. (h : History) (lines : List Line)
        → IsHistoryText history.now h → IsCertificateText certificate.now lines
        → (v ≡ verdict.Yes (length lines)) ↔ IsLinearization h lines) }
    ensures refused { OnErr result (TakesMemory history.now) }
{
    let history = match history::read(alloc, history) {
        Ok(history) => history,
        Err(HistoryFault::BadLine(line)) => return Ok(Verdict::HistoryFault(line)),
        Err(HistoryFault::NoMemory) => return Err(AllocError),
    };
    let mut session = Session::new(alloc, history)?;
    session.feed(certificate)?;
    session.finish()
}
