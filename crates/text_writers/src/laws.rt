//! The laws of the readers and the writers: each is the contract of a function that calls both.

ghost use Rattle.std.specs.Prelude.{◌≡◌, ◌<◌, ℕ, length, Err, IfOk, IfErr, OnErr};
ghost use Rattle.rmm_spec.specs.CertificateText.{InCertificates};
ghost use Rattle.rmm_spec.specs.HistoryText.{InHistories};
ghost use Rattle.certificate.specs.Faults as certificates;
ghost use Rattle.certificate.specs.declared.fault.CertFault.TheVariants as cert_fault;
ghost use Rattle.history.specs.Faults.{IsFaultOfRewriting};
ghost use Rattle.history.specs.declared.fault.HistoryFault.TheVariants.{BadLine};

use crate::certificates::write_certificate;
use crate::histories::write_history;
use certificate::{CertFault, Certificate};
use history::{History, HistoryFault};
use std::alloc::{AllocError, Global};

/// What is written reads back as it was: no line of it is bad.
pub fn history_reads_back(alloc: Global, history: &History) -> Result<History, AllocError>
    ensures { IfOk result (λ again. again.recorded ≡ history.now.recorded) }
{
    let _fact = history.well_formed();
    let mut text = Vec::new(alloc);
    write_history(history, &mut text)?;
    match history::read(alloc, text.as_slice()) {
        Ok(again) => Ok(again),
        Err(HistoryFault::NoMemory) => Err(AllocError),
        Err(HistoryFault::BadLine(_)) => unreachable!(),
    }
}

/// What is read is written as it was, byte for byte. A text with a bad line stands for no history.
pub fn rewritten_history(alloc: Global, text: &[u8]) -> Result<Vec<u8>, HistoryFault>
    ensures same { IfOk result (λ again. again.items ≡ text.now) }
    ensures fault { IfErr result (IsFaultOfRewriting text.now) }
    ensures outside { (line : ℕ) → result ≡ Err (BadLine line) → ¬ InHistories text.now }
{
    let history = history::read(alloc, text)?;
    let mut again = Vec::new(alloc);
    write_history(&history, &mut again)?;
    Ok(again)
}

/// What is written reads back as it was: no line of it is bad. Without lines no memory is taken.
pub fn certificate_reads_back(
    alloc: Global,
    certificate: &Certificate,
) -> Result<Certificate, AllocError>
    ensures same { IfOk result (λ again. again.lines ≡ certificate.now.lines) }
    ensures refused { OnErr result (0 < length certificate.now.lines) }
{
    let _fact = certificate.len();
    let mut text = Vec::new(alloc);
    write_certificate(certificate, &mut text)?;
    match certificate::read(alloc, text.as_slice()) {
        Ok(again) => Ok(again),
        Err(CertFault::NoMemory) => Err(AllocError),
        Err(CertFault::BadLine(_)) => unreachable!(),
    }
}

/// What is read is written as it was, byte for byte. A text with a bad line stands for no certificate.
pub fn rewritten_certificate(alloc: Global, text: &[u8]) -> Result<Vec<u8>, CertFault>
    ensures same { IfOk result (λ again. again.items ≡ text.now) }
    ensures fault { IfErr result (certificates.IsFaultOf text.now) }
    ensures outside { (line : ℕ) → result ≡ Err (cert_fault.BadLine line) → ¬ InCertificates text.now }
{
    let certificate = certificate::read(alloc, text)?;
    let mut again = Vec::new(alloc);
    write_certificate(&certificate, &mut again)?;
    Ok(again)
}
