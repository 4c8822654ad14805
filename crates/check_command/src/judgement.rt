//! The verdict on two texts, from any two sources, and its line to any sink.

ghost use Rattle.std.specs.Prelude.{◌≡◌, ◌≢◌, ◌⊎◌, ◌+◌, ◌<◌, ℕ, List, [], ◌++◌, length, IfOk, IfErr, IfSome, OnOk, OnErr, Err};
ghost use Rattle.std.specs.Io.KnownBytes.{Appends};
ghost use Rattle.rmm_spec.specs.HistoryText.{IsHistoryText};
ghost use Rattle.rmm_spec.specs.Judgement.{Judges};
ghost use Rattle.rmm_spec.specs.VerdictText.{verdict_line};
ghost use Rattle.check_command.specs.declared.judgement.JudgeFault.TheVariants.{NoMemory, Write};
ghost use Rattle.check_command.specs.Judgement.{IsJudgement, failures_of};
ghost use Rattle.check_command.specs.Memory.{JudgesThose, RefusesLine, RefusesVerdict};
ghost use Rattle.devices.specs.Sink.{HoldsBeginning, writing};
ghost use Rattle.devices.specs.Source.{Gives, GivesWhole, IsRefused, reading};
ghost use Rattle.devices.specs.Taker.{RefusesPiece};

use crate::takers::{Judging, Recording, Unread};
use checker::{Session, Verdict, VerdictLine};
use devices::{ReadError, Sink, Source, Taker, WriteError, read_whole, write_whole};
use history::{History, HistoryFault, Reader};
use std::alloc::{AllocError, Global};
use thiserror::Error;

/// Why no verdict was written. The first fault met ends the judgement.
#[derive(Clone, Copy, Debug, Error)]
pub enum JudgeFault {
    #[error("the history can't be read")]
    ReadHistory,
    #[error("the certificate can't be read")]
    ReadCertificate,
    #[error("the verdict can't be written")]
    Write,
    #[error("no memory")]
    NoMemory,
}

impl From<AllocError> for JudgeFault {
    ghost from_gives = { λ _ fault. fault ≡ NoMemory };

    fn from(_error: AllocError) -> JudgeFault {
        JudgeFault::NoMemory
    }
}

impl From<WriteError> for JudgeFault {
    ghost from_gives = { λ _ fault. fault ≡ Write };

    fn from(_error: WriteError) -> JudgeFault {
        JudgeFault::Write
    }
}

/// Reads both texts to their ends, the history first, judges them, and writes the verdict's line, which takes no memory.
pub fn judge<H: Source, C: Source, K: Sink>(
    alloc: Global,
    history: &mut H,
    certificate: &mut C,
    sink: &mut K,
) -> Result<Verdict, JudgeFault>
    ensures { IsJudgement
        (reading H.gives H.is_ended H.left H.refuses H.failures history.old history.new)
        (reading C.gives C.is_ended C.left C.refuses C.failures certificate.old certificate.new)
        (writing K.taken K.contents K.room K.failures sink.old sink.new)
        result }
{
    match read_verdict(alloc, history, certificate) {
        Ok(verdict) => write_verdict(verdict, sink),
        Err(fault) => Err(fault),
    }
}

// Writes the verdict's line. The sink makes room for all of it before the first byte, so memory is refused only where it had no room.
fn write_verdict<K: Sink>(verdict: Verdict, sink: &mut K) -> Result<Verdict, JudgeFault>
    ensures same { IfOk result (λ told. told ≡ verdict) }
    ensures ok { OnOk result (K.taken sink.new ≡ K.taken sink.old ++ verdict_line verdict) }
    ensures held { OnOk result (Appends (K.contents sink.old) (K.contents sink.new) (verdict_line verdict)) }
    ensures torn { result ≡ Err JudgeFault.Write → HoldsBeginning (verdict_line verdict)
        (K.taken sink.old) (K.taken sink.new) (K.contents sink.old) (K.contents sink.new) }
    ensures full { result ≡ Err JudgeFault.NoMemory → K.room sink.old < length (verdict_line verdict) }
    ensures silent { result ≡ Err JudgeFault.NoMemory → K.taken sink.new ≡ K.taken sink.old }
    ensures untouched { result ≡ Err JudgeFault.NoMemory → K.contents sink.new ≡ K.contents sink.old }
    ensures failures { K.failures sink.new ≡ K.failures sink.old + (failures_of result).sink }
    ensures faults { IfErr result (λ fault. (fault ≢ JudgeFault.ReadHistory) × (fault ≢ JudgeFault.ReadCertificate)) }
{
    let line = VerdictLine::of(&verdict);
    let bytes = line.as_slice();
    sink.make_room(bytes.len())?;
    write_whole(bytes, sink)?;
    Ok(verdict)
}

// The verdict on what the two sources give.
fn read_verdict<H: Source, C: Source>(
    alloc: Global,
    history: &mut H,
    certificate: &mut C,
) -> Result<Verdict, JudgeFault>
    ensures order { H.is_ended history.new ⊎ (certificate.new ≡ certificate.old) }
    ensures history_read { (text : List ℕ) × Gives H.gives history.old text history.new }
    ensures certificate_read { (text : List ℕ) × Gives C.gives certificate.old text certificate.new }
    ensures ends { OnOk result (H.is_ended history.new × C.is_ended certificate.new) }
    ensures judged { IfOk result (λ verdict. JudgesThose verdict
        (GivesWhole H.gives (H.left history.old) history.old history.new)
        (GivesWhole C.gives (C.left certificate.old) certificate.old certificate.new)) }
    ensures memory { result ≡ Err JudgeFault.NoMemory → RefusesVerdict
        (reading H.gives H.is_ended H.left H.refuses H.failures history.old history.new)
        (reading C.gives C.is_ended C.left C.refuses C.failures certificate.old certificate.new) }
    ensures history_failures { H.failures history.new ≡ H.failures history.old + (failures_of result).history }
    ensures certificate_failures { C.failures certificate.new
        ≡ C.failures certificate.old + (failures_of result).certificate }
    ensures unwritten { IfErr result (λ fault. fault ≢ JudgeFault.Write) }
{
    let reader = Reader::new(alloc);
    let mut recording = Recording(reader);
    if let Err(fault) = read_history(history, &mut recording) {
        return Err(fault);
    }
    let Recording(reader) = recording;
    match reader.finish() {
        Ok(recorded) => judge_certificate(alloc, recorded, certificate),
        Err(HistoryFault::BadLine(line)) => bad_history(line, certificate),
        // Its taker has reported it.
        Err(HistoryFault::NoMemory) => Err(JudgeFault::NoMemory),
    }
}

// The verdict on a history with that bad line. The certificate is read to its end all the same.
fn bad_history<C: Source>(line: u64, certificate: &mut C) -> Result<Verdict, JudgeFault>
    ensures read { (text : List ℕ) × Gives C.gives certificate.old text certificate.new }
    ensures end { OnOk result (C.is_ended certificate.new) }
    ensures told { IfOk result (λ verdict. verdict ≡ Verdict.HistoryFault line) }
    ensures whole { OnOk result ((text : List ℕ) × GivesWhole C.gives (C.left certificate.old) certificate.old certificate.new text) }
    ensures memory { result ≡ Err JudgeFault.NoMemory → IsRefused C.gives C.refuses certificate.old certificate.new }
    ensures failures { C.failures certificate.new ≡ C.failures certificate.old + (failures_of result).certificate }
    ensures faults { IfErr result (λ fault. (fault ≡ JudgeFault.ReadCertificate) ⊎ (fault ≡ JudgeFault.NoMemory)) }
{
    match read_certificate(certificate, &mut Unread) {
        Ok(()) => Ok(Verdict::HistoryFault(line)),
        Err(fault) => Err(fault),
    }
}

// The verdict on what a certificate's source gives, for a history that was read.
fn judge_certificate<C: Source>(
    alloc: Global,
    history: History,
    certificate: &mut C,
) -> Result<Verdict, JudgeFault>
    ensures read { (text : List ℕ) × Gives C.gives certificate.old text certificate.new }
    ensures end { OnOk result (C.is_ended certificate.new) }
    ensures judged { IfOk result (λ verdict. (bytes : List ℕ) → IsHistoryText bytes history.recorded → (text : List ℕ)
        × (GivesWhole C.gives (C.left certificate.old) certificate.old certificate.new text × Judges verdict bytes text)) }
    ensures memory { result ≡ Err JudgeFault.NoMemory → (certificate.new ≡ certificate.old)
        ⊎ (IsRefused C.gives C.refuses certificate.old certificate.new
        ⊎ ((bytes : List ℕ) → IsHistoryText bytes history.recorded → (text : List ℕ)
        × (Gives C.gives certificate.old text certificate.new × RefusesLine history.recorded text))) }
    ensures failures { C.failures certificate.new ≡ C.failures certificate.old + (failures_of result).certificate }
    ensures faults { IfErr result (λ fault. (fault ≡ JudgeFault.ReadCertificate) ⊎ (fault ≡ JudgeFault.NoMemory)) }
{
    let session = Session::new(alloc, history)?;
    let mut judging = Judging(session);
    if let Err(fault) = read_certificate(certificate, &mut judging) {
        return Err(fault);
    }
    let Judging(session) = judging;
    match session.finish() {
        Ok(verdict) => Ok(verdict),
        // It would have refused the last piece.
        Err(_) => Err(JudgeFault::NoMemory),
    }
}

// Reads the history's source to its end.
fn read_history<H: Source, T: Taker>(history: &mut H, taker: &mut T) -> Result<(), JudgeFault>
    ensures read { (text : List ℕ) × (Gives H.gives history.old text history.new
        × OnOk result (IfSome (H.left history.old) (λ whole. text ≡ whole)
        × ((before : List ℕ) → T.has_taken taker.old before [] → T.has_taken taker.new before text))) }
    ensures end { OnOk result (H.is_ended history.new) }
    ensures memory { result ≡ Err JudgeFault.NoMemory → IsRefused H.gives H.refuses history.old history.new
        ⊎ RefusesPiece H.gives T.has_taken T.refuses history.old history.new taker.old }
    ensures failures { H.failures history.new ≡ H.failures history.old + (failures_of result).history }
    ensures faults { IfErr result (λ fault. (fault ≡ JudgeFault.ReadHistory) ⊎ (fault ≡ JudgeFault.NoMemory)) }
{
    match read_whole(history, taker) {
        Ok(()) => Ok(()),
        Err(ReadError::Device) => Err(JudgeFault::ReadHistory),
        Err(ReadError::NoMemory) => Err(JudgeFault::NoMemory),
    }
}

// Reads the certificate's source to its end.
fn read_certificate<C: Source, T: Taker>(
    certificate: &mut C,
    taker: &mut T,
) -> Result<(), JudgeFault>
    ensures read { (text : List ℕ) × (Gives C.gives certificate.old text certificate.new
        × OnOk result (IfSome (C.left certificate.old) (λ whole. text ≡ whole)
        × ((before : List ℕ) → T.has_taken taker.old before [] → T.has_taken taker.new before text))) }
    ensures end { OnOk result (C.is_ended certificate.new) }
    ensures memory { result ≡ Err JudgeFault.NoMemory → IsRefused C.gives C.refuses certificate.old certificate.new
        ⊎ RefusesPiece C.gives T.has_taken T.refuses certificate.old certificate.new taker.old }
    ensures failures { C.failures certificate.new ≡ C.failures certificate.old + (failures_of result).certificate }
    ensures faults { IfErr result (λ fault. (fault ≡ JudgeFault.ReadCertificate) ⊎ (fault ≡ JudgeFault.NoMemory)) }
{
    match read_whole(certificate, taker) {
        Ok(()) => Ok(()),
        Err(ReadError::Device) => Err(JudgeFault::ReadCertificate),
        Err(ReadError::NoMemory) => Err(JudgeFault::NoMemory),
    }
}
