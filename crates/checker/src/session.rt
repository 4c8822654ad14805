//! A certificate, judged as its text comes.

ghost use Rattle.std.specs.Prelude.{◌≡◌, ◌↔◌, ◌≤◌, ◌+◌, ℕ, List, [], ◌++◌, length, false, IsTrue, IsErr, IfOk, OnOk, OnErr};
ghost use Rattle.rmi_codec.specs.Newlines.{newlines};
ghost use Rattle.rmm_spec.specs.HistoryText.{IsHistoryText};
ghost use Rattle.rmm_spec.specs.Judgement.{Judges};

use crate::failure::{Failure, judge_line, judge_told, verdict_on};
use crate::replay::Replay;
use certificate::{CertFault, LineRef, Reader};
use history::History;
use rmm_spec::Verdict;
use std::alloc::{AllocError, Global};

/// A judgement of a certificate that comes in pieces, against a history. It keeps no line: each is replayed as it ends, up to
/// the first that fails, and read on, since a bad line is told before any judgement.
#[derive(Drop)]
pub struct Session {
    history: History,
    certificate: Reader,
    replay: Replay,
    failed: Option<Failure>,
    // memory was refused
    refused: bool,
    ghost counted: { length replay.named.items ≡ length history.recorded.events },
}

impl Session {
    ghost use Rattle.checker.specs.Offers.{AreOffersFor};
    ghost use Rattle.checker.specs.Session.{HasJudged, IsRefusedIn, offers_of};

    /// No byte yet.
    pub fn new(alloc: Global, history: History) -> Result<Session, AllocError>
        ensures judged { IfOk result (λ session. HasJudged session []) }
        ensures history { IfOk result (λ session. session.history.recorded ≡ history.recorded) }
        ensures going { IfOk result (λ session. session.refused ≡ false) }
        ensures offers { IfOk result (λ session. offers_of session ≡ 0) }
    {
        let replay = Replay::new(alloc, &history)?;
        Ok(Session {
            history,
            certificate: Reader::new(),
            replay,
            failed: None,
            refused: false,
        })
    }

    /// Judges the lines that end in the piece. A session that was refused memory has failed, and is refused it from then on.
    /// Memory is first refused for a line behind lines that pass, whose command makes a table and is given the line's reply by
    /// the machine.
    pub fn feed(&mut self, piece: &[u8]) -> Result<(), AllocError>
        ensures judged { OnOk result ((text : List ℕ) → HasJudged self.old text → HasJudged self.new (text ++ piece.now)) }
        ensures history { self.new.history.recorded ≡ self.old.history.recorded }
        ensures answered { IsErr result ↔ IsTrue self.new.refused }
        ensures failed { IsTrue self.old.refused → IsTrue self.new.refused }
        ensures refused { OnErr result (self.old.refused ≡ false → IsRefusedIn self.old piece.now) }
        ensures offers { offers_of self.new ≤ offers_of self.old + newlines piece.now }
    {
        if self.refused {
            return Err(AllocError);
        }
        let mut rest = piece;
        while !rest.is_empty() {
            if let Some((kept, cpu, number)) = self.certificate.next_kept(rest) {
                let place = self.certificate.count() as u64;
                let Ok(()) = judge_line(
                    &mut self.replay,
                    &mut self.failed,
                    &self.history,
                    LineRef::Keep { cpu, number },
                    place,
                ) else {
                    self.refused = true;
                    return Err(AllocError);
                };
                rest = rest.split_at(kept).1;
                continue;
            }
            let Ok((count, told)) = self.certificate.next(rest) else {
                return Ok(());
            };
            let step = self.certificate.count() as u64;
            let Ok(()) = judge_told(
                &mut self.replay,
                &mut self.failed,
                &self.history,
                told,
                step,
            ) else {
                self.refused = true;
                return Err(AllocError);
            };
            rest = rest.split_at(count).1;
        }
        Ok(())
    }

    /// How many offers were made to the machine: one for each line up to the first that fails, and for that line only where
    /// the machine refuses its reply.
    pub fn offers(&self) -> u64
        ensures { result ≡ offers_of self.now }
    {
        self.replay.machine.offers()
    }

    /// The verdict on the text, which ends here.
    pub fn finish(self) -> Result<Verdict, AllocError>
        ensures judged { IfOk result (λ verdict. (history text : List ℕ) → IsHistoryText history self.history.recorded → HasJudged self text
            → Judges verdict history text) }
        ensures answered { IsErr result ↔ IsTrue self.refused }
        ensures offers { IfOk result (λ verdict. (text : List ℕ) → HasJudged self text → AreOffersFor verdict (offers_of self)) }
    {
        let Session {
            history,
            certificate,
            replay,
            failed,
            refused,
            ..
        } = self;
        if refused {
            return Err(AllocError);
        }
        let lines = certificate.count();
        match certificate.finish() {
            Ok(()) => Ok(verdict_on(&replay, failed, &history, lines)),
            Err(CertFault::BadLine(line)) => Ok(Verdict::CertificateFault(line)),
            Err(CertFault::NoMemory) => unreachable!(),
        }
    }
}
