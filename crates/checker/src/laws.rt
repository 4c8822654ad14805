//! The law of texts in pieces: the contract of a function that judges them so.

ghost use Rattle.std.specs.Prelude.{IfOk, OnErr};
ghost use Rattle.std.specs.List.{flat_map};
ghost use Rattle.rmm_spec.specs.Judgement.{Judges};
ghost use Rattle.checker.specs.Judgement.{TakesMemory};

use crate::session::Session;
use history::HistoryFault;
use rmm_spec::Verdict;
use std::alloc::{AllocError, Global};

/// Two texts that come in pieces are judged as they are whole, however they are cut.
pub fn check_pieces(
    alloc: Global,
    history: &[&[u8]],
    certificate: &[&[u8]],
) -> Result<Verdict, AllocError>
    ensures judged { IfOk result (λ v. Judges v (flat_map (λ piece. piece.now) history.now) (flat_map (λ piece. piece.now) certificate.now)) }
    ensures refused { OnErr result (TakesMemory (flat_map (λ piece. piece.now) history.now)) }
{
    let recorded = match history::read_pieces(alloc, history) {
        Ok(recorded) => recorded,
        Err(HistoryFault::BadLine(line)) => return Ok(Verdict::HistoryFault(line)),
        Err(HistoryFault::NoMemory) => return Err(AllocError),
    };
    let mut session = Session::new(alloc, recorded)?;
    for piece in certificate {
        session.feed(piece)?;
    }
    session.finish()
}
