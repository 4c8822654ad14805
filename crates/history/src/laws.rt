//! The law of the reader of pieces: it is the contract of a function that calls it.

ghost use Rattle.std.specs.Prelude.{IfOk, IfErr};
ghost use Rattle.std.specs.List.{flat_map};
ghost use Rattle.rmm_spec.specs.HistoryText.{IsHistoryText};
ghost use Rattle.history.specs.Faults.{IsFaultOf};

use crate::fault::HistoryFault;
use crate::history::History;
use crate::reader::Reader;
use std::alloc::Global;

/// A text that comes in pieces is read as it is whole, however it is cut.
pub fn read_pieces(alloc: Global, pieces: &[&[u8]]) -> Result<History, HistoryFault>
    ensures found { IfOk result (λ history. IsHistoryText (flat_map (λ piece. piece.now) pieces.now) history.recorded) }
    ensures fault { IfErr result (IsFaultOf (flat_map (λ piece. piece.now) pieces.now)) }
{
    let mut reader = Reader::new(alloc);
    for piece in pieces {
        reader.feed(piece)?;
    }
    reader.finish()
}
