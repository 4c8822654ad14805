//! What takes a text in pieces, and how a source is read to its end by it.

ghost use Rattle.std.specs.Prelude.{◌≡◌, ◌⊎◌, ℕ, ◌+◌, List, [], ◌++◌, Err, OnOk, OnErr, IfSome};
ghost use Rattle.devices.specs.Source.{Gives, IsRefused, read_failures};
ghost use Rattle.devices.specs.Taker.{RefusesPiece};
ghost use Rattle.devices.specs.declared.source.ReadError.TheVariants.{NoMemory};

use crate::source::{MOST_PIECE, ReadError, Source};
use std::alloc::AllocError;

impl From<AllocError> for ReadError {
    ghost from_gives = { λ _ error. error ≡ NoMemory };

    fn from(_error: AllocError) -> ReadError {
        ReadError::NoMemory
    }
}

/// What takes a text in pieces, behind another one that was read before.
pub trait Taker {
    /// Behind the first text it has taken the second.
    ghost has_taken: { Self → List ℕ → List ℕ → Type 0 };

    /// Memory for the piece may be refused to it.
    ghost refuses: { Self → List ℕ → Type 0 };

    /// Takes a piece. Where memory is refused, what it has taken is left open.
    fn take(&mut self, piece: &[u8]) -> Result<(), AllocError>
        ensures taken { OnOk result ((before text : List ℕ) → has_taken self.old before text → has_taken self.new before (text ++ piece.now)) }
        ensures refused { OnErr result (refuses self.old piece.now) };
}

/// Reads a source to its end, and hands each piece on.
pub fn read_whole<S: Source, T: Taker>(source: &mut S, taker: &mut T) -> Result<(), ReadError>
    ensures read { (text : List ℕ) × (Gives S.gives source.old text source.new
        × OnOk result (IfSome (S.left source.old) (λ whole. text ≡ whole)
        × ((before : List ℕ) → T.has_taken taker.old before [] → T.has_taken taker.new before text))) }
    ensures end { OnOk result (S.is_ended source.new) }
    ensures failures { S.failures source.new ≡ S.failures source.old + read_failures result }
    ensures refused { result ≡ Err NoMemory → IsRefused S.gives S.refuses source.old source.new
        ⊎ RefusesPiece S.gives T.has_taken T.refuses source.old source.new taker.old }
{
    let mut piece = [0; MOST_PIECE];
    loop {
        let count = source.read_more(&mut piece)?;
        if count == 0 {
            return Ok(());
        }
        taker.take(&piece[..count])?;
    }
}
