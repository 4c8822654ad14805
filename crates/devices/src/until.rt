//! How a source is read as long as its text is wanted.

ghost use Rattle.std.specs.Prelude.{◌≡◌, ◌⊎◌, ℕ, ◌+◌, List, [], Err, Ok, IsTrue, OnOk, IfSome, true, false};
ghost use Rattle.devices.specs.Source.{Gives, GivesSome, IsRefused, read_failures};
ghost use Rattle.devices.specs.declared.source.ReadError.TheVariants.{NoMemory};

use crate::source::{MOST_PIECE, ReadError, Source};
use crate::taker::Taker;

/// What takes a text in pieces as long as it wants more.
pub trait Sated: Taker {
    /// It has all that it wants.
    ghost is_sated: { Self → Type 0 };

    fn is_sated(&self) -> bool
        ensures { IsTrue result → is_sated self.now };
}

/// Reads a source, and hands each piece on: to its end, where the answer is true, or until the taker wants no more.
#[tactic(auto, using(crate::proofs::ReadSoFar::refused_or_given))]
pub fn read_until<S: Source, T: Sated>(source: &mut S, taker: &mut T) -> Result<bool, ReadError>
    ensures read { (text : List ℕ) × (Gives S.gives source.old text source.new
        × (result ≡ Ok true → IfSome (S.left source.old) (λ whole. text ≡ whole))
        × OnOk result ((before : List ℕ) → T.has_taken taker.old before [] → T.has_taken taker.new before text)) }
    ensures end { result ≡ Ok true → S.is_ended source.new }
    ensures sated { result ≡ Ok false → T.is_sated taker.new }
    ensures failures { S.failures source.new ≡ S.failures source.old + read_failures result }
    ensures refused { result ≡ Err NoMemory → IsRefused S.gives S.refuses source.old source.new ⊎ GivesSome S.gives source.old source.new }
{
    let mut piece = [0; MOST_PIECE];
    loop {
        let count = source.read_more(&mut piece)?;
        if count == 0 {
            return Ok(true);
        }
        taker.take(&piece[..count])?;
        if taker.is_sated() {
            return Ok(false);
        }
    }
}
