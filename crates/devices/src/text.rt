//! A source's whole text, which is kept.

ghost use Rattle.std.specs.Prelude.{◌≡◌, ◌⊎◌, ℕ, ◌+◌, List, Err, OnOk, IfOk};
ghost use Rattle.devices.specs.Source.{Gives, GivesSome, GivesWhole, IsRefused, read_failures};
ghost use Rattle.devices.specs.declared.source.ReadError.TheVariants.{NoMemory};

use crate::source::{ReadError, Source};
use crate::taker::{Taker, read_whole};
use std::alloc::{AllocError, Global};

/// Keeps all that it takes.
impl Taker for Vec<u8> {
    ghost use Rattle.std.specs.Prelude.{◌≡◌, ◌+◌, ◌<◌, length, vec_capacity, vec_len};

    ghost has_taken = { λ kept _ text. kept.items ≡ text };

    ghost refuses = { λ kept piece. vec_capacity kept < vec_len kept + length piece };

    fn take(&mut self, piece: &[u8]) -> Result<(), AllocError> {
        self.extend_from_slice(piece)
    }
}

/// Reads a source to its end, and returns its text. Memory is refused to the source, or for what it gave.
#[tactic(auto, using(crate::proofs::ReadSoFar::refused_or_given))]
pub fn read_text<S: Source>(alloc: Global, source: &mut S) -> Result<Vec<u8>, ReadError>
    ensures read { (text : List ℕ) × Gives S.gives source.old text source.new }
    ensures whole { IfOk result (λ text. GivesWhole S.gives (S.left source.old) source.old source.new text.items) }
    ensures end { OnOk result (S.is_ended source.new) }
    ensures refused { result ≡ Err NoMemory → IsRefused S.gives S.refuses source.old source.new ⊎ GivesSome S.gives source.old source.new }
    ensures failures { S.failures source.new ≡ S.failures source.old + read_failures result }
{
    let mut text = Vec::new(alloc);
    read_whole(source, &mut text)?;
    Ok(text)
}
