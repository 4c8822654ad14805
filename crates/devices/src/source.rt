//! A device that gives a text.

ghost use Rattle.std.specs.Prelude.{◌≡◌, ℕ, ◌+◌, ◌<◌, ◌≤◌, ◌^◌, List, Option, None, Ok, Err, length, take, IfOk};
ghost use Rattle.std.specs.Io.KnownBytes.{Consumes, IsAtEnd};
ghost use Rattle.devices.specs.Source.{read_failures};
ghost use Rattle.devices.specs.declared.source.ReadError.TheVariants as ReadError;

use thiserror::Error;

/// Why no more bytes came.
#[derive(Clone, Copy, Debug, Error)]
pub enum ReadError {
    #[error("the device failed")]
    Device,
    #[error("no memory")]
    NoMemory,
}

/// The length that no source passes.
pub(crate) const MOST_BYTES: usize = 1 << 40;

/// The most bytes that are asked for at once.
pub(crate) const MOST_PIECE: usize = 4096;

/// A device that gives one text of up to 2^40 bytes in pieces, from its beginning on, and keeps none of it.
pub trait Source {
    /// It goes from one state to another and gives these bytes.
    ghost gives: { Self → List ℕ → Self → Type 0 };

    /// How many bytes it has given so far.
    ghost given: { Self → ℕ };

    /// It has reported that nothing follows what it gave.
    ghost is_ended: { Self → Type 0 };

    /// What it has yet to give, where that is known.
    ghost left: { Self → Option (List ℕ) } = { λ _. None };

    /// How often the device has failed.
    ghost failures: { Self → ℕ };

    /// It goes from one state to another and is refused memory.
    ghost refuses: { Self → Self → Type 0 };

    /// Asks the device for the next bytes, and returns how many of the buffer's first they are. `Ok(0)` reports the end.
    /// After an `Err` the device may have given bytes that are lost.
    fn read_more(&mut self, piece: &mut [u8]) -> Result<usize, ReadError>
        requires some { 0 < length piece.old }
        requires few { length piece.old ≤ 4096 }
        ensures gives { (bytes : List ℕ) × (gives self.old bytes self.new × IfOk result (λ count. bytes ≡ take count piece.new)) }
        ensures within { IfOk result (λ count. count ≤ length piece.new) }
        ensures given { IfOk result (λ count. given self.new ≡ given self.old + count) }
        ensures most { IfOk result (λ count. given self.new ≤ 2 ^ 40) }
        ensures end { result ≡ Ok 0 → is_ended self.new }
        ensures going { IfOk result (λ count. 0 < count → ¬ is_ended self.new) }
        ensures left { IfOk result (λ count. Consumes (left self.old) (left self.new) (take count piece.new)) }
        ensures whole { result ≡ Ok 0 → IsAtEnd (left self.new) }
        ensures failures { failures self.new ≡ failures self.old + read_failures result }
        ensures refused { result ≡ Err ReadError.NoMemory → refuses self.old self.new };
}
