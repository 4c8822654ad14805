//! A device that takes bytes.

ghost use Rattle.std.specs.Prelude.{◌≡◌, ℕ, ◌+◌, ◌<◌, ◌≤◌, List, ◌++◌, length, Option, None, IsOk, OnOk, OnErr, IfOk};
ghost use Rattle.std.specs.Io.KnownBytes.{Appends, WriteAppends};
ghost use Rattle.devices.specs.Sink.{HoldsBeginning, taken_of, write_failures};

use std::alloc::AllocError;
use thiserror::Error;

/// The device didn't take a byte.
#[derive(Clone, Copy, Debug, Error)]
#[error("the device failed")]
pub struct WriteError;

/// A device that takes bytes, with no buffer before it.
pub trait Sink {
    /// The bytes that the device has taken so far.
    ghost taken: { Self → List ℕ };

    /// All that the device holds, where it is known.
    ghost contents: { Self → Option (List ℕ) } = { λ _. None };

    /// For how many more bytes it is prepared.
    ghost room: { Self → ℕ };

    /// How often the device has failed.
    ghost failures: { Self → ℕ };

    /// Prepares for so many bytes, so that no write needs memory. The device isn't asked, and nothing is refused where there is
    /// room.
    fn make_room(&mut self, count: usize) -> Result<(), AllocError>
        ensures room { OnOk result (count ≤ room self.new) }
        ensures succeeds { count ≤ room self.old → IsOk result }
        ensures taken { taken self.new ≡ taken self.old }
        ensures contents { contents self.new ≡ contents self.old }
        ensures failures { failures self.new ≡ failures self.old };

    /// Hands the bytes to the device, and returns how many of the first it took. After an `Err` room has to be made again.
    fn write(&mut self, bytes: &[u8]) -> Result<usize, WriteError>
        requires some { 0 < length bytes.now }
        requires room { length bytes.now ≤ room self.old }
        ensures count { IfOk result (λ count. (0 < count) × (count ≤ length bytes.now)) }
        ensures taken { taken self.new ≡ taken self.old ++ taken_of result bytes.now }
        ensures contents { WriteAppends (contents self.old) (contents self.new) result bytes.now }
        ensures room { IfOk result (λ count. room self.old ≤ room self.new + count) }
        ensures failures { failures self.new ≡ failures self.old + write_failures result };
}

/// Writes all bytes. After an `Err` the device has taken a beginning of them.
pub fn write_whole<K: Sink>(bytes: &[u8], sink: &mut K) -> Result<(), WriteError>
    requires { length bytes.now ≤ K.room sink.old }
    ensures ok { OnOk result (K.taken sink.new ≡ K.taken sink.old ++ bytes.now) }
    ensures contents { OnOk result (Appends (K.contents sink.old) (K.contents sink.new) bytes.now) }
    ensures err { OnErr result
        (HoldsBeginning bytes.now (K.taken sink.old) (K.taken sink.new) (K.contents sink.old) (K.contents sink.new)) }
    ensures failures { K.failures sink.new ≡ K.failures sink.old + write_failures result }
{
    let mut at = 0;
    while at < bytes.len() {
        at += sink.write(&bytes[at..])?;
    }
    Ok(())
}
