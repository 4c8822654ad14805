//! A sink over a writer: what the program writes its line by.

ghost use Rattle.std.specs.Prelude.{◌≡◌, ◌<◌, ◌≤◌, [], length, IfOk};
ghost use Rattle.std.specs.Io.KnownBytes.{WriteAppends};
ghost use Rattle.devices.specs.Sink.{prepared_room};

use crate::sink::{Sink, WriteError};
use std::alloc::{AllocError, Global};
use std::io::{ErrorKind, Write};

/// A writer with no buffer, and every byte that it took.
#[derive(Drop)]
pub struct OutputSink<W> {
    writer: W,
    taken: Vec<u8>,
    failures: u64,
}

impl<W: Write> OutputSink<W> {
    /// Nothing is written yet.
    pub fn new(alloc: Global, writer: W) -> OutputSink<W>
        ensures taken { ⟦<OutputSink<W> as Sink>⟧.taken result ≡ [] }
        ensures contents { ⟦<OutputSink<W> as Sink>⟧.contents result ≡ W.contents writer }
        ensures failures { ⟦<OutputSink<W> as Sink>⟧.failures result ≡ 0 }
    {
        OutputSink {
            writer,
            taken: Vec::new(alloc),
            failures: 0,
        }
    }
}

impl<W: Write> Sink for OutputSink<W> {
    ghost taken = { λ sink. sink.taken.items };

    ghost contents = { λ sink. W.contents sink.writer };

    ghost room = { λ sink. prepared_room sink.taken.len sink.taken.cap sink.failures };

    ghost failures = { λ sink. sink.failures };

    // Where one more failure can't be counted, there is no room.
    fn make_room(&mut self, count: usize) -> Result<(), AllocError> {
        if count > 0 && self.failures == u64::MAX {
            return Err(AllocError);
        }
        self.taken.reserve(count)
    }

    fn write(&mut self, bytes: &[u8]) -> Result<usize, WriteError> {
        match write_some(&mut self.writer, bytes) {
            Ok(count) => {
                // There is room, so no memory is asked for.
                let _ = self.taken.extend_from_slice(&bytes[..count]);
                Ok(count)
            }
            Err(error) => {
                self.failures += 1;
                Err(error)
            }
        }
    }
}

// One write, made again where a signal interrupts it.
pub(crate) fn write_some<W: Write>(writer: &mut W, bytes: &[u8]) -> Result<usize, WriteError>
    ensures count { IfOk result (λ count. (0 < count) × (count ≤ length bytes.now)) }
    ensures device { WriteAppends (W.contents writer.old) (W.contents writer.new) result bytes.now }
{
    for _ in 0..u64::MAX {
        match writer.write(bytes) {
            Ok(0) => return Err(WriteError),
            Ok(count) => return Ok(count),
            Err(error) if error.kind() == ErrorKind::Interrupted => {}
            Err(_) => return Err(WriteError),
        }
    }
    Err(WriteError)
}
