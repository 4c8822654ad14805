//! A sink over a writer for one line, which takes no memory.

ghost use Rattle.std.specs.Prelude.{◌≡◌, ◌^◌, ◌-◌, nat_lt, if◌then◌else◌, [], length};
ghost use Rattle.devices.specs.Sink.{prepared_room};

use crate::output::write_some;
use crate::sink::{Sink, WriteError};
use arrayvec::ArrayVec;
use std::alloc::AllocError;
use std::io::Write;

/// How many bytes a `LineSink` takes at most.
pub const MOST_LINE: usize = 128;

/// A writer with no buffer, and every byte that it took, of which there are few.
#[derive(Drop)]
pub struct LineSink<W> {
    writer: W,
    taken: ArrayVec<u8, MOST_LINE>,
    failures: u64,
}

impl<W: Write> LineSink<W> {
    /// Nothing is written yet.
    pub fn new(writer: W) -> LineSink<W>
        ensures taken { ⟦<LineSink<W> as Sink>⟧.taken result ≡ [] }
        ensures contents { ⟦<LineSink<W> as Sink>⟧.contents result ≡ W.contents writer }
        ensures room { ⟦<LineSink<W> as Sink>⟧.room result ≡ 128 }
        ensures failures { ⟦<LineSink<W> as Sink>⟧.failures result ≡ 0 }
    {
        LineSink {
            writer,
            taken: ArrayVec::new(),
            failures: 0,
        }
    }
}

impl<W: Write> Sink for LineSink<W> {
    ghost taken = { λ sink. sink.taken.items };

    ghost contents = { λ sink. W.contents sink.writer };

    ghost room = { λ sink. prepared_room (length sink.taken.items) 128 sink.failures };

    ghost failures = { λ sink. sink.failures };

    // There is as much room as there ever is. Where one more failure can't be counted, there is none.
    fn make_room(&mut self, count: usize) -> Result<(), AllocError> {
        if count > 0 && self.failures == u64::MAX {
            return Err(AllocError);
        }
        if count > self.taken.remaining_capacity() {
            return Err(AllocError);
        }
        Ok(())
    }

    fn write(&mut self, bytes: &[u8]) -> Result<usize, WriteError> {
        match write_some(&mut self.writer, bytes) {
            Ok(count) => {
                // There is room, so the bytes fit.
                let _ = self.taken.try_extend_from_slice(&bytes[..count]);
                Ok(count)
            }
            Err(error) => {
                self.failures += 1;
                Err(error)
            }
        }
    }
}
