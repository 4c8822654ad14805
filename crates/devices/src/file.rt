//! A source over a reader: what the program reads its files by.

ghost use Rattle.std.specs.Prelude.{◌≡◌, ◌≤◌, ◌^◌, IsTrue};
ghost use Rattle.std.specs.Io.{ReadsAtMost};
ghost use Rattle.std.specs.Io.KnownBytes.{Consumes, ReadConsumes};
ghost use Rattle.devices.specs.Source.{one_more};

use crate::source::{MOST_BYTES, ReadError, Source};
use std::io;
use std::io::{ErrorKind, Read};

/// A reader, with no buffer before it.
#[derive(Drop)]
pub struct FileSource<R> {
    reader: R,
    given: usize,
    is_ended: bool,
    failures: u64,
    // how often memory was refused, up to the greatest number
    refusals: u64,
    ghost few: { given ≤ 2 ^ 40 },
}

impl<R: Read> FileSource<R> {
    /// Nothing is read yet.
    pub fn new(reader: R) -> FileSource<R>
        ensures given { ⟦<FileSource<R> as Source>⟧.given result ≡ 0 }
        ensures going { ¬ ⟦<FileSource<R> as Source>⟧.is_ended result }
        ensures left { ⟦<FileSource<R> as Source>⟧.left result ≡ R.remaining reader }
        ensures failures { ⟦<FileSource<R> as Source>⟧.failures result ≡ 0 }
    {
        FileSource {
            reader,
            given: 0,
            is_ended: false,
            failures: 0,
            refusals: 0,
        }
    }
}

impl<R: Read> Source for FileSource<R> {
    ghost gives = { λ old bytes new. Consumes (R.remaining old.reader) (R.remaining new.reader) bytes };

    ghost given = { λ source. source.given };

    ghost is_ended = { λ source. IsTrue source.is_ended };

    ghost left = { λ source. R.remaining source.reader };

    ghost failures = { λ source. source.failures };

    ghost refuses = { λ old new. new.refusals ≡ one_more old.refusals };

    // A count of failures that can't rise has no memory left.
    fn read_more(&mut self, piece: &mut [u8]) -> Result<usize, ReadError> {
        let refusals = self.refusals.saturating_add(1);
        let Some(failures) = self.failures.checked_add(1) else {
            self.refusals = refusals;
            return Err(ReadError::NoMemory);
        };
        match read_some(&mut self.reader, piece) {
            Ok(count) if count <= MOST_BYTES - self.given => {
                self.given += count;
                self.is_ended = count == 0;
                Ok(count)
            }
            Err(error) if error.kind() == ErrorKind::OutOfMemory => {
                self.refusals = refusals;
                Err(ReadError::NoMemory)
            }
            _ => {
                self.failures = failures;
                Err(ReadError::Device)
            }
        }
    }
}

// One read, made again where a signal interrupts it.
#[tactic(auto, using(crate::proofs::KnownReads::kept_then_read))]
fn read_some<R: Read>(reader: &mut R, piece: &mut [u8]) -> io::Result<usize>
    ensures within { ReadsAtMost result piece.new }
    ensures bytes { ReadConsumes (R.remaining reader.old) (R.remaining reader.new) result piece.new }
{
    for _ in 0..u64::MAX {
        match reader.read(piece) {
            Err(error) if error.kind() == ErrorKind::Interrupted => {}
            answer => return answer,
        }
    }
    Err(io::Error::from(ErrorKind::Interrupted))
}
