//! What takes a history's text and keeps it, up to its bad line.

use devices::{Sated, Taker};
use history::{HistoryFault, Reader};
use std::alloc::{AllocError, Global};

/// After so many pieces that don't end a bad line it counts as ended.
const MOST_MORE: u64 = 16;

/// A history's reader, the bytes that it was given, and its bad line.
#[derive(Drop)]
pub(crate) struct Keeping {
    pub(crate) reader: Reader,
    pub(crate) bytes: Vec<u8>,
    bad: Option<u64>,
    // how many lines end in the bytes
    lines: u64,
    // how many pieces came since the bad line is known
    more: u64,
}

impl Keeping {
    ghost use Rattle.std.specs.Prelude.{◌≡◌, [], Ok, None};

    /// No byte yet.
    pub(crate) fn new(alloc: Global) -> Keeping
        ensures reader { result.reader ≡ Ok [] }
        ensures bytes { result.bytes.items ≡ [] }
        ensures bad { result.bad ≡ None }
    {
        Keeping {
            reader: Reader::new(alloc),
            bytes: Vec::new(alloc),
            bad: None,
            lines: 0,
            more: 0,
        }
    }
}

impl Taker for Keeping {
    ghost use Rattle.std.specs.Prelude.{◌⊎◌, ◌+◌, ◌<◌, length, vec_capacity, vec_len};
    ghost use Rattle.check_command.specs.Taken.{RefusesEvent};
    ghost use Rattle.file_programs.specs.Kept.{HasKept};

    ghost has_taken = { λ keeping _ text. HasKept keeping.reader keeping.bytes.items keeping.bad text };

    ghost refuses = { λ keeping piece. RefusesEvent keeping.reader piece ⊎ (vec_capacity keeping.bytes < vec_len keeping.bytes + length piece) };

    fn take(&mut self, piece: &[u8]) -> Result<(), AllocError> {
        self.bytes.extend_from_slice(piece)?;
        let ended = piece.iter().filter(|byte| **byte == b'\n').count();
        self.lines = self.lines.saturating_add(ended as u64);
        match self.reader.feed(piece) {
            Err(HistoryFault::NoMemory) => Err(AllocError),
            Err(HistoryFault::BadLine(line)) => {
                self.bad = Some(line);
                self.more = self.more.saturating_add(1);
                Ok(())
            }
            Ok(()) => {
                self.bad = None;
                Ok(())
            }
        }
    }
}

impl Sated for Keeping {
    ghost use Rattle.std.specs.Prelude.{IsSome};

    ghost is_sated = { λ keeping. IsSome keeping.bad };

    // The bad line is known, and it has ended or is long.
    fn is_sated(&self) -> bool {
        match self.bad {
            Some(line) => self.lines >= line || self.more > MOST_MORE,
            None => false,
        }
    }
}
