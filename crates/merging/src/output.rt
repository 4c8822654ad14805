//! A writer that is known to have failed.

ghost use Rattle.std.specs.Prelude.{◌≡◌, ◌<◌, ◌≤◌, true, false, length, is_err, IfOk, OnOk, OnErr};
ghost use Rattle.std.specs.Io.KnownBytes.{Appends, Keeps, WriteAppends};
ghost use Rattle.merging.specs.Written.{LacksEnd};

use std::io::{ErrorKind, Write};
use std::marker::Model;

/// The device didn't take a byte.
#[derive(Clone, Copy)]
pub struct Failed;

/// A writer, and whether it has failed.
#[derive(Drop)]
pub struct Output<W: Write> {
    writer: W,
    has_failed: bool,
}

impl<W: Write> Model for Output<W> {
    ghost use Rattle.merging.specs.Written.{Held};

    ghost Value = { Held };

    ghost view = { λ output. record { contents = W.contents output.writer; has_failed = output.has_failed } };
}

impl<W: Write> Output<W> {
    /// It hasn't failed yet.
    pub fn new(writer: W) -> Output<W>
        ensures { result ≡ record { contents = W.contents writer; has_failed = false } }
    {
        Output {
            writer,
            has_failed: false,
        }
    }

    /// Has the writer hand on what it keeps back.
    pub fn flush(&mut self) -> Result<(), Failed>
        requires { self.old.has_failed ≡ false }
        ensures kept { Keeps self.old.contents self.new.contents }
        ensures failed { self.new.has_failed ≡ is_err result }
    {
        match self.writer.flush() {
            Ok(()) => Ok(()),
            Err(_) => {
                self.has_failed = true;
                Err(Failed)
            }
        }
    }

    /// Writes all bytes.
    pub(crate) fn write(&mut self, bytes: &[u8]) -> Result<(), Failed>
        requires { self.old.has_failed ≡ false }
        ensures ok { OnOk result (Appends self.old.contents self.new.contents bytes.now) }
        ensures going { OnOk result (self.new.has_failed ≡ false) }
        ensures err { OnErr result (LacksEnd bytes.now self.old self.new) }
    {
        let mut rest = bytes;
        while !rest.is_empty() {
            let count = self.write_some(rest)?;
            rest = &rest[count..];
        }
        Ok(())
    }

    // One write.
    fn write_some(&mut self, bytes: &[u8]) -> Result<usize, Failed>
        requires { self.old.has_failed ≡ false }
        ensures count { IfOk result (λ count. (0 < count) × (count ≤ length bytes.now)) }
        ensures contents { WriteAppends self.old.contents self.new.contents result bytes.now }
        ensures failed { self.new.has_failed ≡ is_err result }
    {
        match try_write(&mut self.writer, bytes) {
            Ok(count) => Ok(count),
            Err(Failed) => {
                self.has_failed = true;
                Err(Failed)
            }
        }
    }
}

// One write, made again where a signal interrupts it.
fn try_write<W: Write>(writer: &mut W, bytes: &[u8]) -> Result<usize, Failed>
    ensures count { IfOk result (λ count. (0 < count) × (count ≤ length bytes.now)) }
    ensures contents { WriteAppends (W.contents writer.old) (W.contents writer.new) result bytes.now }
{
    for _ in 0..u64::MAX {
        match writer.write(bytes) {
            Ok(0) => return Err(Failed),
            Ok(count) => return Ok(count),
            Err(error) if error.kind() == ErrorKind::Interrupted => {}
            Err(_) => return Err(Failed),
        }
    }
    Err(Failed)
}
