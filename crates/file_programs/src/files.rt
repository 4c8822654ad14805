//! Whole files that are read or written, and a text that is printed.

ghost use Rattle.std.specs.Prelude.{◌≡◌, ◌⊎◌, IfErr, OnOk};
ghost use Rattle.std.specs.Io.KnownBytes.{Appends};
ghost use Rattle.std.specs.IoError.{error_kind};
ghost use Rattle.file_programs.specs.Ends.{IsPrintFault, print_fault};
ghost use Rattle.file_programs.specs.declared.fault.Fault.TheVariants.{CannotRead, CannotWrite, NoMemory};

use crate::fault::Fault;
use std::io::{ErrorKind, Write};
use std::rt::Files;
use std::{fs, io};

/// What the file at that path holds. After a fault nothing of it is kept.
pub fn bytes_of<R: Files + AllocGlobal>(rt: &R, path: String) -> Result<Vec<u8>, Fault>
    ensures { IfErr result (λ fault. (fault ≡ NoMemory) ⊎ (fault ≡ CannotRead path)) }
{
    match fs::read(rt, path.as_str()) {
        Ok(bytes) => Ok(bytes),
        Err(error) if error.kind() == ErrorKind::OutOfMemory => Err(Fault::NoMemory),
        Err(_) => Err(Fault::CannotRead(path)),
    }
}

/// Writes a file at that path, in place of one that is there. After the fault a beginning of the text may stand there.
pub fn write_file<R: Files>(rt: &R, path: String, text: &[u8]) -> Result<(), Fault>
    ensures { IfErr result (λ fault. fault ≡ CannotWrite path) }
{
    match fs::write(rt, path.as_str(), text) {
        Ok(()) => Ok(()),
        Err(_) => Err(Fault::CannotWrite(path)),
    }
}

/// Writes the text to a writer, such as standard output. After the fault a beginning of it may stand there.
pub fn print<W: Write>(writer: &mut W, text: &[u8]) -> Result<(), Fault>
    ensures written { OnOk result (Appends (W.contents writer.old) (W.contents writer.new) text.now) }
    ensures fault { IfErr result IsPrintFault }
{
    match writer.write_all(text) {
        Ok(()) => Ok(()),
        Err(error) => Err(fault_of(&error)),
    }
}

// A pipe that its reader has closed is no failure of the device.
fn fault_of(error: &io::Error) -> Fault
    ensures cause { result ≡ print_fault (error_kind error.now) }
    ensures either { IsPrintFault result }
{
    match error.kind() {
        ErrorKind::BrokenPipe => Fault::ClosedPipe,
        _ => Fault::CannotPrint,
    }
}
