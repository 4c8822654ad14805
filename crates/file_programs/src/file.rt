//! A history's file.

ghost use Rattle.std.specs.Prelude.{◌≡◌, ◌⊎◌, IfErr, IfOk, string_bytes};
ghost use Rattle.file_programs.specs.declared.fault.Fault.TheVariants.{CannotRead, NoMemory};
ghost use Rattle.file_programs.specs.Names.{judged_name};

use crate::Fault;
use crate::history_text::{HistoryRead, read_history};
use devices::{FileSource, ReadError};
use std::alloc::{AllocError, Global};
use std::fs;
use std::rt::Files;

/// Reads the history in the file at that path.
pub fn history_at<R: Files + AllocGlobal>(rt: &R, path: String) -> Result<HistoryRead, Fault>
    ensures { IfErr result (λ fault. (fault ≡ NoMemory) ⊎ (fault ≡ CannotRead path)) }
{
    let Ok(file) = fs::open(rt, path.as_str()) else {
        return Err(Fault::CannotRead(path));
    };
    match read_history(rt.alloc(), &mut FileSource::new(file)) {
        Ok(read) => Ok(read),
        Err(ReadError::Device) => Err(Fault::CannotRead(path)),
        Err(ReadError::NoMemory) => Err(Fault::NoMemory),
    }
}

/// What a report calls the bytes that were read.
pub fn judged_name(alloc: Global, read: &HistoryRead) -> Result<String, AllocError>
    ensures { IfOk result (λ name. string_bytes name ≡ judged_name read.now) }
{
    if read.is_whole {
        return String::from_str(alloc, "history");
    }
    let count = read.bytes.len();
    format!(in alloc; "first {count} bytes of the history")
}
