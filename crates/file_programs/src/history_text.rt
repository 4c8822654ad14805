//! A history's text, which is read only as far as its first bad line.

ghost use Rattle.std.specs.Prelude.{◌≡◌, ◌⊎◌, ◌+◌, ℕ, List, Err, IfOk};
ghost use Rattle.file_programs.specs.HistoryRead.{IsHistoryRead};
ghost use Rattle.devices.specs.Source.{Gives, GivesSome, IsRefused, read_failures};
ghost use Rattle.devices.specs.declared.source.ReadError.TheVariants.{NoMemory};

use crate::keeping::Keeping;
use devices::{ReadError, Source, read_until};
use history::{History, HistoryFault};
use std::alloc::Global;

/// What was read of a history.
#[derive(Drop)]
pub struct HistoryRead {
    /// The text, or where a line is bad whatever follows, a beginning that ends behind that line or within a long one.
    pub bytes: Vec<u8>,
    /// Whether it was read to its end.
    pub is_whole: bool,
    /// What it stands for, or its bad line, counted from 1.
    pub history: Result<History, u64>,
}

/// Reads a source to its end, or where a line is bad not far behind that line. Memory is refused to the source, or for what it gave.
pub(crate) fn read_history<S: Source>(
    alloc: Global,
    source: &mut S,
) -> Result<HistoryRead, ReadError>
    ensures read { (text : List ℕ) × Gives S.gives source.old text source.new }
    ensures told { IfOk result (IsHistoryRead S.gives S.is_ended (S.left source.old) source.old source.new) }
    ensures failures { S.failures source.new ≡ S.failures source.old + read_failures result }
    ensures refused { result ≡ Err NoMemory → IsRefused S.gives S.refuses source.old source.new ⊎ GivesSome S.gives source.old source.new }
{
    let mut keeping = Keeping::new(alloc);
    let is_whole = read_until(source, &mut keeping)?;
    let Keeping { reader, bytes, .. } = keeping;
    match reader.finish() {
        Ok(history) => Ok(HistoryRead {
            bytes,
            is_whole,
            history: Ok(history),
        }),
        Err(HistoryFault::BadLine(line)) => Ok(HistoryRead {
            bytes,
            is_whole,
            history: Err(line),
        }),
        Err(HistoryFault::NoMemory) => unreachable!(),
    }
}
