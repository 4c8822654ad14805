//! A run, made of the recording that a source gives.

ghost use Rattle.std.specs.Prelude.{◌≡◌, ℕ, ◌+◌, List, ◌++◌, Err, IfOk, IfErr};
ghost use Rattle.devices.specs.Source.{GivesWhole, IsRefused};
ghost use Rattle.merging.specs.Faults.{IsTableOf};
ghost use Rattle.merging.specs.Faults as reading;
ghost use Rattle.merging.specs.Source.{IsFaultOfSource, IsTakenAs, IsUnread, source_failures};
ghost use Rattle.merging.specs.Texts.{IsMergedText};

use crate::run::Run;
use crate::texts::{Asked, TextFault, merge_table};
use crate::{EventTable, EventsFault, Reader};
use devices::{ReadError, Source, Taker, read_whole};
use std::alloc::{AllocError, Global};

/// Why no run was made of what a source gives.
#[derive(Clone, Copy)]
pub enum SourceFault {
    /// The events are no run, or memory for them was refused.
    Events(TextFault),
    /// The device failed.
    Device,
    /// Memory was refused to the device.
    NoMemory,
}

// What was read of a source, and what is wrong with it.
#[derive(Drop)]
pub(crate) struct Recording {
    reader: Reader,
    fault: Option<EventsFault>,
}

impl Taker for Recording {
    ghost use Rattle.merging.specs.Source.{IsTakenAs};

    ghost has_taken = { λ recording _ text. IsTakenAs recording.reader recording.fault text };

    ghost refuses = { λ _ _. ⊥ };

    // What comes after a fault is taken, and not looked at.
    fn take(&mut self, piece: &[u8]) -> Result<(), AllocError> {
        let fault = fed(&mut self.reader, self.fault, piece);
        self.fault = fault;
        Ok(())
    }
}

// Feeds a piece, where nothing was wrong before it.
fn fed(reader: &mut Reader, fault: Option<EventsFault>, piece: &[u8]) -> Option<EventsFault>
    ensures { (text : List ℕ) → IsTakenAs reader.old fault text → IsTakenAs reader.new result (text ++ piece.now) }
{
    match fault {
        Some(fault) => Some(fault),
        None => match reader.feed(piece) {
            Ok(()) => None,
            Err(fault) => Some(fault),
        },
    }
}

/// Makes a run of the recording that a source gives. A source that can't be read to its end is left there.
pub fn merge_source<S: Source>(
    alloc: Global,
    source: &mut S,
    asked: Asked,
) -> Result<Run, SourceFault>
    ensures merged { IfOk result (λ run. (text : List ℕ)
        × (GivesWhole S.gives (S.left source.old) source.old source.new text × IsMergedText text asked run)) }
    ensures fault { IfErr result (IsFaultOfSource (GivesWhole S.gives (S.left source.old) source.old source.new) asked) }
    ensures memory { result ≡ Err SourceFault.NoMemory → IsRefused S.gives S.refuses source.old source.new }
    ensures failures { S.failures source.new ≡ S.failures source.old + source_failures result }
{
    let table = match table_from(alloc, source) {
        Ok(table) => table,
        Err(fault) => return Err(fault),
    };
    match merge_table(alloc, table, asked) {
        Ok(run) => Ok(run),
        Err(fault) => Err(SourceFault::Events(fault)),
    }
}

// The table of the recording that a source gives.
fn table_from<S: Source>(alloc: Global, source: &mut S) -> Result<EventTable, SourceFault>
    ensures table { IfOk result (λ table. (text : List ℕ)
        × (GivesWhole S.gives (S.left source.old) source.old source.new text × IsTableOf text table)) }
    ensures fault { IfErr result (IsUnread (GivesWhole S.gives (S.left source.old) source.old source.new)) }
    ensures memory { result ≡ Err SourceFault.NoMemory → IsRefused S.gives S.refuses source.old source.new }
    ensures failures { S.failures source.new ≡ S.failures source.old + source_failures result }
{
    let mut recording = Recording {
        reader: Reader::new(alloc),
        fault: None,
    };
    match read_whole(source, &mut recording) {
        Ok(()) => match table_of(recording) {
            Ok(table) => Ok(table),
            Err(fault) => Err(SourceFault::Events(TextFault::Text(fault))),
        },
        Err(ReadError::Device) => Err(SourceFault::Device),
        Err(ReadError::NoMemory) => Err(SourceFault::NoMemory),
    }
}

// The table of what was taken, which is all.
fn table_of(recording: Recording) -> Result<EventTable, EventsFault>
    ensures table { IfOk result (λ table. (text : List ℕ) → IsTakenAs recording.reader recording.fault text → IsTableOf text table) }
    ensures fault { IfErr result (λ fault. (text : List ℕ) → IsTakenAs recording.reader recording.fault text → reading.IsFaultOf text fault) }
{
    let Recording { reader, fault } = recording;
    match fault {
        None => reader.finish(),
        Some(fault) => Err(fault),
    }
}
