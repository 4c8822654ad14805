//! Texts that come in pieces, read to tables.

ghost use Rattle.std.specs.Prelude.{◌≡◌, ℕ, List, [], ◌∷◌, ◌++◌, IfOk, IfErr, OnOk};
ghost use Rattle.rmm_spec.specs.Text.{HasNoNewline};
ghost use Rattle.merging.specs.Faults.{IsTableOf, IsFaultOf};
ghost use Rattle.merging.specs.Pieces.{AreRead, HasRead, number_after};

use crate::event_fault::EventsFault;
use crate::line::sizes_from;
use crate::reading::read_event;
use crate::table::EventTable;
use rmi_codec::{UnfinishedLine, next_line};
use std::alloc::Global;

/// Reads a recording from a text that comes in pieces, in one pass, and places each event by its stamp. The order of lines is left to
/// whoever looks at the table. Of a line that isn't whole it keeps at most 256 bytes. After a fault what it has read is left open.
#[derive(Drop)]
pub struct Reader {
    alloc: Global,
    // nothing before the header
    pub(crate) table: Option<EventTable>,
    pub(crate) line: UnfinishedLine,
}

impl Reader {
    /// No byte yet.
    pub fn new(alloc: Global) -> Reader
        ensures { HasRead result [] }
    {
        Reader {
            alloc,
            table: None,
            line: UnfinishedLine::new(),
        }
    }

    /// Reads the next bytes.
    pub fn feed(&mut self, piece: &[u8]) -> Result<(), EventsFault>
        ensures read { OnOk result ((text : List ℕ) → HasRead self.old text → HasRead self.new (text ++ piece.now)) }
        ensures fault { IfErr result (λ fault. (text more : List ℕ) → HasRead self.old text → IsFaultOf (text ++ (piece.now ++ more)) fault) }
    {
        let mut words = [0; 10];
        let mut rest = piece;
        while !rest.is_empty() {
            let Some((last, more)) = next_line(rest) else {
                return self.hold(rest);
            };
            self.end_line(&mut words, last)?;
            rest = more;
        }
        Ok(())
    }

    /// Reads the line that these bytes end.
    fn end_line(&mut self, words: &mut [u64; 10], last: &[u8]) -> Result<(), EventsFault>
        requires { HasNoNewline last.now }
        ensures read { OnOk result ((text : List ℕ) → HasRead self.old text → HasRead self.new (text ++ (last.now ++ 10 ∷ []))) }
        ensures fault { IfErr result (λ fault. (text more : List ℕ) → HasRead self.old text → IsFaultOf (text ++ (last.now ++ 10 ∷ more)) fault) }
    {
        if !self.line.extend(last) {
            return Err(EventsFault::BadLine(number_after(&self.table)));
        }
        read_line(self.alloc, &mut self.table, words, self.line.bytes())?;
        self.line.clear();
        Ok(())
    }

    /// Keeps the bytes behind the last newline.
    fn hold(&mut self, rest: &[u8]) -> Result<(), EventsFault>
        requires { HasNoNewline rest.now }
        ensures read { OnOk result ((text : List ℕ) → HasRead self.old text → HasRead self.new (text ++ rest.now)) }
        ensures fault { IfErr result (λ fault. (text more : List ℕ) → HasRead self.old text → IsFaultOf (text ++ (rest.now ++ more)) fault) }
    {
        if !self.line.extend(rest) {
            return Err(EventsFault::BadLine(number_after(&self.table)));
        }
        Ok(())
    }

    /// The table of the text, which ends here.
    pub fn finish(self) -> Result<EventTable, EventsFault>
        ensures read { IfOk result (λ table. (text : List ℕ) → HasRead self text → IsTableOf text table) }
        ensures fault { IfErr result (λ fault. (text : List ℕ) → HasRead self text → IsFaultOf text fault) }
    {
        let _fact = self.line.bytes();
        let Reader { table, line, .. } = self;
        if !line.is_empty() {
            return Err(EventsFault::BadLine(number_after(&table)));
        }
        match table {
            Some(table) => Ok(table),
            None => Err(EventsFault::BadLine(1)),
        }
    }
}

// The number of the line after those that are read.
fn number_after(table: &Option<EventTable>) -> u64
    ensures { result ≡ number_after table.now }
{
    match table {
        Some(table) => u64::from(table.count()) + 2,
        None => 1,
    }
}

// Reads the line after those that are read, the header where none is.
fn read_line(
    alloc: Global,
    table: &mut Option<EventTable>,
    words: &mut [u64; 10],
    bytes: &[u8],
) -> Result<(), EventsFault>
    requires { HasNoNewline bytes.now }
    ensures read { OnOk result ((lines : List ℕ) → AreRead table.old lines → AreRead table.new (lines ++ (bytes.now ++ 10 ∷ []))) }
    ensures fault { IfErr result (λ fault. (lines more : List ℕ) → AreRead table.old lines → IsFaultOf (lines ++ (bytes.now ++ 10 ∷ more)) fault) }
{
    match table {
        None => begin(alloc, table, bytes),
        Some(table) => read_event(table, words, bytes),
    }
}

// Reads the header.
fn begin(alloc: Global, table: &mut Option<EventTable>, bytes: &[u8]) -> Result<(), EventsFault>
    requires { HasNoNewline bytes.now }
    ensures read { OnOk result (AreRead table.new (bytes.now ++ 10 ∷ [])) }
    ensures fault { IfErr result (λ fault. (more : List ℕ) → IsFaultOf (bytes.now ++ 10 ∷ more) fault) }
{
    let Some(sizes) = sizes_from(bytes) else {
        return Err(EventsFault::BadLine(1));
    };
    *table = Some(EventTable::new(alloc, sizes));
    Ok(())
}
