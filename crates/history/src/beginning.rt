//! The beginning of a history's text.

ghost use Rattle.std.specs.Prelude.{◌≡◌, ◌≢◌, ◌<◌, ℕ, List, [], ◌∷◌, ◌++◌, ◌≤◌, length, take, Err, IfOk, IfErr, OnOk, IfSome, IfNone};
ghost use Rattle.rmi_codec.specs.Newlines.{newlines};
ghost use Rattle.rmm_spec.specs.HistoryText.{InHistories, IsHistoryText};
ghost use Rattle.rmm_spec.specs.Text.{HasNoNewline, IsBadLine};
ghost use Rattle.history.specs.Faults.{IsFaultOf, EndsWithEvent, EventEndsIn};
ghost use Rattle.history.specs.declared.fault.HistoryFault.TheVariants.{NoMemory};
ghost use Rattle.history.specs.Pieces.{IsReadWell, next_number};

use crate::fault::HistoryFault;
use crate::history::History;
use crate::reading::{read_line, record_front};
use rmi_codec::{MOST_BYTES, UnfinishedLine, next_line};
use std::alloc::Global;
use std::marker::Model;

/// The first bytes of a text: whole lines, none of them bad, and the beginning of the next.
#[derive(Drop)]
pub(crate) struct Beginning {
    alloc: Global,
    // nothing before the header
    history: Option<History>,
    line: UnfinishedLine,
    // the buffer for the words of a line
    words: [u64; 10],
}

impl Model for Beginning {
    ghost use Rattle.std.specs.Prelude.{ℕ, List, ◌++◌};
    ghost use Rattle.history.specs.Pieces.{lines_read};

    ghost Value = { List ℕ };

    ghost view = { λ beginning. lines_read beginning.history ++ beginning.line };
}

impl Beginning {
    /// No byte yet.
    pub(crate) fn new(alloc: Global) -> Beginning
        ensures { result ≡ [] }
    {
        Beginning {
            alloc,
            history: None,
            line: UnfinishedLine::new(),
            words: [0; 10],
        }
    }

    /// Reads what comes next. A line that lies whole in the piece is read where it lies.
    pub(crate) fn take(&mut self, piece: &[u8]) -> Result<(), HistoryFault>
        ensures taken { OnOk result (self.new ≡ self.old ++ piece.now) }
        ensures fault { IfErr result (λ fault. (more : List ℕ) → IsFaultOf (self.old ++ (piece.now ++ more)) fault) }
        ensures memory { result ≡ Err NoMemory → EventEndsIn self.old piece.now }
    {
        let mut rest = piece;
        while !rest.is_empty() {
            if let Some(count) = self.take_front(rest) {
                rest = rest.split_at(count).1;
                continue;
            }
            let Some((last, more)) = next_line(rest) else {
                return self.hold(rest);
            };
            self.end_line(last)?;
            rest = more;
        }
        Ok(())
    }

    /// Reads the line at a text's front, where it lies there whole, is no header and has the form of nearly all lines, and tells
    /// how long it is. Else nothing changes.
    #[inline(always)]
    fn take_front(&mut self, text: &[u8]) -> Option<usize>
        ensures read { IfSome result (λ count. self.new ≡ self.old ++ take count text.now) }
        ensures some { IfSome result (λ count. 0 < count) }
        ensures inside { IfSome result (λ count. count ≤ length text.now) }
        ensures none { IfNone result (self.new ≡ self.old) }
    {
        if !self.line.is_empty() {
            return None;
        }
        let Some(history) = &mut self.history else {
            return None;
        };
        record_front(history, &mut self.words, text)
    }

    /// Reads the line that these bytes end.
    #[inline(never)]
    fn end_line(&mut self, last: &[u8]) -> Result<(), HistoryFault>
        requires { HasNoNewline last.now }
        ensures read { OnOk result (self.new ≡ self.old ++ (last.now ++ 10 ∷ [])) }
        ensures fault { IfErr result (λ fault. (more : List ℕ) → IsFaultOf (self.old ++ (last.now ++ 10 ∷ more)) fault) }
        ensures memory { result ≡ Err NoMemory → EndsWithEvent (self.old ++ (last.now ++ 10 ∷ [])) }
    {
        let Some(line) = whole_line(&mut self.line, last) else {
            return Err(HistoryFault::BadLine(next_number(&self.history)));
        };
        read_line(self.alloc, &mut self.history, &mut self.words, line)?;
        self.line.clear();
        Ok(())
    }

    /// Keeps the bytes behind the last newline.
    fn hold(&mut self, rest: &[u8]) -> Result<(), HistoryFault>
        requires { HasNoNewline rest.now }
        ensures held { OnOk result (self.new ≡ self.old ++ rest.now) }
        ensures fault { IfErr result (λ fault. (more : List ℕ) → IsFaultOf (self.old ++ (rest.now ++ more)) fault) }
        ensures no_memory { result ≢ Err NoMemory }
    {
        if !self.line.extend(rest) {
            return Err(HistoryFault::BadLine(next_number(&self.history)));
        }
        Ok(())
    }

    /// The law that no whole line is bad.
    pub(crate) fn well_begun(&self)
        ensures { (line : ℕ) → IsBadLine InHistories self.now line → newlines self.now < line }
    {
        let _fact = self.line.bytes();
        let _fact = next_number(&self.history);
    }

    /// The history of the text, where it ends here.
    pub(crate) fn finish(self) -> Result<History, HistoryFault>
        ensures found { IfOk result (λ history. IsHistoryText self history.recorded) }
        ensures fault { IfErr result (IsFaultOf self) }
        ensures no_memory { result ≢ Err NoMemory }
    {
        let _fact = self.line.bytes();
        let Beginning { history, line, .. } = self;
        let Some(history) = history else {
            return Err(HistoryFault::BadLine(1));
        };
        let _fact = history.well_formed();
        if !line.is_empty() {
            return Err(HistoryFault::BadLine(history.len() as u64 + 2));
        }
        Ok(history)
    }
}

/// The line that these bytes end, where it isn't too long: they themselves, where none of it came in an earlier piece.
#[inline(always)]
fn whole_line<'l>(begun: &'l mut UnfinishedLine, last: &'l [u8]) -> Option<&'l [u8]>
    requires { HasNoNewline last.now }
    ensures line { IfSome result (λ line. line.now ≡ begun.old ++ last.now) }
    ensures no_newline { IfSome result (λ line. HasNoNewline line.now) }
    ensures too_long { IfNone result ((MOST_BYTES < length (begun.old ++ last.now)) × HasNoNewline (begun.old ++ last.now)) }
{
    if begun.is_empty() {
        return Some(last);
    }
    held_line(begun, last)
}

/// The line that was begun in an earlier piece and that these bytes end, where it isn't too long.
#[inline(never)]
fn held_line<'l>(begun: &'l mut UnfinishedLine, last: &[u8]) -> Option<&'l [u8]>
    requires { HasNoNewline last.now }
    ensures line { IfSome result (λ line. line.now ≡ begun.old ++ last.now) }
    ensures no_newline { IfSome result (λ line. HasNoNewline line.now) }
    ensures too_long { IfNone result ((MOST_BYTES < length (begun.old ++ last.now)) × HasNoNewline (begun.old ++ last.now)) }
{
    if !begun.extend(last) {
        return None;
    }
    Some(begun.bytes())
}

/// The number of the line behind those that are read.
fn next_number(history: &Option<History>) -> u64
    ensures number { result ≡ next_number history.now }
    ensures well_formed { IsReadWell history.now }
{
    match history {
        None => 1,
        Some(history) => {
            let _fact = history.well_formed();
            history.len() as u64 + 2
        }
    }
}
