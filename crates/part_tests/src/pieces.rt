//! Texts that come in pieces.

use crate::histories::{called, empty, record, returned};
use certificate::{CertFault, Certificate};
use history::{History, HistoryFault, Reader};
use std::alloc::Global;
use std::test::Fail;

// Each text behind the number of its bad line, or behind 0.
const HISTORIES: &[u8] =
    b"0rmh1 4096 8\nc 7 0 c4000151 fff000\nc 0 0 c4000152 ffffffffffffffff\nr 7 0 ok 0 a\nr 0 0 err 255 10\n\
      |0rmh1 4 1\n|1|1\n|1rmh1 4 1|1rmh1 4 1\r\n|1\0rmh1 4 1\n|2rmh1 4 1\n\n|2rmh1 4 1\n\0|2rmh1 4 1\nc 0 0 c4000151 1000\
      |2rmh1 4 1\n\xff\n|1\xef\xbb\xbfrmh1 4 1\n\
      |2rmh1 4 1\nc 0 0 c4000151 1000\0\n|4rmh1 4 1\nc 0 0 c4000151 1000\nr 0 0 ok\nr 0 1 ok\nc 0 1 c4000151 1000\n";

const CERTIFICATES: &[u8] = b"0k 7 999999\nu 0 10 ok ffffffffffffffff\nk 1 0\nu 3 1 misplaced\n\
      |0|1\n|1k 0 0|1k 8 0\n|1k 0 0\r\n|1\0|2k 0 0\n\0\n|2k 0 0\n\xff\n|2k 0 0\nk 0 00\nk 0 1\n|3k 1 0\nk 1 1\nu 0 0 ok 1|2k 1 0\nu 0 0 ok 1 \n";

fn bad_line_of_history(read: &Result<History, HistoryFault>) -> Result<u64, Fail> {
    match read {
        Ok(_history) => Ok(0),
        Err(HistoryFault::BadLine(line)) => Ok(*line),
        Err(HistoryFault::NoMemory) => Err(Fail::from("no memory")),
    }
}

fn bad_line_of_certificate(read: &Result<Certificate, CertFault>) -> Result<u64, Fail> {
    match read {
        Ok(_certificate) => Ok(0),
        Err(CertFault::BadLine(line)) => Ok(*line),
        Err(CertFault::NoMemory) => Err(Fail::from("no memory")),
    }
}

// The bad line that both readers tell of their text in these pieces.
fn bad_line(alloc: Global, is_history: bool, pieces: &[&[u8]]) -> Result<u64, Fail> {
    if is_history {
        bad_line_of_history(&history::read_pieces(alloc, pieces))
    } else {
        bad_line_of_certificate(&certificate::read_pieces(alloc, pieces))
    }
}

// Whether the text has that bad line where it is cut at each single place, and where each byte is a piece.
fn is_cut_alike(alloc: Global, is_history: bool, expected: u64, text: &[u8]) -> Result<bool, Fail> {
    for place in 0..text.len() {
        let (front, back) = text.split_at(place);
        if bad_line(alloc, is_history, &[front, b"".as_slice(), back])? != expected {
            return Ok(false);
        }
    }
    Ok(
        bad_line(alloc, is_history, &[text])? == expected
            && bad_line_by_bytes(alloc, is_history, text)? == expected,
    )
}

fn bad_line_by_bytes(alloc: Global, is_history: bool, text: &[u8]) -> Result<u64, Fail> {
    let mut bytes = Vec::new(alloc);
    for place in 0..text.len() {
        bytes.push(&text[place..place + 1])?;
    }
    bad_line(alloc, is_history, bytes.as_slice())
}

fn are_cut_alike(alloc: Global, is_history: bool, rows: &[u8]) -> Result<bool, Fail> {
    for row in rows.split(|byte| *byte == b'|') {
        let Some((digit, text)) = row.split_first() else {
            return Err(Fail::from("no number"));
        };
        if !is_cut_alike(alloc, is_history, u64::from(*digit & 15), text)? {
            return Ok(false);
        }
    }
    Ok(true)
}

#[test]
fn reads_a_text_as_it_is_whole_however_it_is_cut(rt: HostRuntime) -> Result<(), Fail> {
    assert!(rt; are_cut_alike(rt.alloc(), true, HISTORIES)?);
    assert!(rt; are_cut_alike(rt.alloc(), false, CERTIFICATES)?);
    Ok(())
}

// Whether a reader tells at this piece that line 2 is bad.
fn is_told(reader: &mut Reader, piece: &[u8]) -> bool {
    matches!(reader.feed(piece), Err(HistoryFault::BadLine(2)))
}

// Whether the reader tells at its end that this line is bad.
fn is_bad_at_end(reader: Reader, line: u64) -> Result<bool, Fail> {
    Ok(bad_line_of_history(&reader.finish())? == line)
}

// Whether a line of so many bytes is told before its end exactly where it is that long, and at its end.
fn is_long_line_told(alloc: Global, line: &[u8], is_long: bool) -> Result<bool, Fail> {
    let mut reader = Reader::new(alloc);
    reader.feed(b"rmh1 4 1\n")?;
    let is_early = reader.feed(line).is_err();
    let is_late = is_told(&mut reader, b"\n");
    let is_bad = is_bad_at_end(reader, 2)?;
    Ok(is_early == is_long && is_late && is_bad)
}

// The same of a certificate's line.
fn is_long_claim_told(line: &[u8], is_long: bool) -> Result<bool, Fail> {
    let mut reader = certificate::Reader::new();
    let (taken, told) = reader.next(b"k 0 0\n")?;
    let is_first = taken == 6 && told.is_some();
    let is_early = reader.next(line).is_err();
    let is_late = matches!(reader.next(b"\n"), Err(CertFault::BadLine(2)));
    let is_last = matches!(reader.finish(), Err(CertFault::BadLine(2)));
    Ok(is_first && is_early == is_long && is_late && is_last)
}

// A line without its newline is bad as soon as more than 256 bytes of it have come.
#[test]
fn tells_a_line_that_is_too_long(rt: HostRuntime) -> Result<(), Fail> {
    assert!(rt; are_long_told(rt.alloc())?);
    Ok(())
}

fn are_long_told(alloc: Global) -> Result<bool, Fail> {
    Ok(
        is_long_told(alloc, 255, false)?
            && is_long_told(alloc, 256, false)?
            && is_long_told(alloc, 257, true)?
            && is_long_told(alloc, 1_000_000, true)?,
    )
}

fn is_long_told(alloc: Global, count: usize, is_long: bool) -> Result<bool, Fail> {
    let line = vec![in alloc; b'c'; count]?;
    Ok(
        is_long_line_told(alloc, line.as_slice(), is_long)?
            && is_long_claim_told(line.as_slice(), is_long)?,
    )
}

fn is_told_again(reader: &mut Reader) -> bool {
    for _time in 0..3 {
        if !is_told(reader, b" x\n") {
            return false;
        }
    }
    is_told(reader, b"")
}

#[test]
fn tells_the_same_fault_from_then_on(rt: HostRuntime) -> Result<(), Fail> {
    let mut reader = Reader::new(rt.alloc());
    reader.feed(b"rmh1 4 1\nc 0 0")?;
    assert!(rt; is_told_again(&mut reader));
    assert!(rt; is_bad_at_end(reader, 2)?);
    Ok(())
}

fn record_call(history: &mut History, number: u32) -> Result<(), Fail> {
    record(history, called(0, number, "c4000151 1000")?)?;
    record(history, returned(0, number, "ok")?)
}

fn record_calls(history: &mut History) -> Result<(), Fail> {
    for number in 0..249 {
        record_call(history, number)?;
    }
    Ok(())
}

// A header and 249 calls that have returned.
fn many_lines(alloc: Global) -> Result<Vec<u8>, Fail> {
    let mut history = empty(alloc, 4, 1)?;
    record_calls(&mut history)?;
    let mut text = Vec::new(alloc);
    text_writers::write_history(&history, &mut text)?;
    Ok(text)
}

// Whether the reader tells at this piece that line 500 is bad.
fn is_late_told(reader: &mut Reader, piece: &[u8]) -> bool {
    matches!(reader.feed(piece), Err(HistoryFault::BadLine(500)))
}

fn is_late_told_twice(alloc: Global, reader: &mut Reader) -> Result<bool, Fail> {
    reader.feed(many_lines(alloc)?.as_slice())?;
    Ok(
        is_late_told(reader, b"c 0 250 c4000151 1000\n")
            && is_late_told(reader, b"c 0 249 c4000151 1000\n"),
    )
}

// Of a longer text the lines up to the bad one are enough.
#[test]
fn tells_a_bad_line_before_the_rest(rt: HostRuntime) -> Result<(), Fail> {
    let mut reader = Reader::new(rt.alloc());
    let is_late = is_late_told_twice(rt.alloc(), &mut reader)?;
    let is_bad = is_bad_at_end(reader, 500)?;
    assert!(rt; is_late && is_bad);
    Ok(())
}
