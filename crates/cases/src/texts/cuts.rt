//! What is answered on texts that come in pieces.

use crate::texts::answers::verdict_line;
use anyhow::Result;
use checker::{Session, check_pieces, verdict_text};
use std::alloc::{AllocError, Global};

/// Whether the two texts have one verdict whole, byte by byte, and cut at each single place of either.
pub(crate) fn cuts(alloc: Global, history: &str, certificate: &str) -> Result<String> {
    let line = verdict_line(alloc, history.as_bytes(), certificate.as_bytes())?;
    let is_one = is_one_cut(
        alloc,
        history.as_bytes(),
        certificate.as_bytes(),
        line.as_bytes(),
    )?;
    answer(alloc, is_one)
}

fn is_one_cut(
    alloc: Global,
    history: &[u8],
    certificate: &[u8],
    line: &[u8],
) -> Result<bool, AllocError> {
    Ok(
        is_one_by_bytes(alloc, history, certificate, line)?
            && is_one_by_history(alloc, history, certificate, line)?
            && is_one_by_certificate(alloc, history, certificate, line)?,
    )
}

fn answer(alloc: Global, is_one: bool) -> Result<String> {
    let answer = if is_one { "as whole\n" } else { "by the cut\n" };
    Ok(String::from_str(alloc, answer)?)
}

/// Whether the two texts have one verdict whole, and with so many empty pieces before and behind each of them.
pub(crate) fn empties(
    alloc: Global,
    history: &str,
    certificate: &str,
    count: u32,
) -> Result<String> {
    let line = verdict_line(alloc, history.as_bytes(), certificate.as_bytes())?;
    let is_one = is_one_among_empties(
        alloc,
        history.as_bytes(),
        certificate.as_bytes(),
        line.as_bytes(),
        count,
    )?;
    answer(alloc, is_one)
}

fn is_one_among_empties(
    alloc: Global,
    history: &[u8],
    certificate: &[u8],
    line: &[u8],
    count: u32,
) -> Result<bool, AllocError> {
    let history = among_empties(alloc, history, count)?;
    let certificate = among_empties(alloc, certificate, count)?;
    has_line(alloc, history.as_slice(), certificate.as_slice(), line)
}

fn among_empties(alloc: Global, text: &[u8], count: u32) -> Result<Vec<&[u8]>, AllocError> {
    let mut pieces = Vec::new(alloc);
    for _piece in 0..count {
        pieces.push(&text[..0])?;
    }
    pieces.push(text)?;
    for _piece in 0..count {
        pieces.push(&text[..0])?;
    }
    Ok(pieces)
}

fn is_one_by_bytes(
    alloc: Global,
    history: &[u8],
    certificate: &[u8],
    line: &[u8],
) -> Result<bool, AllocError> {
    let history = bytes_of(alloc, history)?;
    let certificate = bytes_of(alloc, certificate)?;
    has_line(alloc, history.as_slice(), certificate.as_slice(), line)
}

fn bytes_of(alloc: Global, text: &[u8]) -> Result<Vec<&[u8]>, AllocError> {
    let mut pieces = Vec::new(alloc);
    for place in 0..text.len() {
        pieces.push(&text[place..place + 1])?;
    }
    Ok(pieces)
}

fn is_one_by_history(
    alloc: Global,
    history: &[u8],
    certificate: &[u8],
    line: &[u8],
) -> Result<bool, AllocError> {
    for place in 0..=history.len() {
        let (front, back) = history.split_at(place);
        if !has_line(alloc, &[front, back], &[certificate], line)? {
            return Ok(false);
        }
    }
    Ok(true)
}

fn is_one_by_certificate(
    alloc: Global,
    history: &[u8],
    certificate: &[u8],
    line: &[u8],
) -> Result<bool, AllocError> {
    for place in 0..=certificate.len() {
        let (front, back) = certificate.split_at(place);
        if !has_line(alloc, &[history], &[front, back], line)? {
            return Ok(false);
        }
    }
    Ok(true)
}

// Whether the verdict on the pieces has this line.
fn has_line(
    alloc: Global,
    history: &[&[u8]],
    certificate: &[&[u8]],
    line: &[u8],
) -> Result<bool, AllocError> {
    let verdict = check_pieces(alloc, history, certificate)?;
    let mut found = Vec::new(alloc);
    verdict_text(&verdict, &mut found)?;
    Ok(found.as_slice() == line)
}

/// How many offers a session of the certificate makes.
pub(crate) fn offers(alloc: Global, history: &str, certificate: &str) -> Result<String> {
    let count = offers_made(alloc, history, certificate)?;
    Ok(format!(in alloc; "{count}\n")?)
}

fn offers_made(alloc: Global, history: &str, certificate: &str) -> Result<u64> {
    let mut session = Session::new(alloc, history::read(alloc, history.as_bytes())?)?;
    session.feed(certificate.as_bytes())?;
    Ok(session.offers())
}
