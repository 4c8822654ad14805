//! The plain text that a line of a case file stands for.

use anyhow::{Context, Result};
use std::alloc::{AllocError, Global};
use std::fmt::Write;

/// Appends a line and its newline. A line that ends in `\` has none, and `\repeat COUNT LINE` stands for so many lines.
pub(crate) fn push_line(alloc: Global, text: &mut String, line: &str) -> Result<()> {
    if let Some(repeated) = line.strip_prefix("\\repeat ") {
        return push_repeated(alloc, text, repeated);
    }
    match line.strip_suffix('\\') {
        Some(unended) => push_plain(text, unended)?,
        None => {
            push_plain(text, line)?;
            text.push('\n')?;
        }
    }
    Ok(())
}

/// Appends a text in which `\n` stands for a newline, `\s` for a space and `\t` for a tab.
pub(crate) fn push_plain(text: &mut String, escaped: &str) -> Result<(), AllocError> {
    let mut pieces = escaped.split('\\');
    if let Some(first) = pieces.next() {
        text.push_str(first)?;
    }
    for piece in pieces {
        push_escape(text, piece)?;
    }
    Ok(())
}

// What stands behind a `\`.
fn push_escape(text: &mut String, piece: &str) -> Result<(), AllocError> {
    for (letter, plain) in [('n', '\n'), ('s', ' '), ('t', '\t')] {
        if let Some(rest) = piece.strip_prefix(letter) {
            text.push(plain)?;
            return text.push_str(rest);
        }
    }
    text.push('\\')?;
    text.push_str(piece)
}

// A count and a line, in which `#` stands for the line's number, from 0 on, and `@` for it in three hex digits.
fn push_repeated(alloc: Global, text: &mut String, repeated: &str) -> Result<()> {
    let (count, line) = repeated.split_once(' ').context("no line is repeated")?;
    let count = count.parse::<u32>().context("no count of lines")?;
    let mut plain = String::new(alloc);
    push_plain(&mut plain, line)?;
    plain.push('\n')?;
    for number in 0..count {
        push_numbered(text, plain.as_str(), number)?;
    }
    Ok(())
}

fn push_numbered(text: &mut String, line: &str, number: u32) -> Result<()> {
    for (place, piece) in line.split('#').enumerate() {
        if place > 0 {
            write!(text, "{number}")?;
        }
        push_hex_numbered(text, piece, number)?;
    }
    Ok(())
}

fn push_hex_numbered(text: &mut String, piece: &str, number: u32) -> Result<()> {
    for (place, part) in piece.split('@').enumerate() {
        if place > 0 {
            write!(text, "{number:03x}")?;
        }
        text.push_str(part)?;
    }
    Ok(())
}
