//! The words of a program as lines, each of which asks for one thing.

use anyhow::{Context, Result};
use std::alloc::{AllocError, Global};

/// What the program is asked for by its words, of which the first is its name: the others are one line, but `gate` stands for all
/// lines of the gate, and behind a word for those that begin with it.
pub(crate) fn lines_of<'a>(
    alloc: Global,
    given: &'a [String],
    gate: &'a [&'a str],
) -> Result<Vec<Vec<&'a str>>, AllocError> {
    let mut words = Vec::new(alloc);
    for word in given.iter().skip(1) {
        words.push(word.as_str())?;
    }
    let mut lines = Vec::new(alloc);
    match gate_word(words.as_slice()) {
        Some(word) => push_begun(alloc, &mut lines, gate, word)?,
        None => lines.push(words)?,
    }
    Ok(lines)
}

// With which word the lines of the gate begin that are asked for, if they are.
fn gate_word<'a>(words: &[&'a str]) -> Option<&'a str> {
    match words {
        ["gate"] => Some(""),
        [word, "gate"] => Some(*word),
        _ => None,
    }
}

fn push_begun<'a>(
    alloc: Global,
    lines: &mut Vec<Vec<&'a str>>,
    gate: &'a [&'a str],
    word: &str,
) -> Result<(), AllocError> {
    for line in gate {
        if line.starts_with(word) {
            lines.push(line.split(' ').collect(alloc)?)?;
        }
    }
    Ok(())
}

/// Reads a number.
pub(crate) fn number(word: &str) -> Result<u64> {
    word.parse::<u64>().context("a number?")
}
