//! Where in a scenario's text a flaw seems to stand. It is a hint: the first line that looks like it.

use crate::{Flaw, Key};
use reasons::Shown;
use std::alloc::{AllocError, Global};
use std::fmt;

/// A line of the text, with its number from 1.
#[derive(Clone, Copy)]
pub(crate) struct Place<'a> {
    number: usize,
    line: &'a str,
}

/// The first line that has the flaw's key, or its text in quotes.
pub(crate) fn place_of<'a>(
    alloc: Global,
    text: &'a str,
    flaw: &Flaw<'_>,
) -> Result<Option<Place<'a>>, AllocError> {
    Ok(match *flaw {
        Flaw::Unknown { key } => place_of_key(text, key),
        Flaw::Kind { key } => place_of_key(text, key.name()),
        Flaw::Range { number, .. } => place_of_key(text, number.name()),
        Flaw::Programs { .. } => place_of_key(text, Key::Programs.name()),
        Flaw::Command { text: wrong, .. } | Flaw::Turn { text: wrong, .. } => {
            let (double, single) = (
                format!(in alloc; "\"{wrong}\"")?,
                format!(in alloc; "'{wrong}'")?,
            );
            place_of_either(text, double.as_str(), single.as_str())
        }
        Flaw::Missing { .. } | Flaw::Commands => None,
    })
}

fn place_of_key<'a>(text: &'a str, key: &str) -> Option<Place<'a>> {
    for (index, line) in text.lines().enumerate() {
        if let Some(rest) = line.trim_start().strip_prefix(key) {
            if rest.trim_start().starts_with('=') {
                return Some(Place::new(index, line));
            }
        }
    }
    None
}

fn place_of_either<'a>(text: &'a str, one: &str, other: &str) -> Option<Place<'a>> {
    for (index, line) in text.lines().enumerate() {
        if line.contains(one) || line.contains(other) {
            return Some(Place::new(index, line));
        }
    }
    None
}

impl<'a> Place<'a> {
    fn new(index: usize, line: &'a str) -> Place<'a> {
        Place {
            number: index.saturating_add(1),
            line,
        }
    }
}

impl fmt::Display for Place<'_> {
    fn fmt<W: fmt::Write>(&self, f: &mut fmt::Formatter<W>) -> fmt::Result {
        let (number, line) = (self.number, Shown(self.line.trim().as_bytes()));
        write!(f, "line {number}: {line}\n")
    }
}
