//! What is wrong with a bad line.

use crate::wrong_part::WrongPart;
use std::fmt;

/// Why a line is bad.
#[derive(Clone, Copy)]
pub enum Flaw<'a> {
    /// The first part with which it is no line of its kind.
    Part(WrongPart<'a>),
    /// It is a line of its kind, and can't stand in its place.
    Place(Misplaced),
}

/// Why a line can't stand in its place.
#[derive(Clone, Copy)]
pub enum Misplaced {
    /// No newline ends it.
    Unended,
    /// As many lines stand before it as a text may have.
    Full,
    /// Its event isn't the next that its CPU can have.
    OutOfTurn,
}

impl fmt::Display for Flaw<'_> {
    fn fmt<W: fmt::Write>(&self, f: &mut fmt::Formatter<W>) -> fmt::Result {
        match self {
            Flaw::Part(wrong) => write!(f, "{wrong}"),
            Flaw::Place(place) => write!(f, "{place}"),
        }
    }
}

impl fmt::Display for Misplaced {
    fn fmt<W: fmt::Write>(&self, f: &mut fmt::Formatter<W>) -> fmt::Result {
        f.write_str(match self {
            Misplaced::Unended => "wrong: no newline ends the line\n",
            Misplaced::Full => "wrong: 1000000 lines come before it, and a text has no more\n",
            Misplaced::OutOfTurn => {
                "wrong: the event isn't its CPU's next\n\
                 expected: the return of the CPU's open call, or where it has none its next call, numbered from 0\n"
            }
        })
    }
}
