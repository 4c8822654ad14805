//! What could stand in a place of a line, in words.

use crate::shown::Shown;
use crate::wanted::Wanted;
use crate::wrong_part::WrongPart;
use memory_map::granule_limit;
use std::fmt;

impl fmt::Display for Wanted {
    fn fmt<W: fmt::Write>(&self, f: &mut fmt::Formatter<W>) -> fmt::Result {
        f.write_str(match *self {
            Wanted::Format => "rmh1, rmh2 or rml1",
            Wanted::Granules { version } => {
                let most = granule_limit(version);
                return write!(f, "how many granules there are, from 1 to {most}");
            }
            Wanted::Cpus => "how many CPUs there are, from 1 to 8",
            Wanted::EventLetter { .. } => "c for a call, or r for a return",
            Wanted::LineLetter => "k for a call that returned, or u for one that didn't",
            Wanted::Cpu { cpus, .. } => {
                let last = cpus.saturating_sub(1);
                return write!(f, "the number of a CPU, from 0 to {last}");
            }
            Wanted::Number { .. } => "the number of a call, from 0 to 999999",
            Wanted::Function => "the number of a function, in 8 lower-case hex digits",
            Wanted::Form => "ok, err or misplaced",
            Wanted::Words { left: 0 } | Wanted::MoreWords { left: 0 } | Wanted::End => {
                "nothing, since the line has to end"
            }
            Wanted::Words { .. } => WORD,
            Wanted::MoreWords { .. } => {
                return write!(f, "{WORD}, or nothing, since the line may end");
            }
            Wanted::Status => "a status, from 0 to 255",
            Wanted::Index => "an index, from 0 to 255",
        })
    }
}

/// A word of a command or a reply.
const WORD: &str = "a word of 64 bits in lower-case hex, without leading zeros";

impl fmt::Display for WrongPart<'_> {
    fn fmt<W: fmt::Write>(&self, f: &mut fmt::Formatter<W>) -> fmt::Result {
        let (number, wanted) = (self.index.saturating_add(1), self.wanted);
        match self.part {
            Some(part) => {
                let part = Shown(part);
                write!(f, "wrong: field {number}, \"{part}\"\n")?;
            }
            None => write!(f, "wrong: the line ends before field {number}\n")?,
        }
        write!(f, "expected: {wanted}\n")
    }
}
