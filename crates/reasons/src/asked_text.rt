//! A word of a command that isn't as it has to be, in words.

use crate::WordTest;
use crate::levels::entry_size;
use rmm_spec::FunctionId;
use std::fmt;

/// A word of a function's command, which isn't as it has to be.
#[derive(Clone, Copy)]
pub(crate) struct WordText {
    pub(crate) function: FunctionId,
    pub(crate) index: u8,
    pub(crate) word: u64,
    pub(crate) asked: WordTest,
}

impl fmt::Display for WordText {
    fn fmt<W: fmt::Write>(&self, f: &mut fmt::Formatter<W>) -> fmt::Result {
        let (function, word) = (self.function, self.word);
        let name = command_word(function, self.index);
        let asked = AskedText {
            function,
            asked: self.asked,
        };
        write!(f, "{name} is {word:x}, and has to be {asked}")
    }
}

/// What a word of a function's command has to be.
#[derive(Clone, Copy)]
pub struct AskedText {
    pub function: FunctionId,
    pub asked: WordTest,
}

impl fmt::Display for AskedText {
    fn fmt<W: fmt::Write>(&self, f: &mut fmt::Formatter<W>) -> fmt::Result {
        match self.asked {
            WordTest::AtMost(0) => f.write_str("0"),
            WordTest::AtMost(1) => f.write_str("0 or 1"),
            WordTest::AtMost(most) => write!(f, "at most {most:x}"),
            WordTest::Below(limit) => write!(f, "below {limit:x}"),
            WordTest::Between(least, most) => write!(f, "from {least:x} to {most:x}"),
            WordTest::Page => f.write_str("a multiple of 1000"),
            WordTest::Entry(level) => {
                let size = entry_size(level);
                write!(f, "a multiple of {size:x}")
            }
            WordTest::Width => f.write_str("27 or 30"),
            WordTest::RootOf(0x27) => f.write_str("1 for width 27"),
            WordTest::RootOf(width) => write!(f, "0 for width {width:x}"),
            WordTest::BelowWord { .. } | WordTest::Apart { .. } => {
                write_other(f, self.function, self.asked)
            }
        }
    }
}

// What it has to be beside another word.
fn write_other<W: fmt::Write>(
    f: &mut fmt::Formatter<W>,
    function: FunctionId,
    asked: WordTest,
) -> fmt::Result {
    match asked {
        WordTest::BelowWord { index, word } => {
            let other = command_word(function, index);
            write!(f, "below {other}, which is {word:x}")
        }
        WordTest::Apart { index, .. } => {
            let other = command_word(function, index);
            write!(f, "another granule than {other}")
        }
        _ => Ok(()),
    }
}

/// The name that reports have for a word of a function's command, counted from 0.
pub fn command_word(function: FunctionId, index: u8) -> &'static str {
    let mut names = function.row().names.split(' ');
    for _place in 0..=index {
        names.next();
    }
    names.next().unwrap_or("a word")
}
