//! A statement of a case: an input, a question, or both.

use crate::texts::plain::{push_line, push_plain};
use anyhow::{Result, bail};
use std::alloc::{AllocError, Global};

/// What a statement gives or asks.
#[derive(Clone, Copy, PartialEq)]
pub(crate) enum Word {
    /// The history's text.
    History,
    /// The certificate's text.
    Certificate,
    /// A machine and its steps, as a history and a certificate.
    Script,
    /// Steps behind those of the script.
    Step,
    /// The script with these steps behind it, which the next statement doesn't see.
    Try,
    /// Why a command isn't answered `ok` behind the script, which the next statement doesn't see.
    Why,
    /// Since which step that is so, or that the command gets another answer than its own, which the next statement doesn't see.
    Since,
    /// The first line of a history.
    Header,
    /// The checker's line on the two texts.
    Verdict,
    /// Whether the two texts' verdict is the same in pieces, however they are cut.
    Cuts,
    /// The same, with so many empty pieces around each text.
    Empties,
    /// How many offers a session makes of the certificate.
    Offers,
    /// The report on the two texts.
    Report,
    /// Whether the page on the two texts has a text.
    Page,
    /// Whether the object for programs on the two texts has a text.
    Object,
    /// The lines for editors on the two texts, whose paths are `h` and `c`.
    Lines,
    /// The steps of a granule.
    Granule,
    /// How often each condition refused.
    Rows,
    /// Which realm each granule belongs to after the history's calls.
    Owners,
    /// What is read of one of the texts.
    Read,
    /// Whether one of the texts comes back byte for byte.
    Rewrite,
    /// What a command's text is read as.
    Command,
    /// What a reply's text is read as.
    Reply,
    /// What is wrong in a history's later line.
    Event,
    /// What is wrong in a certificate's line.
    Line,
}

impl Word {
    fn of(word: &str) -> Result<Word> {
        Ok(match word {
            "history" => Word::History,
            "certificate" => Word::Certificate,
            "script" => Word::Script,
            "step" => Word::Step,
            "try" => Word::Try,
            "why" => Word::Why,
            "since" => Word::Since,
            "header" => Word::Header,
            "verdict" => Word::Verdict,
            "cuts" => Word::Cuts,
            "empties" => Word::Empties,
            "offers" => Word::Offers,
            "report" => Word::Report,
            "page" => Word::Page,
            "object" => Word::Object,
            "lines" => Word::Lines,
            "granule" => Word::Granule,
            "rows" => Word::Rows,
            "owners" => Word::Owners,
            "read" => Word::Read,
            "rewrite" => Word::Rewrite,
            "command" => Word::Command,
            "reply" => Word::Reply,
            "event" => Word::Event,
            "line" => Word::Line,
            other => bail!("no such word: {other}"),
        })
    }

    /// It gives steps of a script.
    pub(crate) fn is_script(self) -> bool {
        matches!(self, Word::Script | Word::Step | Word::Try)
    }

    /// It gives a text, so that it asks only where an answer stands on its line.
    fn is_input(self) -> bool {
        matches!(
            self,
            Word::History | Word::Certificate | Word::Script | Word::Step | Word::Try | Word::Header
        )
    }
}

/// A line `WORD ARGUMENT => ANSWER`, and the indented lines behind it.
#[derive(Drop)]
pub(crate) struct Statement<'a> {
    /// The line without the answer.
    pub(crate) head: &'a str,
    pub(crate) word: Word,
    pub(crate) argument: &'a str,
    answer: Option<&'a str>,
    pub(crate) block: String,
}

impl<'a> Statement<'a> {
    pub(crate) fn of(alloc: Global, line: &'a str) -> Result<Statement<'a>> {
        let (head, answer) = match line.rsplit_once(" => ") {
            Some((head, answer)) => (head, Some(answer)),
            None => (line, None),
        };
        let (word, argument) = head.split_once(' ').unwrap_or((head, ""));
        Ok(Statement {
            head,
            word: Word::of(word)?,
            argument,
            answer,
            block: String::new(alloc),
        })
    }

    /// The argument's line, where there is one, and the indented lines.
    pub(crate) fn text(&self, alloc: Global) -> Result<String> {
        let mut text = String::new(alloc);
        if !self.argument.is_empty() {
            push_line(alloc, &mut text, self.argument)?;
        }
        text.push_str(self.block.as_str())?;
        Ok(text)
    }

    /// The argument as it stands in the middle of a line.
    pub(crate) fn part(&self, alloc: Global) -> Result<String, AllocError> {
        let mut part = String::new(alloc);
        push_plain(&mut part, self.argument)?;
        Ok(part)
    }

    /// The answer that the file says, where the statement asks.
    pub(crate) fn expected(&self, alloc: Global) -> Result<Option<String>> {
        let mut expected = String::new(alloc);
        match self.answer {
            Some(answer) => push_line(alloc, &mut expected, answer)?,
            None if self.word.is_input() => return Ok(None),
            None => expected.push_str(self.block.as_str())?,
        }
        Ok(Some(expected))
    }
}
