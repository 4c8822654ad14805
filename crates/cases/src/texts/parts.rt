//! What commands, replies and single lines are read as, in texts that the readers' own writers don't make.

use crate::texts::functions::name_of;
use anyhow::Result;
use reasons::{WrongPart, wrong_in_certificate_line, wrong_in_event, wrong_in_header};
use rmi_codec::{Command, Reply, read_command, read_reply};
use std::alloc::{AllocError, Global};
use std::fmt::Write;
use text_writers::{write_command, write_reply};

/// A function's name and its words, or why there is none.
pub(crate) fn command_read(alloc: Global, text: &str) -> Result<String> {
    let command = match read_command(text) {
        Ok(command) => command,
        Err(fault) => return Ok(format!(in alloc; "{fault}\n")?),
    };
    let mut written = Vec::new(alloc);
    write_command(&command, &mut written)?;
    let answer = command_named(alloc, &command)?;
    ended(answer, written.as_slice() == text.as_bytes())
}

fn command_named(alloc: Global, command: &Command) -> Result<String> {
    let mut text = String::from_str(alloc, name_of(command.function))?;
    push_words(&mut text, command.words.as_slice())?;
    Ok(text)
}

/// A reply's form and its numbers, or why there is none.
pub(crate) fn reply_read(alloc: Global, text: &str) -> Result<String> {
    let reply = match read_reply(text) {
        Ok(reply) => reply,
        Err(fault) => return Ok(format!(in alloc; "{fault}\n")?),
    };
    let mut written = Vec::new(alloc);
    write_reply(&reply, &mut written)?;
    let answer = reply_named(alloc, &reply)?;
    ended(answer, written.as_slice() == text.as_bytes())
}

fn reply_named(alloc: Global, reply: &Reply) -> Result<String> {
    let mut text = String::new(alloc);
    match reply {
        Reply::Ok(words) => {
            text.push_str("ok")?;
            push_words(&mut text, words.as_slice())?;
        }
        Reply::Err(status, index) => write!(text, "err {status} {index}")?,
        Reply::Misplaced => text.push_str("misplaced")?,
    }
    Ok(text)
}

fn push_words(text: &mut String, words: &[u64]) -> Result<()> {
    for word in words {
        write!(text, " {word:x}")?;
    }
    Ok(())
}

// The line of what was read, which tells where it isn't written back as it was.
fn ended(mut answer: String, is_written_back: bool) -> Result<String> {
    answer.push_str(if is_written_back {
        "\n"
    } else {
        ", and written back another way\n"
    })?;
    Ok(answer)
}

/// The first wrong part of a history's first line.
pub(crate) fn wrong_header(alloc: Global, header: &str) -> Result<String, AllocError> {
    told(alloc, wrong_in_header(header.as_bytes()))
}

/// The first wrong part of a later line of a history with this first line.
pub(crate) fn wrong_event(alloc: Global, event: &str, header: &str) -> Result<String, AllocError> {
    told(alloc, wrong_in_event(event.as_bytes(), header.as_bytes()))
}

/// The first wrong part of a certificate's line.
pub(crate) fn wrong_line(alloc: Global, line: &str) -> Result<String, AllocError> {
    told(alloc, wrong_in_certificate_line(line.as_bytes()))
}

fn told(alloc: Global, wrong: Option<WrongPart<'_>>) -> Result<String, AllocError> {
    match wrong {
        Some(wrong) => format!(in alloc; "{wrong}"),
        None => String::from_str(alloc, "none\n"),
    }
}
