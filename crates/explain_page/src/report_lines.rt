//! A report's text, line by line.

ghost use Rattle.std.specs.Prelude.{◌≡◌, ◌<◌, ◌++◌, [], OnOk, length};
ghost use Rattle.explain_page.specs.Page.{AppendsText};

use crate::marks::Mark;
use crate::own::{Own, Page, Tag};
use std::alloc::AllocError;
use std::str;

/// Writes a text line by line. A line is found by its number, counted from 1, and one that names a step of the table leads to its row.
pub(crate) fn write_lines(page: &mut Page, text: &[u8], marks: &[Mark]) -> Result<(), AllocError>
    ensures { OnOk result (AppendsText page.old.bytes page.new.bytes text.now) }
{
    let mut rest = text;
    let mut number: u64 = 1;
    while !rest.is_empty() {
        let (line, more) = cut(rest);
        write_line(page, number, line, row_of(line, marks))?;
        number = number.saturating_add(1);
        rest = more;
    }
    Ok(())
}

/// The number of the first line that names the step.
pub(crate) fn line_naming(text: &[u8], step: u64) -> Option<u64> {
    let text = str::from_utf8(text).ok()?;
    let mut number: u64 = 1;
    for line in text.lines() {
        if step_in(line) == Some(step) {
            return Some(number);
        }
        number = number.saturating_add(1);
    }
    None
}

// The first line with its newline, and what stands behind it.
fn cut(text: &[u8]) -> (&[u8], &[u8])
    requires { 0 < length text.now }
    ensures whole { text.now ≡ result.0.now ++ result.1.now }
    ensures shorter { length result.1.now < length text.now }
{
    match text.iter().position(|byte| *byte == b'\n') {
        Some(at) => text.split_at(at + 1),
        None => (text, &[]),
    }
}

fn write_line(page: &mut Page, number: u64, line: &[u8], row: Option<u64>) -> Result<(), AllocError>
    ensures { OnOk result (AppendsText page.old.bytes page.new.bytes line.now) }
{
    open_line(page, number)?;
    write_words(page, line, row)?;
    page.say(Own::Tag(Tag::LineEnd))?;
    Ok(())
}

fn write_words(page: &mut Page, line: &[u8], row: Option<u64>) -> Result<(), AllocError>
    ensures { OnOk result (AppendsText page.old.bytes page.new.bytes line.now) }
{
    match row {
        Some(step) => write_linked(page, step, line),
        None => write_plain(page, line),
    }
}

fn write_plain(page: &mut Page, line: &[u8]) -> Result<(), AllocError>
    ensures { OnOk result (AppendsText page.old.bytes page.new.bytes line.now) }
{
    page.text(line)?;
    Ok(())
}

fn open_line(page: &mut Page, number: u64) -> Result<(), AllocError>
    ensures { OnOk result (AppendsText page.old.bytes page.new.bytes []) }
{
    page.say(Own::Tag(Tag::LineStart))?;
    page.number(number)?;
    page.say(Own::Tag(Tag::LinkStart))?;
    Ok(())
}

fn write_linked(page: &mut Page, step: u64, line: &[u8]) -> Result<(), AllocError>
    ensures { OnOk result (AppendsText page.old.bytes page.new.bytes line.now) }
{
    open_link(page, step)?;
    page.text(line)?;
    page.say(Own::Tag(Tag::LinkEnd))?;
    Ok(())
}

fn open_link(page: &mut Page, step: u64) -> Result<(), AllocError>
    ensures { OnOk result (AppendsText page.old.bytes page.new.bytes []) }
{
    page.say(Own::Tag(Tag::ToRow))?;
    page.number(step)?;
    page.say(Own::Tag(Tag::LinkStart))?;
    Ok(())
}

// The step of the table that a line names.
fn row_of(line: &[u8], marks: &[Mark]) -> Option<u64> {
    let step = step_in(str::from_utf8(line).ok()?)?;
    marks.iter().any(|mark| mark.step == step).then_some(step)
}

// The step that a line names.
fn step_in(line: &str) -> Option<u64> {
    let (_, behind) = line.split_once("step ")?;
    let word = match behind.split_once(' ') {
        Some((word, _)) => word,
        None => behind,
    };
    word.trim_end_matches(',').parse::<u64>().ok()
}
