//! Cases of a `.txt`: inputs, and questions with their answers. It prints a line for each case that is answered as its file says.
//! Then it offers each step of the scripts to two machines.

mod answers;
mod case;
mod case_text;
mod causes;
mod cuts;
mod functions;
mod machines;
mod outputs;
mod owners;
mod parts;
mod plain;
mod script;
mod statement;

use crate::files::files_ending;
use crate::texts::case::Case;
use crate::texts::case_text::{CaseText, cases_of};
use crate::texts::machines::compare_scripts;
use crate::texts::statement::Statement;
use anyhow::{Context, Result};
use std::fs;
use std::rt::Files;

/// Whether each answer is the one that its file says, and both machines answer alike.
pub(crate) fn judge_files<R: Files + Print + AllocGlobal + Clone + Drop>(rt: &R) -> Result<bool> {
    let mut are_right = true;
    let files = files_ending(rt, ".txt")?;
    for file in &files {
        are_right &= judge_file(rt, file.as_str())?;
    }
    are_right &= compare_scripts(rt, files.as_slice())?;
    Ok(are_right)
}

// Whether each answer is the one that the file says.
fn judge_file<R: Files + Print + AllocGlobal>(rt: &R, file: &str) -> Result<bool> {
    let text = fs::read_to_string(rt, file).context(file)?;
    judge_text(rt, file, text.as_str())
}

fn judge_text<R: Print + AllocGlobal>(rt: &R, file: &str, text: &str) -> Result<bool> {
    let mut are_right = true;
    for case in &cases_of(rt.alloc(), text)? {
        are_right &= judge_case(rt, file, case)?;
    }
    Ok(are_right)
}

fn judge_case<R: Print + AllocGlobal>(rt: &R, file: &str, text: &CaseText<'_>) -> Result<bool> {
    let Counts { asked, right } = judge_statements(rt, text)?;
    let name = text.name;
    println!(rt; "{file} {name}: {right} of {asked}")?;
    Ok(right == asked)
}

/// How often a case asked, and how often the answer was right.
#[derive(Clone, Copy, Default)]
struct Counts {
    asked: u64,
    right: u64,
}

fn judge_statements<R: Print + AllocGlobal>(rt: &R, text: &CaseText<'_>) -> Result<Counts> {
    let mut case = Case::new(rt.alloc());
    let mut counts = Counts::default();
    for statement in &text.statements {
        case.take(rt.alloc(), statement)?;
        if let Some(is_right) = judge(rt, &case, statement)? {
            counts.asked = counts.asked.wrapping_add(1);
            counts.right = counts.right.wrapping_add(u64::from(is_right));
        }
    }
    Ok(counts)
}

// Whether the answer is right, where the statement asks.
fn judge<R: Print + AllocGlobal>(
    rt: &R,
    case: &Case,
    statement: &Statement<'_>,
) -> Result<Option<bool>> {
    match statement.expected(rt.alloc())? {
        Some(expected) => Ok(Some(is_answer(rt, case, statement, expected.as_str())?)),
        None => Ok(None),
    }
}

fn is_answer<R: Print + AllocGlobal>(
    rt: &R,
    case: &Case,
    statement: &Statement<'_>,
    expected: &str,
) -> Result<bool> {
    let answer = case.answer(rt.alloc(), statement)?;
    if answer.as_str() == expected {
        return Ok(true);
    }
    let head = statement.head;
    println!(rt; "{head}: got\n{answer}in place of\n{expected}")?;
    Ok(false)
}
