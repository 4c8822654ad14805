//! The cases of a file.

use crate::texts::plain::push_line;
use crate::texts::statement::Statement;
use anyhow::{Context, Result};
use std::alloc::Global;

/// A case's name and its statements.
#[derive(Drop)]
pub(crate) struct CaseText<'a> {
    pub(crate) name: &'a str,
    pub(crate) statements: Vec<Statement<'a>>,
}

/// Each line `case NAME` begins a case. Empty lines and those that begin with `#` say nothing.
pub(crate) fn cases_of<'a>(alloc: Global, text: &'a str) -> Result<Vec<CaseText<'a>>> {
    let mut cases: Vec<CaseText<'a>> = Vec::new(alloc);
    for line in text.lines() {
        if !line.is_empty() && !line.starts_with('#') {
            take_line(alloc, &mut cases, line)?;
        }
    }
    Ok(cases)
}

fn take_line<'a>(alloc: Global, cases: &mut Vec<CaseText<'a>>, line: &'a str) -> Result<()> {
    match line.strip_prefix("case ") {
        Some(name) => {
            let statements = Vec::new(alloc);
            cases.push(CaseText { name, statements })?;
            Ok(())
        }
        None => {
            let case = cases.last_mut().context("a line before the first case")?;
            case.add(alloc, line)
        }
    }
}

impl<'a> CaseText<'a> {
    // A statement, or a line of the last one's text, which is indented by four spaces.
    fn add(&mut self, alloc: Global, line: &'a str) -> Result<()> {
        match line.strip_prefix("    ") {
            Some(line) => {
                let statement = self.statements.last_mut().context("a text of nothing")?;
                push_line(alloc, &mut statement.block, line)
            }
            None => {
                self.statements.push(Statement::of(alloc, line)?)?;
                Ok(())
            }
        }
    }
}
