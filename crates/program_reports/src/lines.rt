//! An explanation as lines that editors and build servers follow to a file.

ghost use Rattle.std.specs.Prelude.{◌≡◌, OnErr};

use crate::call::command_name;
use reasons::{Cause, EarlierStep, Explanation, NamedCall, RefusedLine, Since};
use std::alloc::{AllocError, Global};

/// The paths of both texts.
#[derive(Clone, Copy)]
pub struct Paths<'a> {
    pub history: &'a str,
    pub certificate: &'a str,
}

/// Where a line leads to, and how grave it is.
#[derive(Clone, Copy)]
struct Place<'a> {
    file: &'a str,
    line: u64,
    grade: &'a str,
}

/// Appends a line for what is wrong, and one for each place that it is about, or nothing for a linearization. Nothing is appended where
/// memory is refused.
pub fn append_lines(
    alloc: Global,
    told: &Explanation<'_>,
    paths: Paths<'_>,
    out: &mut Vec<u8>,
) -> Result<(), AllocError>
    ensures { OnErr result (out.new.items ≡ out.old.items) }
{
    let report = format!(in alloc; "{told}")?;
    let mut lines = String::new(alloc);
    match told {
        Explanation::HistoryFault(bad) => {
            write_fault(&mut lines, paths.history, bad.line, report.as_str())?;
        }
        Explanation::CertificateFault(bad) => {
            write_fault(&mut lines, paths.certificate, bad.line, report.as_str())?;
        }
        Explanation::Yes { .. } => {}
        Explanation::No { step, cause, .. } => {
            write_cause(&mut lines, paths, *step, cause, report.as_str())?;
        }
    }
    out.extend_from_slice(lines.as_bytes())
}

fn write_place(lines: &mut String, place: Place<'_>, text: &str) -> Result<(), AllocError> {
    let Place { file, line, grade } = place;
    write!(lines, "{file}:{line}: {grade}: {text}\n")?;
    Ok(())
}

// A line of the history.
fn history_note(paths: Paths<'_>, line: u32) -> Place<'_> {
    note(paths.history, u64::from(line))
}

fn error<'a>(file: &'a str, line: u64) -> Place<'a> {
    Place {
        file,
        line,
        grade: "error",
    }
}

fn note<'a>(file: &'a str, line: u64) -> Place<'a> {
    Place {
        file,
        line,
        grade: "note",
    }
}

// The first wrong field, and what was expected.
fn write_fault(lines: &mut String, file: &str, line: u64, report: &str) -> Result<(), AllocError> {
    write_place(lines, error(file, line), line_after(report, "wrong: "))?;
    let expected = line_after(report, "expected: ");
    if expected.is_empty() {
        return Ok(());
    }
    let place = note(file, line);
    let Place { file, line, grade } = place;
    write!(lines, "{file}:{line}: {grade}: expected: {expected}\n")?;
    Ok(())
}

// What stands behind these words on the first line of a report that begins with them, or nothing.
fn line_after<'a>(report: &'a str, words: &str) -> &'a str {
    for line in report.lines() {
        if let Some(text) = line.strip_prefix(words) {
            return text;
        }
    }
    ""
}

fn write_cause(
    lines: &mut String,
    paths: Paths<'_>,
    step: u64,
    cause: &Cause,
    report: &str,
) -> Result<(), AllocError> {
    let why = line_after(report, "why: ");
    match cause {
        Cause::Unknown { .. } => write_place(lines, error(paths.certificate, step), why),
        Cause::Missing(call) => {
            let answered = match &call.call.answer {
                Some(answer) => answer.returned,
                None => call.call.called,
            };
            write_call(lines, error(paths.history, u64::from(answered)), call, why)
        }
        Cause::Repeated { call, earlier } => {
            write_call(lines, error(paths.certificate, step), call, why)?;
            write_place(
                lines,
                note(paths.certificate, *earlier),
                "the step that names it first",
            )
        }
        Cause::Kind { call } => {
            write_call(lines, error(paths.certificate, step), call, why)?;
            write_lines_of(lines, paths, call)
        }
        Cause::Order {
            call,
            earlier,
            other,
        } => {
            write_call(lines, error(paths.certificate, step), call, why)?;
            write_lines_of(lines, paths, call)?;
            write_later_call(lines, paths, *earlier, other)
        }
        Cause::Reply(line) => {
            write_call(lines, error(paths.certificate, step), &line.call, why)?;
            write_lines_of(lines, paths, &line.call)?;
            write_steps(lines, paths, line)
        }
    }
}

// What is wrong with a call.
fn write_call(
    lines: &mut String,
    place: Place<'_>,
    call: &NamedCall,
    why: &str,
) -> Result<(), AllocError> {
    let Place { file, line, grade } = place;
    let (cpu, number) = (call.cpu, call.number);
    let command = command_name(call.call.command.function);
    write!(
        lines,
        "{file}:{line}: {grade}: {command} (call {number} of CPU {cpu}): {why}\n"
    )?;
    Ok(())
}

// The step that names a call which was made too late for its place, and where that was.
fn write_later_call(
    lines: &mut String,
    paths: Paths<'_>,
    step: u64,
    later: &NamedCall,
) -> Result<(), AllocError> {
    write_place(
        lines,
        note(paths.certificate, step),
        "the step of the later call",
    )?;
    write_place(
        lines,
        history_note(paths, later.call.called),
        "the later call",
    )
}

fn write_lines_of(
    lines: &mut String,
    paths: Paths<'_>,
    call: &NamedCall,
) -> Result<(), AllocError> {
    write_place(lines, history_note(paths, call.call.called), "the call")?;
    match &call.call.answer {
        Some(answer) => write_place(lines, history_note(paths, answer.returned), "its return"),
        None => Ok(()),
    }
}

fn write_steps(lines: &mut String, paths: Paths<'_>, line: &RefusedLine) -> Result<(), AllocError> {
    match &line.since {
        Since::Turned(earlier) => write_step(lines, paths, earlier, "since this step")?,
        Since::Never { made, set } => {
            if let Some(earlier) = made {
                write_step(
                    lines,
                    paths,
                    earlier,
                    "made by this step, and never otherwise",
                )?;
            }
            if let Some(earlier) = set {
                write_step(lines, paths, earlier, "last changed by this step")?;
            }
        }
    }
    match &line.late {
        Some(late) => write_place(
            lines,
            note(paths.certificate, late.step),
            "with this later step it would hold: was its commit recorded too late?",
        ),
        None => Ok(()),
    }
}

fn write_step(
    lines: &mut String,
    paths: Paths<'_>,
    earlier: &EarlierStep,
    words: &str,
) -> Result<(), AllocError> {
    write_place(lines, note(paths.certificate, earlier.step), words)?;
    write_place(
        lines,
        history_note(paths, earlier.call.call.called),
        "the call of that step",
    )
}
