//! What else is answered on a history and a certificate.

use anyhow::{Result, bail};
use explain::{ExplainedRun, Run, explain_run};
use program_reports::{Paths, append_json, append_lines};
use rmi_codec::{Parts, next_word};
use run_steps::{ConditionCounts, append_counts, count_conditions, granule_steps};
use std::alloc::Global;

const PATHS: Paths<'static> = Paths {
    history: "h",
    certificate: "c",
};

fn explained<'a>(
    alloc: Global,
    history: &'a str,
    certificate: &'a str,
) -> Result<ExplainedRun<'a>> {
    Ok(explain_run(alloc, history.as_bytes(), certificate.as_bytes())?)
}

fn run_of<'a>(told: &'a ExplainedRun<'_>) -> Result<&'a Run> {
    match &told.run {
        Some(run) => Ok(run),
        None => bail!("a text has a malformed line"),
    }
}

/// Whether the object has this piece.
pub(crate) fn object_has(
    alloc: Global,
    history: &str,
    certificate: &str,
    piece: &str,
) -> Result<String> {
    let object = object_of(alloc, history, certificate)?;
    has_piece(alloc, object.as_str(), piece)
}

fn object_of(alloc: Global, history: &str, certificate: &str) -> Result<String> {
    object_on(alloc, &explained(alloc, history, certificate)?)
}

fn object_on(alloc: Global, told: &ExplainedRun<'_>) -> Result<String> {
    let mut object = Vec::new(alloc);
    append_json(alloc, &told.explanation, PATHS, &mut object)?;
    Ok(String::from_utf8(object)?)
}

fn has_piece(alloc: Global, object: &str, piece: &str) -> Result<String> {
    let answer = if object.contains(piece) {
        "there\n"
    } else {
        "not there\n"
    };
    Ok(String::from_str(alloc, answer)?)
}

pub(crate) fn lines_of(alloc: Global, history: &str, certificate: &str) -> Result<String> {
    lines_on(alloc, &explained(alloc, history, certificate)?)
}

fn lines_on(alloc: Global, told: &ExplainedRun<'_>) -> Result<String> {
    let mut lines = Vec::new(alloc);
    append_lines(alloc, &told.explanation, PATHS, &mut lines)?;
    Ok(String::from_utf8(lines)?)
}

pub(crate) fn granule_steps_of(
    alloc: Global,
    history: &str,
    certificate: &str,
    granule: &str,
) -> Result<String> {
    let Some(granule) = next_word(&mut Parts::of(granule.as_bytes())) else {
        bail!("no address: {granule}");
    };
    steps_on(alloc, &explained(alloc, history, certificate)?, granule)
}

fn steps_on(alloc: Global, told: &ExplainedRun<'_>, granule: u64) -> Result<String> {
    let run = run_of(told)?;
    let steps = granule_steps(alloc, &run.history, &run.certificate, granule)?;
    Ok(format!(in alloc; "{steps}")?)
}

pub(crate) fn rows_of(alloc: Global, history: &str, certificate: &str) -> Result<String> {
    rows_on(alloc, &explained(alloc, history, certificate)?)
}

fn rows_on(alloc: Global, told: &ExplainedRun<'_>) -> Result<String> {
    let run = run_of(told)?;
    let counts = count_conditions(alloc, &run.history, &run.certificate)?;
    text_of(alloc, &counts)
}

fn text_of(alloc: Global, counts: &ConditionCounts) -> Result<String> {
    let mut lines = Vec::new(alloc);
    append_counts(counts, &mut lines)?;
    Ok(String::from_utf8(lines)?)
}
