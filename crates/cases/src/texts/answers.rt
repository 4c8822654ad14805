//! What is answered on a history and a certificate.

use anyhow::Result;
use checker::{check, verdict_text};
use explain::{ExplainedRun, Explanation, explain, explain_run, report};
use explain_page::{Extent, append_page};
use std::alloc::Global;

/// The verdict's line, and another one where a text that has no bad line doesn't come back byte for byte.
pub(crate) fn verdict(alloc: Global, history: &str, certificate: &str) -> Result<String> {
    let mut line = verdict_line(alloc, history.as_bytes(), certificate.as_bytes())?;
    let is_history_back = is_as_it_was(rewritten_history(alloc, history)?)
        || line.as_str().starts_with("fault history ");
    let is_certificate_back = is_as_it_was(rewritten_certificate(alloc, certificate)?)
        || line.as_str().starts_with("fault ");
    if !is_history_back || !is_certificate_back {
        line.push_str("a text doesn't come back\n")?;
    }
    Ok(line)
}

/// The verdict's line.
pub(crate) fn verdict_line(alloc: Global, history: &[u8], certificate: &[u8]) -> Result<String> {
    let verdict = check(alloc, history, certificate)?;
    let mut line = Vec::new(alloc);
    verdict_text(&verdict, &mut line)?;
    Ok(String::from_utf8(line)?)
}

fn is_as_it_was(answer: String) -> bool {
    answer.as_str() == AS_IT_WAS
}

const AS_IT_WAS: &str = "as it was\n";

pub(crate) fn rewritten_history(alloc: Global, history: &str) -> Result<String> {
    match text_writers::rewritten_history(alloc, history.as_bytes()) {
        Ok(again) => come_back(alloc, again.as_slice() == history.as_bytes()),
        Err(fault) => Ok(format!(in alloc; "{fault}\n")?),
    }
}

pub(crate) fn rewritten_certificate(alloc: Global, certificate: &str) -> Result<String> {
    match text_writers::rewritten_certificate(alloc, certificate.as_bytes()) {
        Ok(again) => come_back(alloc, again.as_slice() == certificate.as_bytes()),
        Err(fault) => Ok(format!(in alloc; "{fault}\n")?),
    }
}

fn come_back(alloc: Global, is_same: bool) -> Result<String> {
    let answer = if is_same { AS_IT_WAS } else { "another text\n" };
    Ok(String::from_str(alloc, answer)?)
}

/// How many events are read, or why none.
pub(crate) fn read_history(alloc: Global, history: &str) -> Result<String> {
    Ok(match history::read(alloc, history.as_bytes()) {
        Ok(history) => format!(in alloc; "{} events\n", history.len())?,
        Err(fault) => format!(in alloc; "{fault}\n")?,
    })
}

/// How many lines are read, or why none.
pub(crate) fn read_certificate(alloc: Global, certificate: &str) -> Result<String> {
    Ok(match certificate::read(alloc, certificate.as_bytes()) {
        Ok(certificate) => format!(in alloc; "{} lines\n", certificate.len())?,
        Err(fault) => format!(in alloc; "{fault}\n")?,
    })
}

pub(crate) fn reported(alloc: Global, history: &str, certificate: &str) -> Result<String> {
    report_of(
        alloc,
        &explain(alloc, history.as_bytes(), certificate.as_bytes())?,
    )
}

fn report_of(alloc: Global, explanation: &Explanation<'_>) -> Result<String> {
    let mut text = Vec::new(alloc);
    report(alloc, explanation, &mut text)?;
    Ok(String::from_utf8(text)?)
}

/// The reason that the report gives.
pub(crate) fn why(alloc: Global, history: &str, certificate: &str) -> Result<String> {
    reason_in(alloc, reported(alloc, history, certificate)?.as_str())
}

fn reason_in(alloc: Global, report: &str) -> Result<String> {
    for line in report.lines() {
        if let Some(reason) = line.strip_prefix("why: ") {
            return Ok(format!(in alloc; "{reason}\n")?);
        }
    }
    Ok(String::from_str(alloc, "no reason\n")?)
}

/// Whether the page has this piece.
pub(crate) fn page_has(
    alloc: Global,
    history: &str,
    certificate: &str,
    piece: &str,
) -> Result<String> {
    let page = page_of(alloc, history, certificate)?;
    let answer = if page.as_str().contains(piece) {
        "shown\n"
    } else {
        "not shown\n"
    };
    Ok(String::from_str(alloc, answer)?)
}

fn page_of(alloc: Global, history: &str, certificate: &str) -> Result<String> {
    page_on(
        alloc,
        &explain_run(alloc, history.as_bytes(), certificate.as_bytes())?,
    )
}

fn page_on(alloc: Global, told: &ExplainedRun<'_>) -> Result<String> {
    let mut page = Vec::new(alloc);
    let extent = Extent {
        around: 100,
        folds: &[],
    };
    append_page(alloc, told, extent, b"", &mut page)?;
    Ok(String::from_utf8(page)?)
}
