//! What is made of a run.

use crate::folds::{Section, folds_of, sections_of};
use crate::page_file::check_page_file;
use crate::texts::{Paths, Texts, append_end, texts_at};
use check_command::ends_with;
use checker::verdict_text;
use explain::{ExplainedRun, explain_run, report};
use explain_page::{Extent, append_page};
use file_programs::{Fault, Output, print, write_file};
use program_reports::{Paths as Named, append_json, append_lines};
use rmi_codec::{Parts, next_word};
use run_steps::{append_counts, count_conditions, granule_steps};
use std::alloc::{AllocError, Global};
use std::io;
use std::rt::Files;

/// Writes the output that is asked for of the run in two files. The status is the verdict's.
pub(crate) fn report_run<R: Files + Print + AllocGlobal>(
    rt: &R,
    output: Output<'_>,
    paths: Paths<'_>,
) -> Result<u8, Fault> {
    match output {
        Output::Page { file, around } => write_page(rt, file, around, paths),
        Output::Text => print_run(rt, paths, What::Report),
        Output::Json => print_run(rt, paths, What::Json),
        Output::Gcc => print_run(rt, paths, What::Lines),
        Output::Rows => print_run(rt, paths, What::Rows),
        Output::Granule { address } => match address_in(address) {
            Some(granule) => print_run(rt, paths, What::Granule(granule)),
            None => Err(Fault::Usage(String::from_str(rt.alloc(), NO_ADDRESS)?)),
        },
    }
}

const NO_ADDRESS: &str =
    "error: ADDRESS is a word in lower-case hex, as reports have it\n\nFor more information, try '--help'.\n";

/// What is printed.
#[derive(Clone, Copy)]
enum What {
    Report,
    Json,
    Lines,
    Rows,
    Granule(u64),
}

// The address that a word names.
fn address_in(text: &str) -> Option<u64> {
    let mut parts = Parts::of(text.as_bytes());
    let address = next_word(&mut parts)?;
    match parts.next_part() {
        None => Some(address),
        Some(_) => None,
    }
}

fn explained<'a>(alloc: Global, texts: &'a Texts) -> Result<ExplainedRun<'a>, AllocError> {
    explain_run(
        alloc,
        texts.history.bytes.as_slice(),
        texts.certificate.as_slice(),
    )
}

fn write_page<R: Files + Print + AllocGlobal>(
    rt: &R,
    file: &str,
    around: u64,
    paths: Paths<'_>,
) -> Result<u8, Fault> {
    check_page_file(rt, file, paths)?;
    let texts = texts_at(rt, paths)?;
    write_page_of(rt, file, around, &texts)
}

fn write_page_of<R: Files + Print + AllocGlobal>(
    rt: &R,
    file: &str,
    around: u64,
    texts: &Texts,
) -> Result<u8, Fault> {
    let told = explained(rt.alloc(), texts)?;
    write_page_on(rt, file, around, texts, &told)
}

// The page is whole before its file is opened.
fn write_page_on<R: Files + Print + AllocGlobal>(
    rt: &R,
    file: &str,
    around: u64,
    texts: &Texts,
    told: &ExplainedRun<'_>,
) -> Result<u8, Fault> {
    let page = page_on(rt.alloc(), around, texts, told)?;
    write_file(rt, String::from_str(rt.alloc(), file)?, page.as_slice())?;
    Ok(status_of(told))
}

fn page_on(
    alloc: Global,
    around: u64,
    texts: &Texts,
    told: &ExplainedRun<'_>,
) -> Result<Vec<u8>, AllocError> {
    let mut end = Vec::new(alloc);
    append_end(alloc, texts, &mut end)?;
    let sections = sections_of(alloc, told)?;
    page_with(alloc, around, told, sections.as_slice(), end.as_slice())
}

fn page_with(
    alloc: Global,
    around: u64,
    told: &ExplainedRun<'_>,
    sections: &[Section],
    end: &[u8],
) -> Result<Vec<u8>, AllocError> {
    let folds = folds_of(alloc, sections)?;
    let extent = Extent {
        around: around as usize,
        folds: folds.as_slice(),
    };
    let mut page = Vec::new(alloc);
    append_page(alloc, told, extent, end, &mut page)?;
    Ok(page)
}

fn status_of(told: &ExplainedRun<'_>) -> u8 {
    ends_with(Ok(told.explanation.verdict())).status
}

fn print_run<R: Files + Print + AllocGlobal>(
    rt: &R,
    paths: Paths<'_>,
    what: What,
) -> Result<u8, Fault> {
    let texts = texts_at(rt, paths)?;
    print_run_of(rt, paths, what, &texts)
}

fn print_run_of<R: Files + Print + AllocGlobal>(
    rt: &R,
    paths: Paths<'_>,
    what: What,
    texts: &Texts,
) -> Result<u8, Fault> {
    let told = explained(rt.alloc(), texts)?;
    print_told(rt, paths, what, texts, &told)
}

fn print_told<R: Print + AllocGlobal>(
    rt: &R,
    paths: Paths<'_>,
    what: What,
    texts: &Texts,
    told: &ExplainedRun<'_>,
) -> Result<u8, Fault> {
    let mut text = Vec::new(rt.alloc());
    append_run(rt.alloc(), texts, told, paths, what, &mut text)?;
    print(&mut io::writer(rt), text.as_slice())?;
    Ok(status_of(told))
}

fn append_run(
    alloc: Global,
    texts: &Texts,
    told: &ExplainedRun<'_>,
    paths: Paths<'_>,
    what: What,
    out: &mut Vec<u8>,
) -> Result<(), AllocError> {
    let files = Named {
        history: paths.history,
        certificate: paths.certificate,
    };
    match what {
        What::Report => {
            report(alloc, &told.explanation, out)?;
            append_end(alloc, texts, out)
        }
        What::Json => append_json(alloc, &told.explanation, files, out),
        What::Lines => append_lines(alloc, &told.explanation, files, out),
        What::Rows => append_rows(alloc, told, out),
        What::Granule(granule) => {
            append_granule(alloc, told, granule, out)?;
            append_end(alloc, texts, out)
        }
    }
}

// The verdict's line alone where a text has a malformed line.
fn append_rows(
    alloc: Global,
    told: &ExplainedRun<'_>,
    out: &mut Vec<u8>,
) -> Result<(), AllocError> {
    let Some(run) = &told.run else {
        return verdict_text(&told.explanation.verdict(), out);
    };
    append_counts(
        &count_conditions(alloc, &run.history, &run.certificate)?,
        out,
    )
}

// The verdict's line, and behind it the steps of the granule.
fn append_granule(
    alloc: Global,
    told: &ExplainedRun<'_>,
    granule: u64,
    out: &mut Vec<u8>,
) -> Result<(), AllocError> {
    verdict_text(&told.explanation.verdict(), out)?;
    let Some(run) = &told.run else {
        return Ok(());
    };
    let steps = granule_steps(alloc, &run.history, &run.certificate, granule)?;
    let lines = format!(in alloc; "{steps}")?;
    out.extend_from_slice(lines.as_bytes())
}
