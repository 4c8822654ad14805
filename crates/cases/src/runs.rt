//! Scenarios that are played. What should come of each stands in the file `stdout` beside this crate, and was worked out by hand;
//! but what is said of a file that is no TOML are the words of the crate `toml`.

use anyhow::{Context, Result};
use scenario::read_scenario;
use scenario_report::report;
use std::alloc::Global;
use std::fs;
use std::rt::Files;
use world_runs::run_text;

/// The report of a scenario's fault, or the last line of its run.
pub(crate) fn outcome<R: Files + AllocGlobal>(rt: &R, file: &str) -> Result<String> {
    let bytes = fs::read(rt, file).context(file)?;
    outcome_of(rt.alloc(), bytes.as_slice())
}

fn outcome_of(alloc: Global, bytes: &[u8]) -> Result<String> {
    let mut text = Vec::new(alloc);
    if report(alloc, bytes, &mut text)?.is_some() {
        let report = std::str::from_utf8(text.as_slice())?;
        return Ok(String::from_str(alloc, report.trim_end())?);
    }
    last_line(alloc, bytes, &mut text)
}

fn last_line(alloc: Global, bytes: &[u8], text: &mut Vec<u8>) -> Result<String> {
    let scenario = read_scenario(alloc, bytes)?;
    run_text(alloc, &scenario, text)?;
    let line = std::str::from_utf8(text.as_slice())?.lines().last();
    Ok(String::from_str(alloc, line.unwrap_or(""))?)
}
