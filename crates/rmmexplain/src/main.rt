//! `rmmexplain HISTORY CERT`: prints the verdict on two files with the reason for it. The status is that of `rmmcheck check`.
//! `--html FILE` writes that to FILE, as one web page with a diagram, and prints nothing; `--json` prints it as one object, `--format gcc` as
//! lines `FILE:LINE: error: ..`. `--granule ADDRESS` prints the steps of one granule, and `--rows` how often each condition refused.
//! `rmmexplain --scenario FILE` prints what a scenario file runs, or what is wrong in it: status 2.
#![tactic(auto)]

mod folds;
mod page_file;
mod run;
mod texts;

use crate::run::report_run;
use crate::texts::{Paths, bytes_at};
use file_programs::{
    Fault, Judged, Report, append_judged, arguments_of, end, print, report_asked, shown,
    version_text,
};
use std::io;
use std::process::ExitCode;
use std::rt::{Env, Files};

fn main(rt: HostRuntime) -> ExitCode {
    ExitCode::from(end(&rt, "rmmexplain", reported(&rt)))
}

fn reported<R: Env + Files + Print + AllocGlobal>(rt: &R) -> Result<u8, Fault> {
    let arguments = arguments_of(rt)?;
    let version = version_text(rt.alloc())?;
    match report_asked(rt.alloc(), version.as_str(), arguments.as_slice()) {
        Ok(Report::Scenario(file)) => print_scenario(rt, file),
        Ok(
            Report::Run {
                output,
                history,
                certificate,
            },
        ) => report_run(
            rt,
            output,
            Paths {
                history,
                certificate,
            },
        ),
        Err(refusal) => shown(rt, refusal),
    }
}

// 2 where the scenario is invalid.
fn print_scenario<R: Files + Print + AllocGlobal>(rt: &R, file: &str) -> Result<u8, Fault> {
    let bytes = bytes_at(rt, file)?;
    let mut text = Vec::new(rt.alloc());
    let fault = scenario_report::report(rt.alloc(), bytes.as_slice(), &mut text)?;
    let judged = Judged {
        name: "scenario",
        bytes: bytes.as_slice(),
    };
    append_judged(rt.alloc(), &[judged], &mut text)?;
    print(&mut io::writer(rt), text.as_slice())?;
    Ok(if fault.is_some() { 2 } else { 0 })
}
