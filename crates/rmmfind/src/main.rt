//! `rmmfind [--limit N] [--seconds S] [--explain] [--json] HISTORY`: prints an order of the history's calls that is a linearization, as a
//! certificate: status 0. Where there is none it prints `none`, and the line of the return that no order survives, where it knows that: status 1.
//! Where it tried N steps or S seconds passed without an answer it prints `gave up`: status 4. With `--json` the answer is one object. Where
//! standard error is a terminal, it shows there how far it is.
#![tactic(auto)]

mod explaining;
mod following;

use crate::explaining::{append_longest, append_reached};
use crate::following::Follower;
use check_command::ends_with;
use checker::{Verdict, verdict_text};
use file_programs::{
    Fault, HistoryRead, Judged, Search, append_judged, arguments_of, end, history_at, judged_name,
    print, search_asked, shown, version_text,
};
use finding::{Found, Watch, append_found, find_watched, status_of};
use program_reports::{Answer, append_answer};
use std::alloc::{AllocError, Global};
use std::io;
use std::io::IsTerminal;
use std::process::ExitCode;
use std::rt::{Clock, Env, Files};

fn main(rt: HostRuntime) -> ExitCode {
    let shows = rt.stderr().is_terminal();
    ExitCode::from(end(&rt, "rmmfind", found(&rt, shows)))
}

// `shows` tells whether the search is shown on standard error.
fn found<R: Env + Files + Clock + Print + Eprint + AllocGlobal>(
    rt: &R,
    shows: bool,
) -> Result<u8, Fault> {
    let arguments = arguments_of(rt)?;
    let version = version_text(rt.alloc())?;
    match search_asked(rt.alloc(), version.as_str(), arguments.as_slice()) {
        Ok(search) => print_answer(rt, search, shows),
        Err(refusal) => shown(rt, refusal),
    }
}

fn print_answer<R: Files + Clock + Print + Eprint + AllocGlobal>(
    rt: &R,
    search: Search<'_>,
    shows: bool,
) -> Result<u8, Fault> {
    let path = String::from_str(rt.alloc(), search.history)?;
    let read = history_at(rt, path)?;
    let mut text = Vec::new(rt.alloc());
    let status = append_search(rt, &read, search, shows, &mut text)?;
    print(&mut io::writer(rt), text.as_slice())?;
    Ok(status)
}

// The status, with what is to be printed.
fn append_search<R: Clock + Eprint + AllocGlobal>(
    rt: &R,
    read: &HistoryRead,
    search: Search<'_>,
    shows: bool,
    text: &mut Vec<u8>,
) -> Result<u8, AllocError> {
    let alloc = rt.alloc();
    let history = match &read.history {
        Ok(history) => history,
        Err(line) => return append_fault(alloc, *line, search, text),
    };
    let lines = history.len().saturating_add(1);
    let time = search.seconds.map(|seconds| seconds.saturating_mul(1000));
    let mut follower = Follower::new(rt, lines, time, shows);
    let found = find_watched(alloc, history, search.limit, &mut follower);
    follower.clear();
    let found = found?;
    if search.has_json {
        append_answer(alloc, answer_of(&found), text)?;
        return Ok(status_of(&found));
    }
    append_found(&found, text)?;
    if search.has_reasons {
        // looking for the longest order takes twice as long as it searches
        let half = time.map(|most| most / 2);
        let mut follower = Follower::new(rt, lines, half, shows);
        let appended = append_reasons(alloc, read, search.limit, &found, &mut follower, text);
        follower.clear();
        appended?;
    }
    Ok(status_of(&found))
}

// How far orders got, where none of all calls is found.
fn append_reasons<W: Watch>(
    alloc: Global,
    read: &HistoryRead,
    limit: u64,
    found: &Found,
    watch: &mut W,
    text: &mut Vec<u8>,
) -> Result<(), AllocError> {
    let Ok(history) = &read.history else {
        return Ok(());
    };
    let bytes = read.bytes.as_slice();
    match found {
        Found::Order(_) => return Ok(()),
        Found::None(place) => append_reached(alloc, bytes, history, limit, *place, watch, text)?,
        Found::GaveUp(_) => append_longest(alloc, bytes, history, limit, watch, text)?,
    }
    append_end(alloc, read, text)
}

// A malformed line.
fn append_fault(
    alloc: Global,
    line: u64,
    search: Search<'_>,
    text: &mut Vec<u8>,
) -> Result<u8, AllocError> {
    let fault = Verdict::HistoryFault(line);
    if search.has_json {
        append_answer(alloc, Answer::Fault(line), text)?;
    } else {
        verdict_text(&fault, text)?;
    }
    Ok(ends_with(Ok(fault)).status)
}

fn answer_of(found: &Found) -> Answer<'_> {
    match found {
        Found::Order(order) => Answer::Order(order),
        Found::None(None) => Answer::None(None),
        Found::None(Some(place)) => Answer::None(Some(u64::from(*place) + 2)),
        Found::GaveUp(_) => Answer::GaveUp,
    }
}

// The end of the report on a history of which no linearization is found.
fn append_end(alloc: Global, read: &HistoryRead, text: &mut Vec<u8>) -> Result<(), AllocError> {
    let name = judged_name(alloc, read)?;
    let history = Judged {
        name: name.as_str(),
        bytes: read.bytes.as_slice(),
    };
    append_judged(alloc, &[history], text)
}
