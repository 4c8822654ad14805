//! Orders of histories. What should be found stands in the file `stdout` beside this crate: whether there is an order was told by a plain
//! search over all orders, written apart, and an order's count is that of the calls that returned, with those added that have to have
//! taken effect.

ghost use Rattle.std.specs.Prelude.{⊤};

use anyhow::{Context, Result, bail};
use certificate::Certificate;
use checker::{Verdict, judged_order, verdict_text};
use finding::{Advance, Found, Watch, find, find_watched};
use history::{History, HistoryFault};
use std::alloc::{AllocError, Global};
use std::fs;
use std::rt::Files;

/// How many offers a search makes.
const OFFERS: u64 = 100_000;

/// The verdict on the order of a history that is found, or that there is none.
pub(crate) fn outcome<R: Files + AllocGlobal>(rt: &R, file: &str) -> Result<String> {
    let bytes = fs::read(rt, file).context(file)?;
    outcome_of(rt.alloc(), bytes.as_slice())
}

fn outcome_of(alloc: Global, bytes: &[u8]) -> Result<String> {
    match history::read(alloc, bytes) {
        Ok(history) => found(alloc, &history),
        Err(HistoryFault::BadLine(line)) => Ok(format!(in alloc; "fault history {line}")?),
        Err(HistoryFault::NoMemory) => bail!("no memory"),
    }
}

// Stops a search as soon as it is asked.
#[derive(Drop)]
struct Stopping;

impl Watch for Stopping {
    ghost has_stopped = { λ _. ⊤ };

    fn goes_on(&mut self, _advance: Advance) -> bool {
        false
    }
}

// Whether a search that may make no offer gives up, as it has to.
fn gives_up(alloc: Global, history: &History) -> Result<bool, AllocError> {
    Ok(matches!(find(alloc, history, 0)?, Found::GaveUp(_)))
}

// Whether one that is stopped does.
fn stops(alloc: Global, history: &History) -> Result<bool, AllocError> {
    let found = find_watched(alloc, history, OFFERS, &mut Stopping)?;
    Ok(matches!(found, Found::GaveUp(_)))
}

fn found(alloc: Global, history: &History) -> Result<String> {
    if !gives_up(alloc, history)? {
        bail!("an answer without an offer");
    }
    if !stops(alloc, history)? {
        bail!("an answer after a stop");
    }
    match find(alloc, history, OFFERS)? {
        Found::Order(order) => judged(alloc, history, &order),
        Found::None(_) => Ok(String::from_str(alloc, "none")?),
        Found::GaveUp(_) => Ok(String::from_str(alloc, "gave up")?),
    }
}

fn judged(alloc: Global, history: &History, order: &Certificate) -> Result<String> {
    let judged = judged_order(alloc, history, order)?;
    line_of(alloc, &judged.verdict)
}

fn line_of(alloc: Global, verdict: &Verdict) -> Result<String> {
    let mut line = Vec::new(alloc);
    verdict_text(verdict, &mut line)?;
    let text = std::str::from_utf8(line.as_slice())?;
    Ok(String::from_str(alloc, text.trim_end())?)
}
