//! Monitors and scenarios on threads, at random, and timed.

mod cpu;
mod cpus;
mod job;
mod random;
mod recorded;
mod runs;
mod scenarios;
mod started;
mod timed;

use crate::lines::number;
use crate::monitors::runs::{Batch, count_replies, judge_runs};
use crate::monitors::scenarios::judge_scenarios;
use crate::monitors::timed::{kind_of, time_rounds};
use anyhow::{Result, bail};
use std::alloc::Global;
use std::sync::Wait;
use std::thread::Threads;
use std::time::Clock;

/// Runs or times what the words ask for.
pub(crate) fn run<R: Print + Threads + Wait + Clock + Sync>(
    rt: &R,
    alloc: Global,
    words: &[&str],
) -> Result<()> {
    match words {
        ["time", granules, locks, cpus, rounds] => {
            let kind = kind_of(granules, locks)?;
            time_rounds(rt, alloc, kind, number(cpus)?, number(rounds)?)
        }
        ["scenarios", first, count] => judge_scenarios(rt, alloc, number(first)?, number(count)?),
        [kind, first, count, commands] => {
            run_batch(rt, alloc, kind, batch_of(first, count, commands)?)
        }
        _ => bail!("runs, stops, all, replies, time, scenarios or gate, and its words?"),
    }
}

fn batch_of(first: &str, count: &str, commands: &str) -> Result<Batch> {
    Ok(Batch {
        first: number(first)?,
        count: number(count)?,
        commands: number(commands)?,
    })
}

// Judges the runs of a batch, those in which one CPU is stopped, or both, or counts the replies of the first.
fn run_batch<R: Print + Threads + Wait + Sync>(
    rt: &R,
    alloc: Global,
    kind: &str,
    batch: Batch,
) -> Result<()> {
    match kind {
        "runs" => judge_runs(rt, alloc, batch, false),
        "stops" => judge_runs(rt, alloc, batch, true),
        "all" => {
            judge_runs(rt, alloc, batch, false)?;
            judge_runs(rt, alloc, batch, true)
        }
        "replies" => count_replies(rt, alloc, batch),
        _ => bail!("runs, stops, all or replies?"),
    }
}
