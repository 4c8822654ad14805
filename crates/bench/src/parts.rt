//! Times of measurements, walks in a realm's tables, and events on their way through a queue.

mod measures;
mod queues;
mod walks;

use crate::lines::number;
use anyhow::{Result, bail};
use std::alloc::Global;
use std::sync::Wait;
use std::thread::Threads;
use std::time::Clock;

/// Times what the words ask for.
pub(crate) fn run<R: Print + Threads + Wait + Clock + Sync>(
    rt: &R,
    alloc: Global,
    words: &[&str],
) -> Result<()> {
    match words {
        ["measure", kind, count] => measures::extend(rt, kind, number(count)?),
        ["walk", rounds] => walks::walk_all(rt, alloc, number(rounds)?),
        ["queue", kind, producers] => count_events(rt, alloc, kind, number(producers)?),
        ["queue", kind, producers, rounds] => {
            time_events(rt, alloc, kind, number(producers)?, number(rounds)?)
        }
        _ => bail!("measure, walk, queue, world, monitor or gate, and its words?"),
    }
}

// Prints how many events came through in a round.
fn count_events<R: Print + Threads + Wait + Clock + Sync>(
    rt: &R,
    alloc: Global,
    kind: &str,
    producers: u64,
) -> Result<()> {
    let timing = queues::timed(rt, alloc, kind, producers, 1)?;
    println!(rt; "{}", timing.count)?;
    Ok(())
}

// Prints how many events came through in so many rounds, and in what time.
fn time_events<R: Print + Threads + Wait + Clock + Sync>(
    rt: &R,
    alloc: Global,
    kind: &str,
    producers: u64,
    rounds: u64,
) -> Result<()> {
    let timing = queues::timed(rt, alloc, kind, producers, rounds)?;
    Ok(timing.print(rt)?)
}
