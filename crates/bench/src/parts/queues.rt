//! Events from some threads to one that writes them into a history.

mod locked;
mod queued;

use crate::timing::Timing;
use anyhow::{Context, Result, bail};
use memory_map::Config;
use std::alloc::Global;
use std::sync::Wait;
use std::thread::Threads;
use std::time::Clock;

/// How many events a queue holds: more than there are in a round.
const CAPACITY: usize = 65536;

/// What each producer calls, and how that returns.
const CALL: &str = "c4000151 1000";

const REPLY: &str = "ok";

/// How often a producer calls and returns in a round.
const CALLS: u32 = 8000;

/// How many events came through in so many rounds, and in what time. Nothing is timed but the threads.
pub(crate) fn timed<R: Threads + Wait + Clock + Sync>(
    rt: &R,
    alloc: Global,
    kind: &str,
    producers: u64,
    rounds: u64,
) -> Result<Timing> {
    let is_locked = match kind {
        "queue" => false,
        "mutex" => true,
        _ => bail!("queue or mutex?"),
    };
    let config = Config::new(4, producers).context("1 to 8 producers")?;
    let mut timing = Timing::none();
    for _round in 0..rounds {
        let taken = if is_locked {
            locked::round(rt, alloc, config)?
        } else {
            queued::round(rt, alloc, config)?
        };
        timing = timing.and(taken);
    }
    Ok(timing)
}
