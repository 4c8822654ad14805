//! Random runs, of which each is judged.

use crate::judged::{are_yes, replies_of};
use crate::monitors::random::{CPUS, GRANULES, case, drawn_jobs};
use crate::monitors::recorded::recorded;
use anyhow::{Context, Result, bail};
use memory_map::Config;
use monitor::{Certificate, History, Queue};
use rand_core::SeedableRng;
use rand_xoshiro::Xoshiro256PlusPlus;
use std::alloc::Global;
use std::marker::Brand;
use std::sync::Wait;
use std::sync::ledger::Blank;
use std::thread::Threads;

/// Which runs are judged: so many seeds from the first on, each with so many commands a CPU.
#[derive(Clone, Copy)]
pub(crate) struct Batch {
    pub(crate) first: u64,
    pub(crate) count: u64,
    pub(crate) commands: u64,
}

/// Judges a run of each seed, prints each judgement that isn't `yes`, and then how many were. An error where one wasn't.
pub(crate) fn judge_runs<R: Print + Threads + Wait + Sync>(
    rt: &R,
    alloc: Global,
    batch: Batch,
    with_stop: bool,
) -> Result<()> {
    let Batch {
        first,
        count,
        commands,
    } = batch;
    let mut yes: u64 = 0;
    for seed in first..first.saturating_add(count) {
        let is_yes = judge_run(rt, alloc, seed, commands, with_stop)?;
        yes = yes.wrapping_add(u64::from(is_yes));
    }
    let kind = if with_stop {
        "with a stop"
    } else {
        "to the end"
    };
    println!(rt; "{kind}: {yes} of {count} are yes")?;
    if yes != count {
        bail!("not every judgement is yes");
    }
    Ok(())
}

// Whether the verdict on the run of a seed is `yes`.
fn judge_run<R: Print + Threads + Wait + Sync>(
    rt: &R,
    alloc: Global,
    seed: u64,
    commands: u64,
    with_stop: bool,
) -> Result<bool> {
    let (history, certificate) = run_of(rt, alloc, seed, commands, with_stop)?;
    Ok(are_yes(rt, alloc, seed, &history, &certificate)?)
}

/// Prints how many replies the runs have, and how many of those are `ok`. Both depend on the schedule.
pub(crate) fn count_replies<R: Print + Threads + Wait + Sync>(
    rt: &R,
    alloc: Global,
    batch: Batch,
) -> Result<()> {
    let Batch {
        first,
        count,
        commands,
    } = batch;
    let (mut all, mut ok): (u64, u64) = (0, 0);
    for seed in first..first.saturating_add(count) {
        let (replies, accepted) = run_replies(rt, alloc, seed, commands)?;
        all = all.wrapping_add(replies);
        ok = ok.wrapping_add(accepted);
    }
    println!(rt; "{ok} of {all} replies are ok")?;
    Ok(())
}

// How many replies the run of a seed has, and how many of them are `ok`.
fn run_replies<R: Threads + Wait + Sync>(
    rt: &R,
    alloc: Global,
    seed: u64,
    commands: u64,
) -> Result<(u64, u64)> {
    let (history, _certificate) = run_of(rt, alloc, seed, commands, false)?;
    Ok(replies_of(&history))
}

// A run of eight CPUs whose queue has room, or mostly doesn't.
fn run_of<R: Threads + Wait + Sync>(
    rt: &R,
    alloc: Global,
    seed: u64,
    commands: u64,
    with_stop: bool,
) -> Result<(History, Certificate)> {
    let mut random = Xoshiro256PlusPlus::seed_from_u64(seed);
    let config = Config::new(GRANULES, CPUS).context("no such machine")?;
    let capacity = if case(&mut random, 4) == 0 { 64 } else { 65536 };
    let jobs = drawn_jobs(alloc, commands, with_stop, &mut random)?;
    let blank = Blank::new(u64::from(config.cpus()));
    let queue = Queue::new(alloc, &config, capacity)?;
    recorded::<Brand, R>(rt, alloc, blank, config, queue, jobs.as_slice())
}
