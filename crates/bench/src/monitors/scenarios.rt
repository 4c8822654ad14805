//! Random scenarios, played on threads, of which each is judged.

use crate::judged::is_yes;
use anyhow::{Result, bail};
use drawn_scenarios::Draft;
use monitor_runs::threads_text;
use std::alloc::Global;
use std::sync::Wait;
use std::thread::Threads;

/// Eight CPUs.
const DRAFT: Draft = Draft {
    cpus: 8,
    more: 0,
    commands: 100,
    edged: 0,
    turns: 0,
};

/// Plays a scenario of each seed, prints each verdict that isn't `yes`, and then how many were. An error where one wasn't.
pub(crate) fn judge_scenarios<R: Print + Threads + Wait + Sync>(
    rt: &R,
    alloc: Global,
    first: u64,
    count: u64,
) -> Result<()> {
    let mut yes: u64 = 0;
    for seed in first..first.saturating_add(count) {
        yes = yes.wrapping_add(u64::from(judge_scenario(rt, alloc, seed)?));
    }
    println!(rt; "scenarios: {yes} of {count}")?;
    if yes != count {
        bail!("not every verdict is yes");
    }
    Ok(())
}

// Plays the scenario of a seed, and returns whether its verdict is `yes`.
fn judge_scenario<R: Print + Threads + Wait + Sync>(
    rt: &R,
    alloc: Global,
    seed: u64,
) -> Result<bool> {
    let scenario = DRAFT.drawn(alloc, seed)?;
    let mut text = Vec::new(alloc);
    let verdict = threads_text(rt, alloc, &scenario, &mut text)?;
    Ok(is_yes(rt, alloc, seed, &verdict)?)
}
