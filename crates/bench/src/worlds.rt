//! Worlds of turns at random, replies and machines compared, and turns for a script to time.

mod machines;
mod replies;
mod runs;
mod stops;
mod turning;
mod turns;

use crate::lines::number;
use crate::worlds::machines::compare_machines;
use crate::worlds::replies::{DRAFTED, EDGED, compare_replies};
use crate::worlds::runs::judge_runs;
use crate::worlds::stops::judge_stops;
use crate::worlds::turns::{Work, take_turns};
use anyhow::{Result, bail};
use std::alloc::Global;

/// What is wanted, and two numbers.
pub(crate) fn run(rt: &impl Print, alloc: Global, words: &[&str]) -> Result<()> {
    let [kind, first, count] = *words else {
        bail!("what, and two numbers? or gate?");
    };
    run_kind(rt, alloc, kind, number(first)?, number(count)?)
}

// Judges the runs of so many seeds from the first on, compares the replies of so many programs on one CPU, does both, ends each
// CPU at each turn of so many runs, gives so many programs to two machines, or lets so many CPUs (the first number) take so many turns.
fn run_kind(rt: &impl Print, alloc: Global, kind: &str, first: u64, count: u64) -> Result<()> {
    match kind {
        "runs" => judge_runs(rt, alloc, first, count),
        "replies" => compare_replies(rt, alloc, "replies", DRAFTED, first, count),
        "edges" => compare_replies(rt, alloc, "replies at edges", EDGED, first, count),
        "stops" => judge_stops(rt, alloc, first, count),
        "machines" => compare_machines(rt, alloc, first, count),
        "all" => {
            judge_runs(rt, alloc, first, count)?;
            compare_replies(rt, alloc, "replies", DRAFTED, first, count)
        }
        "turns" => take_turns(rt, alloc, Work::Lives, first, count),
        "realms" => take_turns(rt, alloc, Work::Realms, first, count),
        "realm" => take_turns(rt, alloc, Work::Realm, first, count),
        _ => bail!("runs, replies, edges, stops, machines, all, turns, realms or realm?"),
    }
}
