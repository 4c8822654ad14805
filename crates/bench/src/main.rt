//! Runs worlds of turns and monitors on threads at random, compares replies and machines, and times these and parts. `docs/SPEED.md` has
//! its arguments. It prints counts and times, which no proof speaks of, and ends with status 1 where a judgement isn't `yes` or a reply
//! isn't equal. `bench gate` runs some of each kind, of which the lines that it prints are known.
//! It depends on what it times and on `checker`, and nothing on it: the scripts in `bench` run it.
#![tactic(auto)]

mod judged;
mod lines;
mod monitors;
mod parts;
mod timing;
mod worlds;

use crate::lines::lines_of;
use anyhow::Result;
use std::alloc::Global;
use std::env;
use std::sync::Wait;
use std::thread::Threads;
use std::time::Clock;

/// What `gate` runs, in turn.
const GATE: [&str; 10] = [
    "measure words 1000",
    "walk 2",
    "queue queue 2",
    "queue mutex 2",
    "world all 1 20",
    "world stops 1 1",
    "world edges 1 5",
    "world machines 1 20",
    "monitor all 1 20 1000",
    "monitor scenarios 1 5",
];

fn main(rt: HostRuntime) -> Result<()> {
    let given: Vec<String> = env::args(&rt)?.collect(rt.alloc())?;
    let lines = lines_of(rt.alloc(), given.as_slice(), &GATE)?;
    for words in &lines {
        run(&rt, rt.alloc(), words.as_slice())?;
    }
    Ok(())
}

fn run<R: Print + Threads + Wait + Clock + Sync>(
    rt: &R,
    alloc: Global,
    words: &[&str],
) -> Result<()> {
    match words {
        ["world", words @ ..] => worlds::run(rt, alloc, words),
        ["monitor", words @ ..] => monitors::run(rt, alloc, words),
        _ => parts::run(rt, alloc, words),
    }
}
