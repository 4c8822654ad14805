//! Random runs, of which each text is judged on the way and at the end.

use crate::judged::replies_of;
use crate::worlds::turning::{finish, is_yes, opened_for, turned};
use anyhow::{Result, bail};
use drawn_scenarios::Draft;
use scenario::Due;
use std::alloc::Global;
use world::World;

/// At how many places of a run it is judged before its end.
const PLACES: usize = 10;

const DRAFT: Draft = Draft {
    cpus: 2,
    more: 6,
    commands: 24,
    edged: 0,
    turns: 160,
};

/// What came out of some runs.
#[derive(Clone, Copy, Default)]
struct Counts {
    judgements: u64,
    yes: u64,
    replies: u64,
    ok: u64,
}

/// Judges so many runs, prints each judgement that isn't `yes`, and then how many were. An error where one wasn't, and where
/// half of the commands or more were refused.
pub(crate) fn judge_runs(rt: &impl Print, alloc: Global, first: u64, count: u64) -> Result<()> {
    let mut counts = Counts::default();
    for seed in first..first.saturating_add(count) {
        judge_run(rt, alloc, seed, &mut counts)?;
    }
    let Counts {
        judgements,
        yes,
        replies,
        ok,
    } = counts;
    println!(rt; "runs: {yes} of {judgements} judgements are yes")?;
    if yes != judgements {
        bail!("not every judgement is yes");
    }
    if ok <= replies / 2 {
        bail!("most commands were refused");
    }
    Ok(())
}

fn judge_run(rt: &impl Print, alloc: Global, seed: u64, counts: &mut Counts) -> Result<()> {
    let scenario = DRAFT.drawn(alloc, seed)?;
    let mut world = opened_for(alloc, &scenario)?;
    judge_parts(rt, alloc, seed, &mut world, scenario.turns(), counts)?;
    let (replies, ok) = replies_of(&world.history(alloc)?);
    counts.replies = counts.replies.wrapping_add(replies);
    counts.ok = counts.ok.wrapping_add(ok);
    Ok(())
}

// Takes the turns, after each part of which the run is judged, and lets the world come to rest.
fn judge_parts(
    rt: &impl Print,
    alloc: Global,
    seed: u64,
    world: &mut World,
    turns: &[Due],
    counts: &mut Counts,
) -> Result<()> {
    for part in turns.chunks((turns.len() / PLACES).max(1)) {
        go_on(world, alloc, part)?;
        judge(rt, alloc, seed, world, counts)?;
    }
    finish(world, alloc)?;
    judge(rt, alloc, seed, world, counts)
}

fn go_on(world: &mut World, alloc: Global, turns: &[Due]) -> Result<()> {
    for turn in turns {
        turned(world, alloc, turn.cpu, turn.will)?;
    }
    Ok(())
}

fn judge(
    rt: &impl Print,
    alloc: Global,
    seed: u64,
    world: &World,
    counts: &mut Counts,
) -> Result<()> {
    let is_yes = is_yes(rt, alloc, seed, world)?;
    counts.judgements = counts.judgements.wrapping_add(1);
    counts.yes = counts.yes.wrapping_add(u64::from(is_yes));
    Ok(())
}
