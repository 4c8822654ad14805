//! Runs in which each CPU is ended at each turn, stopped in one sweep and told to give up in another, of which each is judged.

use crate::worlds::turning::{finish, is_yes, opened_for, turned};
use anyhow::{Context, Result, bail};
use drawn_scenarios::{Draft, scenario_of};
use memory_map::Config;
use rmi_codec::read_command;
use rmm_spec::Command;
use scenario::{Due, Scenario};
use std::alloc::{AllocError, Global};
use world::{Will, World};

/// Two CPUs delegate one granule.
const ONE_GRANULE: [&str; 2] = ["c4000151 1000", "c4000151 1000"];

/// One CPU makes a realm with two tables and gives it a page, the other destroys the lower table.
const TABLES: [&str; 2] = [
    "c4000151 1000\nc4000151 2000\nc4000151 3000\nc4000151 4000\nc4000151 5000\n\
    c4000158 1000 2000 27 1 1 0\nc400015d 1000 3000 0 2\nc400015d 1000 4000 0 3\nc4000154 1000 5000 0",
    "c400015e 1000 0 3",
];

/// What is drawn. Of its turns it counts only whose each is.
const DRAFT: Draft = Draft {
    cpus: 2,
    more: 2,
    commands: 12,
    edged: 0,
    turns: 96,
};

/// What came out of some runs.
#[derive(Clone, Copy, Default)]
struct Counts {
    judgements: u64,
    yes: u64,
}

/// Judges the runs of two small worlds and of so many that are drawn, each ended in every way, prints each judgement that isn't
/// `yes`, and then how many were. An error where one wasn't.
pub(crate) fn judge_stops(rt: &impl Print, alloc: Global, first: u64, count: u64) -> Result<()> {
    let mut counts = Counts::default();
    judge_ends(
        rt,
        alloc,
        0,
        &written(alloc, 4, ONE_GRANULE, 0)?,
        &mut counts,
    )?;
    judge_ends(rt, alloc, 0, &written(alloc, 16, TABLES, 62)?, &mut counts)?;
    for seed in first..first.saturating_add(count) {
        judge_ends(rt, alloc, seed, &DRAFT.drawn(alloc, seed)?, &mut counts)?;
    }
    let Counts { judgements, yes } = counts;
    println!(rt; "stops: {yes} of {judgements} judgements are yes")?;
    if yes != judgements {
        bail!("not every judgement is yes");
    }
    Ok(())
}

// Two programs that stand as texts. CPU 0 has so many turns before both go on in turn, which is listed for 24 turns.
fn written(alloc: Global, granules: u64, texts: [&str; 2], alone: u64) -> Result<Scenario> {
    let config = Config::new(granules, 2).context("no such machine")?;
    let programs = programs_of(alloc, texts)?;
    scenario_of(config, programs, 1, turns_of(alloc, alone)?)
}

fn programs_of(alloc: Global, texts: [&str; 2]) -> Result<Vec<Vec<Command>>> {
    let mut programs = Vec::new(alloc);
    for text in texts {
        programs.push(program_of(alloc, text)?)?;
    }
    Ok(programs)
}

fn program_of(alloc: Global, text: &str) -> Result<Vec<Command>> {
    let mut program = Vec::new(alloc);
    for line in text.lines() {
        program.push(read_command(line)?)?;
    }
    Ok(program)
}

fn turns_of(alloc: Global, alone: u64) -> Result<Vec<Due>, AllocError> {
    let first = Due {
        cpu: 0,
        will: Will::Go,
    };
    let mut turns = vec![in alloc; first; alone as usize]?;
    for turn in 0..24 {
        turns.push(Due {
            cpu: turn % 2,
            ..first
        })?;
    }
    Ok(turns)
}

// Judges a run for each turn, and one behind the last, for each CPU and each way to end it there.
fn judge_ends(
    rt: &impl Print,
    alloc: Global,
    seed: u64,
    scenario: &Scenario,
    counts: &mut Counts,
) -> Result<()> {
    for place in 0..=scenario.turns().len() {
        for cpu in 0..scenario.config().cpus() {
            let stop = Due {
                cpu,
                will: Will::Stop,
            };
            counts.count(ended(rt, alloc, seed, scenario, place, stop)?);
            let end = Due {
                cpu,
                will: Will::GiveUp,
            };
            counts.count(ended(rt, alloc, seed, scenario, place, end)?);
        }
    }
    Ok(())
}

impl Counts {
    fn count(&mut self, is_yes: bool) {
        self.judgements = self.judgements.wrapping_add(1);
        self.yes = self.yes.wrapping_add(u64::from(is_yes));
    }
}

// Whether the run in which a CPU is told so before the turn at this place is judged yes.
fn ended(
    rt: &impl Print,
    alloc: Global,
    seed: u64,
    scenario: &Scenario,
    place: usize,
    end: Due,
) -> Result<bool> {
    let mut world = opened_for(alloc, scenario)?;
    turn_to_end(&mut world, alloc, scenario.turns(), place, end)?;
    is_yes(rt, alloc, seed, &world)
}

// Lets each CPU go on in its turns, ends one before the turn at this place, and lets the world come to rest.
fn turn_to_end(
    world: &mut World,
    alloc: Global,
    turns: &[Due],
    place: usize,
    end: Due,
) -> Result<()> {
    for (number, turn) in turns.iter().enumerate() {
        if number == place {
            turned(world, alloc, end.cpu, end.will)?;
        }
        turned(world, alloc, turn.cpu, Will::Go)?;
    }
    if place == turns.len() {
        turned(world, alloc, end.cpu, end.will)?;
    }
    finish(world, alloc)
}
