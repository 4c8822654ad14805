//! Scenarios that are drawn.

use crate::dice::Dice;
use crate::drafting::{Amount, Edges, drafted_programs};
use crate::schedule::Schedule;
use crate::sharing::Sharing;
use anyhow::{Context, Result, bail};
use memory_map::Config;
use rmm_spec::Command;
use scenario::{Due, Scenario, is_scenario};
use std::alloc::{AllocError, Global};

/// How large the scenarios are that are drawn.
#[derive(Clone, Copy)]
pub struct Draft {
    /// They have so many CPUs, and up to so many more.
    pub cpus: u8,
    pub more: u8,
    /// So many commands a CPU, on average, and behind each of them so many with edges as words.
    pub commands: u8,
    pub edged: u8,
    /// So many listed turns a CPU, on average.
    pub turns: u8,
}

impl Draft {
    /// The scenario of a seed: a machine, programs of all commands, and the turns of the schedule for which they were drafted.
    pub fn drawn(self, alloc: Global, seed: u64) -> Result<Scenario> {
        let mut dice = Dice::new(seed);
        let drawn = u64::from(self.cpus) + dice.below(u64::from(self.more) + 1);
        let cpus = drawn.min(8);
        let sharing = Sharing::drawn(&mut dice);
        let config = Config::new(sharing.granules(cpus), cpus).context("no such machine")?;
        let schedule_seed = dice.word();
        let schedule = Schedule::new(&config, schedule_seed);
        let amount = Amount {
            commands: cpus * u64::from(self.commands),
            edges: Edges::After(self.edged),
        };
        let programs = drafted_programs(alloc, &config, sharing, amount, schedule, &mut dice)?;
        let schedule = Schedule::new(&config, schedule_seed);
        let turns = listed_turns(alloc, schedule, cpus * u64::from(self.turns))?;
        let queue = if dice.one_in(4) { 64 } else { 4096 };
        scenario_of(config, programs, queue, turns)
    }
}

/// The next turns of a schedule.
pub(crate) fn listed_turns(
    alloc: Global,
    mut schedule: Schedule,
    count: u64,
) -> Result<Vec<Due>, AllocError> {
    let mut turns = Vec::new(alloc);
    for _turn in 0..count {
        turns.push(schedule.next())?;
    }
    Ok(turns)
}

/// The scenario of these parts, which is played to its end.
pub fn scenario_of(
    config: Config,
    programs: Vec<Vec<Command>>,
    queue: usize,
    turns: Vec<Due>,
) -> Result<Scenario> {
    let limit = 10_000_000;
    if !is_scenario(&config, &programs, queue, &turns, limit) {
        bail!("no scenario");
    }
    Ok(Scenario::new(config, programs, queue, turns, limit))
}
