//! Worlds, opened and turned.

use crate::judged::are_yes;
use anyhow::{Result, bail};
use fixtures::can_open;
use memory_map::Config;
use rmm_spec::Command;
use scenario::{Scenario, copied_programs};
use std::alloc::Global;
use world::{Turned, Will, World};

/// The most rounds in which a world comes to rest.
const MOST_ROUNDS: u32 = 100_000;

pub(crate) fn opened(alloc: Global, config: &Config, programs: Vec<Vec<Command>>) -> Result<World> {
    if !can_open(config, &programs) {
        bail!("the programs can't be opened");
    }
    Ok(World::new(alloc, config, programs)?)
}

pub(crate) fn opened_for(alloc: Global, scenario: &Scenario) -> Result<World> {
    let programs = copied_programs(alloc, scenario.programs())?;
    opened(alloc, scenario.config(), programs)
}

pub(crate) fn turned(world: &mut World, alloc: Global, cpu: u8, will: Will) -> Result<Turned> {
    if cpu >= world.config().cpus() {
        bail!("no such CPU");
    }
    Ok(world.turn(alloc, cpu, will)?)
}

/// All CPUs go on until none of them makes a step.
pub(crate) fn finish(world: &mut World, alloc: Global) -> Result<()> {
    for _round in 0..MOST_ROUNDS {
        if !moves(world, alloc)? {
            return Ok(());
        }
    }
    bail!("the world doesn't come to rest")
}

// Each CPU has one turn. Whether one of them made a step.
fn moves(world: &mut World, alloc: Global) -> Result<bool> {
    let mut has_moved = false;
    for cpu in 0..world.config().cpus() {
        if let Turned::Did(_) = turned(world, alloc, cpu, Will::Go)? {
            has_moved = true;
        }
    }
    Ok(has_moved)
}

/// Whether the verdict on a world's run so far is `yes`. Another is printed, with the seed of the run.
pub(crate) fn is_yes(rt: &impl Print, alloc: Global, seed: u64, world: &World) -> Result<bool> {
    let history = world.history(alloc)?;
    let certificate = world.certificate(alloc)?;
    Ok(are_yes(rt, alloc, seed, &history, &certificate)?)
}
