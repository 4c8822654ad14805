//! Turns of fixed programs, so that a script can time them.

ghost use Rattle.std.specs.Prelude.{◌<◌};

use crate::worlds::turning::{opened, turned};
use anyhow::{Context, Result};
use drawn_scenarios::{LENGTH, Life, Pages};
use memory_map::Config;
use rmm_spec::Command;
use std::alloc::{AllocError, Global};
use world::{Turned, Will, World};

const GRANULES: u64 = 4096;

/// How many realms with their RECs have granules of their own at the same time.
const PLACES: u64 = 819;

/// How many realms all CPUs make.
const LIVES: u64 = 16_384;

/// How many commands all CPUs have on their pages, in threes.
const ROUNDS: u64 = 160_000;

/// In how many turns CPU 0 has made the tables of all.
const FIRST_TURNS: u64 = 2000;

/// What the CPUs do: make realms, or map pages in realms of their own or in one.
#[derive(Clone, Copy)]
pub(crate) enum Work {
    Lives,
    Realms,
    Realm,
}

/// Lets so many CPUs go on in turn over 4096 granules, for so many turns, and prints how many of them made a step.
pub(crate) fn take_turns(
    rt: &impl Print,
    alloc: Global,
    work: Work,
    cpus: u64,
    count: u64,
) -> Result<()> {
    let config = Config::new(GRANULES, cpus).context("1 to 8 CPUs")?;
    let mut world = opened(alloc, &config, programs(alloc, work, &config)?)?;
    if let Work::Realm = work {
        make_tables(&mut world, alloc)?;
    }
    let steps = steps_of(&mut world, alloc, count)?;
    println!(rt; "turns: {steps} steps in {count}")?;
    Ok(())
}

fn programs(alloc: Global, work: Work, config: &Config) -> Result<Vec<Vec<Command>>, AllocError> {
    let cpus = u64::from(config.cpus());
    let mut programs = Vec::new(alloc);
    for cpu in 0..cpus {
        programs.push(program(alloc, work, cpu, cpus)?)?;
    }
    Ok(programs)
}

// CPU 0 makes the tables of all.
fn make_tables(world: &mut World, alloc: Global) -> Result<()> {
    for _turn in 0..FIRST_TURNS {
        turned(world, alloc, 0, Will::Go)?;
    }
    Ok(())
}

fn steps_of(world: &mut World, alloc: Global, count: u64) -> Result<u64> {
    let cpus = world.config().cpus();
    let mut steps: u64 = 0;
    let mut cpu = 0;
    for _turn in 0..count {
        if let Turned::Did(_) = turned(world, alloc, cpu, Will::Go)? {
            steps = steps.wrapping_add(1);
        }
        let next = cpu.wrapping_add(1);
        cpu = if next < cpus { next } else { 0 };
    }
    Ok(steps)
}

fn program(alloc: Global, work: Work, cpu: u64, cpus: u64) -> Result<Vec<Command>, AllocError>
    requires { cpu < cpus }
{
    match work {
        Work::Lives => lives(alloc, cpu, cpus),
        Work::Realms => paged(alloc, cpu % 8, cpus, false),
        Work::Realm => paged(alloc, cpu % 8, cpus, true),
    }
}

// The CPU's page mapped again and again. In one realm, CPU 0 makes the tables of all.
fn paged(alloc: Global, cpu: u64, cpus: u64, is_shared: bool) -> Result<Vec<Command>, AllocError>
    requires { (cpu < 8) × (0 < cpus) }
{
    let mut program = Vec::new(alloc);
    for other in 0..8 {
        if other == cpu && !is_shared || cpu == 0 && is_shared {
            Pages::new(other, is_shared).push_made(&mut program)?;
        }
    }
    Pages::new(cpu, is_shared).push_rounds(&mut program, ROUNDS / cpus)?;
    Ok(program)
}

// The program of a CPU: one realm after another, each at another place, and at no time where another CPU's is.
fn lives(alloc: Global, cpu: u64, cpus: u64) -> Result<Vec<Command>, AllocError>
    requires { 0 < cpus }
{
    let mut program = Vec::new(alloc);
    let mut place = cpu;
    for _life in 0..LIVES / cpus {
        Life::new(place % PLACES, cpu).push_next(&mut program, LENGTH)?;
        place = place.wrapping_add(cpus);
    }
    Ok(program)
}
