//! Random programs, over granules that the CPUs share.

ghost use Rattle.std.specs.Prelude.{◌<◌};

use crate::monitors::job::Job;
use drawn_scenarios::{DEEP_SPAN, DeepLife, command};
use memory_map::GRANULE_BYTES;
use rand::RngExt;
use rand_xoshiro::Xoshiro256PlusPlus;
use rmm_spec::{Command, FunctionId};
use std::alloc::{AllocError, Global};

/// How many CPUs a random run has.
pub(crate) const CPUS: u64 = 8;

/// How many realms have granules of their own.
const PLACES: u64 = 10;

/// How many granules a random run has.
pub(crate) const GRANULES: u64 = 1 + PLACES * DEEP_SPAN;

/// A program of so many commands for each CPU. One of the CPUs is stopped in the middle, where that is wished.
pub(crate) fn drawn_jobs(
    alloc: Global,
    commands: u64,
    with_stop: bool,
    random: &mut Xoshiro256PlusPlus,
) -> Result<Vec<Job>, AllocError> {
    let stopped = below(random, CPUS);
    let mut jobs = Vec::new(alloc);
    for cpu in 0..CPUS {
        let program = drawn_program(alloc, cpu, commands, random)?;
        jobs.push(Job::new(program, with_stop && cpu == stopped))?;
    }
    Ok(jobs)
}

// Lives of realms, half of them at the CPU's own place, and with one command in twelve drawn apart from them.
fn drawn_program(
    alloc: Global,
    cpu: u64,
    commands: u64,
    random: &mut Xoshiro256PlusPlus,
) -> Result<Vec<Command>, AllocError>
    requires { cpu < 8 }
{
    let mut program = Vec::new(alloc);
    let mut life = DeepLife::new(cpu, cpu);
    for _command in 0..commands {
        if case(random, 12) == 0 {
            program.push(stray_command(random))?;
            continue;
        }
        if life.begins() {
            life = drawn_life(cpu, random);
        }
        program.push(life.next())?;
    }
    Ok(program)
}

fn drawn_life(cpu: u64, random: &mut Xoshiro256PlusPlus) -> DeepLife
    requires { cpu < 8 }
{
    let place = below(random, PLACES);
    if case(random, 2) == 0 {
        DeepLife::new(cpu, cpu)
    } else {
        DeepLife::new(place, place)
    }
}

// A command on any granules.
fn stray_command(random: &mut Xoshiro256PlusPlus) -> Command {
    let (first, second) = (drawn_granule(random), drawn_granule(random));
    match case(random, 17) {
        0 => command(FunctionId::GranuleDelegate, &[first]),
        1 => command(FunctionId::GranuleUndelegate, &[first]),
        2 => {
            let vmid = below(random, PLACES);
            command(FunctionId::RealmCreate, &[first, second, 0x30, 0, vmid, 0])
        }
        3 => command(FunctionId::RealmActivate, &[first]),
        4 => command(FunctionId::RealmDestroy, &[first]),
        5 => {
            let (aux0, aux1) = (drawn_granule(random), drawn_granule(random));
            command(FunctionId::RecCreate, &[first, second, 0, 1, aux0, aux1])
        }
        6 => command(FunctionId::RecDestroy, &[first]),
        7 => command(FunctionId::RecEnter, &[first]),
        8 => command(FunctionId::SystemOff, &[]),
        other => stray_walk(other, random),
    }
}

// A command on the tables of any realm, at one of a few addresses in either half.
fn stray_walk(number: u32, random: &mut Xoshiro256PlusPlus) -> Command {
    let rd = (1 + below(random, PLACES) * DEEP_SPAN) * GRANULE_BYTES;
    let granule = drawn_granule(random);
    let ipa = below(random, 2) << 38 | below(random, 2) << 21 | below(random, 2) << 12;
    let table = ipa >> 21 << 21;
    match number {
        9 => command(FunctionId::RttCreate, &[rd, granule, table, 3]),
        10 => command(FunctionId::RttDestroy, &[rd, table, 3]),
        11 => command(FunctionId::DataCreateUnknown, &[rd, granule, ipa]),
        12 => command(FunctionId::DataDestroy, &[rd, ipa]),
        13 => command(FunctionId::RttMapUnprotected, &[rd, ipa, granule]),
        14 => command(FunctionId::RttUnmapUnprotected, &[rd, ipa]),
        15 => command(FunctionId::RttFold, &[rd, table, 3]),
        _ => command(FunctionId::RttReadEntry, &[rd, ipa, 3]),
    }
}

fn drawn_granule(random: &mut Xoshiro256PlusPlus) -> u64 {
    below(random, GRANULES) * GRANULE_BYTES
}

// A number below the limit.
fn below(random: &mut Xoshiro256PlusPlus, limit: u64) -> u64
    requires { 0 < limit }
    ensures { result < limit }
{
    random.random_range(0..limit)
}

/// One of so many cases, from 0 on.
pub(crate) fn case(random: &mut Xoshiro256PlusPlus, cases: u32) -> u32
    requires { 0 < cases }
{
    random.random_range(0..cases)
}
