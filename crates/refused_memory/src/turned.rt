//! Two CPUs that take turns and want one granule.

use crate::fault::Fault;
use crate::judged::push_judged;
use fixtures::can_open;
use memory_map::Config;
use rmi_codec::read_command;
use rmm_spec::Command;
use std::alloc::Global;
use world::{Turned, Will, World};

// More than the run has.
const RINGS: u32 = 100;

/// Lets the CPUs go on in a ring until none moves.
pub(crate) fn play_turns(alloc: Global, out: &mut Vec<u8>) -> Result<(), Fault> {
    let mut world = opened(alloc)?;
    for _ring in 0..RINGS {
        if !go_round(alloc, &mut world)? {
            return push_world(alloc, &world, out);
        }
    }
    Err(Fault::Wrong("CPUs that don't come to an end"))
}

fn opened(alloc: Global) -> Result<World, Fault> {
    let Some(config) = Config::new(4, 2) else {
        return Err(Fault::Wrong("no such machine"));
    };
    let programs = programs(alloc)?;
    if !can_open(&config, programs.as_slice()) {
        return Err(Fault::Wrong("programs of another machine"));
    }
    Ok(World::new(alloc, &config, programs)?)
}

// Each CPU delegates the granule.
fn programs(alloc: Global) -> Result<Vec<Vec<Command>>, Fault> {
    let mut programs = Vec::new(alloc);
    for _cpu in 0..2 {
        programs.push(program(alloc)?)?;
    }
    Ok(programs)
}

fn program(alloc: Global) -> Result<Vec<Command>, Fault> {
    let mut program = Vec::new(alloc);
    program.push(read_command("c4000151 1000")?)?;
    Ok(program)
}

// A turn of each CPU. Whether one moved.
fn go_round(alloc: Global, world: &mut World) -> Result<bool, Fault> {
    let mut has_moved = false;
    for cpu in 0..2 {
        let moves = go(alloc, world, cpu)?;
        has_moved = has_moved || moves;
    }
    Ok(has_moved)
}

// A CPU's turn, and the same once more where memory is refused. Whether it moved.
fn go(alloc: Global, world: &mut World, cpu: u8) -> Result<bool, Fault> {
    if cpu >= world.config().cpus() {
        return Err(Fault::Wrong("no such CPU"));
    }
    let turned = match world.turn(alloc, cpu, Will::Go) {
        Ok(turned) => turned,
        Err(_) => world.turn(alloc, cpu, Will::Go)?,
    };
    Ok(matches!(turned, Turned::Did(_)))
}

fn push_world(alloc: Global, world: &World, out: &mut Vec<u8>) -> Result<(), Fault> {
    let mut history = Vec::new(alloc);
    text_writers::write_history(&world.history(alloc)?, &mut history)?;
    let mut certificate = Vec::new(alloc);
    text_writers::write_certificate(&world.certificate(alloc)?, &mut certificate)?;
    push_judged(alloc, history.as_slice(), certificate.as_slice(), out)
}
