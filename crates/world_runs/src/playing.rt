//! A world is played: listed turns, and turns of all CPUs in a ring.

ghost use Rattle.std.specs.Prelude.{◌≡◌, ◌<◌, ◌≤◌, length, take, OnOk, IfOk};
ghost use Rattle.std.specs.List.{All};
ghost use Rattle.rmm_spec.specs.declared.turn.Due.{Due};
ghost use Rattle.world.specs.World.{world_of};
ghost use Rattle.world_runs.specs.Played.{Plays, Goes, GoesRound};

use rmm_spec::{Due, Will};
use std::alloc::{AllocError, Global};
use world::{Turned, World};

/// The first of these turns, as many as the limit lets.
pub(crate) fn up_to(turns: &[Due], limit: u32) -> &[Due]
    ensures first { result.now ≡ take limit turns.now }
    ensures few { length result.now ≤ limit }
{
    let count = limit as usize;
    if turns.len() <= count {
        turns
    } else {
        &turns[..count]
    }
}

/// Gives the listed turns in their order.
pub(crate) fn take_listed(alloc: Global, world: &mut World, turns: &[Due]) -> Result<(), AllocError>
    requires { All (λ (turn : Due). turn.cpu < (world_of world.old).config.cpus) turns.now }
    ensures played { OnOk result (Plays (world_of world.old) turns.now (world_of world.new)) }
    ensures config { OnOk result ((world_of world.new).config ≡ (world_of world.old).config) }
{
    for due in turns {
        world.turn(alloc, due.cpu, due.will)?;
    }
    Ok(())
}

/// Lets the CPUs go on one after another, in a ring, for so many turns at most, until a whole ring made no move.
pub(crate) fn go_round(alloc: Global, world: &mut World, turns: u32) -> Result<(), AllocError>
    ensures { OnOk result (GoesRound (world_of world.old) turns (world_of world.new)) }
{
    let cpus = world.config().cpus();
    let (mut cpu, mut has_moved) = (0, false);
    for _turn in 0..turns {
        has_moved = go_once(alloc, world, cpu, has_moved)?;
        cpu += 1;
        if cpu == cpus {
            if !has_moved {
                return Ok(());
            }
            (cpu, has_moved) = (0, false);
        }
    }
    Ok(())
}

// Lets a CPU go on once. Whether it moved, or one had before.
fn go_once(alloc: Global, world: &mut World, cpu: u8, had_moved: bool) -> Result<bool, AllocError>
    requires { cpu < (world_of world.old).config.cpus }
    ensures { IfOk result (λ has_moved. Goes (world_of world.old) cpu had_moved has_moved (world_of world.new)) }
{
    let turned = world.turn(alloc, cpu, Will::Go)?;
    match turned {
        Turned::Did(_) => Ok(true),
        Turned::Blocked(_) => Ok(had_moved),
        Turned::Idle => Ok(had_moved),
    }
}
