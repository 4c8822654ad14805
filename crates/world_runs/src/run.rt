//! A run of the world, from its scenario to its texts.

ghost use Rattle.std.specs.Prelude.{◌≡◌, ◌++◌, ℕ, List, IfOk, IfErr, OnErr};
ghost use Rattle.rmm_spec.specs.World.{opening_world};
ghost use Rattle.world_runs.specs.declared.fault.RunFault.TheVariants.{NoMemory};
ghost use Rattle.world.specs.World.{world_of};
ghost use Rattle.world_runs.specs.Played.{program_of, IsPlayed, IsPrinted, played_world};

use crate::playing::{go_round, take_listed, up_to};
use crate::{RunFault, Verdict, print_run};
use scenario::{Scenario, copied_programs};
use std::alloc::{AllocError, Global};
use world::{World, every_run_is_certified};

/// Plays the scenario: its listed turns, and then turns of all CPUs in a ring, until a whole ring made no move, and in all no
/// more turns than its limit. Appends the history, an empty line, the certificate, an empty line, and the line of the verdict
/// on the two, which is yes. Where memory is refused, nothing is appended.
pub fn run_text(alloc: Global, scenario: &Scenario, out: &mut Vec<u8>) -> Result<Verdict, RunFault>
    ensures printed { IfOk result (λ judged. (text : List ℕ) × (out.new.items ≡ out.old.items ++ text) × IsPrinted scenario.now judged text) }
    ensures cause { IfErr result (λ fault. fault ≡ NoMemory) }
    ensures err { OnErr result (out.new.items ≡ out.old.items) }
{
    match print_played(alloc, scenario, out) {
        Ok(verdict) => Ok(verdict),
        Err(_) => Err(RunFault::NoMemory),
    }
}

// The same, and memory is all that can be refused.
fn print_played(
    alloc: Global,
    scenario: &Scenario,
    out: &mut Vec<u8>,
) -> Result<Verdict, AllocError>
    ensures printed { IfOk result (λ judged. (text : List ℕ) × (out.new.items ≡ out.old.items ++ text) × IsPrinted scenario.now judged text) }
    ensures err { OnErr result (out.new.items ≡ out.old.items) }
{
    let world = played(alloc, scenario)?;
    let _fact = every_run_is_certified();
    let history = world.history(alloc)?;
    let certificate = world.certificate(alloc)?;
    print_run(alloc, &history, &certificate, out)
}

// The world to which the turns lead.
fn played(alloc: Global, scenario: &Scenario) -> Result<World, AllocError>
    ensures played { IfOk result (λ w. IsPlayed scenario.now (world_of w)) }
    ensures one { IfOk result (λ w. world_of w ≡ played_world scenario.now) }
{
    let limit = scenario.limit();
    let listed = up_to(scenario.turns(), limit);
    let mut world = opened(alloc, scenario)?;
    take_listed(alloc, &mut world, listed)?;
    go_round(alloc, &mut world, limit - listed.len() as u32)?;
    Ok(world)
}

// The world in which nothing has happened.
fn opened(alloc: Global, scenario: &Scenario) -> Result<World, AllocError>
    ensures { IfOk result (λ w. world_of w ≡ opening_world scenario.now.config (program_of scenario.now)) }
{
    let programs = copied_programs(alloc, scenario.programs())?;
    World::new(alloc, scenario.config(), programs)
}
