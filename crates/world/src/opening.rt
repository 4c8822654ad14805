//! A world in which nothing has happened.

ghost use Rattle.std.specs.Prelude.{◌≡◌, vec_len, IfOk, None};
ghost use Rattle.rmm_spec.specs.World.{opening_world};
ghost use Rattle.world.specs.Cpus.{views_of};
ghost use Rattle.world.specs.Opening.{programs_of, opening_views, CanOpen};
ghost use Rattle.world.specs.World.{world_of, waits_of};

use crate::cells::Cells;
use crate::cpus::{Cpu, Cpus};
use crate::journal::Journal;
use crate::locks::Locks;
use crate::phase::Phase;
use crate::world::World;
use arrayvec::ArrayVec;
use command_core::{CpuPlace, Side};
use history::History;
use memory_map::Config;
use rmm_spec::Command;
use std::alloc::{AllocError, Global};

impl World {
    /// Nothing is delegated, nobody holds a lock, and each CPU has its whole program before it. The programs of a scenario are such.
    /// Where memory is refused there is no world, and the programs are dropped.
    pub fn new(
        alloc: Global,
        config: &Config,
        programs: Vec<Vec<Command>>,
    ) -> Result<World, AllocError>
        requires { CanOpen config.now programs.items }
        ensures world { IfOk result (λ w. world_of w ≡ opening_world config.now (programs_of programs.items)) }
        ensures waits { IfOk result (λ w. waits_of w ≡ (λ _. None)) }
    {
        let cells = Cells::new(alloc, config)?;
        let locks = Locks::new(alloc, config)?;
        let side = Side::new(alloc)?;
        let cpus = Cpus::new(alloc, programs)?;
        Ok(World {
            cells,
            locks,
            side,
            cpus,
            journal: Journal::new(alloc),
            history: History::new(alloc, *config),
        })
    }
}

impl Cpus {
    /// A CPU for each program, which has called none of its commands.
    pub(crate) fn new(alloc: Global, programs: Vec<Vec<Command>>) -> Result<Cpus, AllocError>
        ensures size { IfOk result (λ cpus. vec_len cpus.list ≡ vec_len programs) }
        ensures views { IfOk result (λ cpus. views_of cpus ≡ opening_views (programs_of programs.items)) }
    {
        let mut list = Vec::new(alloc);
        list.reserve(programs.len())?;
        for program in programs {
            list.push_reserved(Cpu {
                taken: ArrayVec::new(),
                place: CpuPlace::Outside,
                phase: Phase::Between { number: 0 },
                program,
                called: 0,
                waits: None,
            });
        }
        Ok(Cpus { list })
    }
}
