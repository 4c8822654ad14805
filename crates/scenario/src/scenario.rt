//! Scenarios.

ghost use Rattle.std.specs.Prelude.{◌≡◌, IfOk};
ghost use Rattle.rmm_spec.specs.Scenario.{IsScenario};
ghost use Rattle.scenario.specs.SeenPrograms.{seen_programs};

use memory_map::Config;
use rmi_view::copied_command;
use rmm_spec::{Command, Due};
use std::alloc::{AllocError, Global};
use std::marker::Model;

/// How large a machine is, what each of its CPUs calls, and who is to take which turn.
#[derive(Drop)]
pub struct Scenario {
    config: Config,
    programs: Vec<Vec<Command>>,
    queue: usize,
    turns: Vec<Due>,
    limit: u32,
}

impl Model for Scenario {
    ghost use Rattle.rmm_spec.specs.Scenario.{Scenario, IsScenario};
    ghost use Rattle.scenario.specs.SeenPrograms.{seen_programs};

    ghost Value = { Scenario };

    ghost view = { λ s. record {
      config = s.config;
      programs = seen_programs s.programs.items;
      queue = s.queue;
      turns = s.turns.items;
      limit = s.limit;
    } };

    ghost invariant = { λ s. IsScenario (record {
      config = s.config;
      programs = seen_programs s.programs.items;
      queue = s.queue;
      turns = s.turns.items;
      limit = s.limit;
    }) };
}

impl Scenario {
    /// The scenario of these parts: a queue with room for so many events, and no more turns in all than the limit. `is_scenario`
    /// is the test that it asks for.
    pub fn new(
        config: Config,
        programs: Vec<Vec<Command>>,
        queue: usize,
        turns: Vec<Due>,
        limit: u32,
    ) -> Scenario
        requires { IsScenario (record {
          config = config;
          programs = seen_programs programs.items;
          queue = queue;
          turns = turns.items;
          limit = limit;
        }) }
        ensures { result ≡ record {
          config = config;
          programs = seen_programs programs.items;
          queue = queue;
          turns = turns.items;
          limit = limit;
        } }
    {
        Scenario {
            config,
            programs,
            queue,
            turns,
            limit,
        }
    }

    /// How many granules and CPUs the machine has.
    pub fn config(&self) -> &Config
        ensures config { result.now ≡ self.now.config }
        ensures limits { IsScenario self.now }
    {
        &self.config
    }

    /// What each CPU calls, CPU 0 first.
    pub fn programs(&self) -> &[Vec<Command>]
        ensures programs { seen_programs result.now ≡ self.now.programs }
        ensures limits { IsScenario self.now }
    {
        self.programs.as_slice()
    }

    /// How many events the queue has room for.
    pub fn queue(&self) -> usize
        ensures room { result ≡ self.now.queue }
        ensures limits { IsScenario self.now }
    {
        self.queue
    }

    /// The turns that are listed, the first one first.
    pub fn turns(&self) -> &[Due]
        ensures turns { result.now ≡ self.now.turns }
        ensures limits { IsScenario self.now }
    {
        self.turns.as_slice()
    }

    /// How many turns are taken at most, the listed ones among them.
    pub fn limit(&self) -> u32
        ensures most { result ≡ self.now.limit }
        ensures limits { IsScenario self.now }
    {
        self.limit
    }
}

/// Programs of the same commands.
pub fn copied_programs(
    alloc: Global,
    programs: &[Vec<Command>],
) -> Result<Vec<Vec<Command>>, AllocError>
    ensures { IfOk result (λ copied. seen_programs copied.items ≡ seen_programs programs.now) }
{
    let mut copied = Vec::with_capacity(alloc, programs.len())?;
    for program in programs {
        copied.push(copied_program(alloc, program.as_slice())?)?;
    }
    Ok(copied)
}

fn copied_program(alloc: Global, program: &[Command]) -> Result<Vec<Command>, AllocError>
    ensures { IfOk result (λ copied. copied.items ≡ program.now) }
{
    let mut copied = Vec::with_capacity(alloc, program.len())?;
    for command in program {
        copied.push(copied_command(command))?;
    }
    Ok(copied)
}
