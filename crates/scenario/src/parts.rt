//! Whether parts are those of a scenario.

ghost use Rattle.std.specs.Prelude.{◌≡◌, ◌↔◌, ◌<◌, ◌≤◌, IsTrue, length, map, sum};
ghost use Rattle.std.specs.List.{AllByRecursion};
ghost use Rattle.rmm_spec.specs.CommandText.{IsCommand};
ghost use Rattle.rmm_spec.specs.Scenario.{IsScenario, is_numbered};
ghost use Rattle.scenario.specs.SeenPrograms.{seen_programs};

use memory_map::Config;
use rmi_codec::has_text;
use rmm_spec::{Command, Due, Version};

// The most commands of all programs together: a history has room for a call and a return of each.
const MOST_COMMANDS: usize = 499_999;

/// Whether these are the parts of a scenario.
pub fn is_scenario(
    config: &Config,
    programs: &[Vec<Command>],
    queue: usize,
    turns: &[Due],
    limit: u32,
) -> bool
    ensures { IsTrue result ↔ IsScenario (record {
      config = config.now;
      programs = seen_programs programs.now;
      queue = queue;
      turns = turns.now;
      limit = limit;
    }) }
{
    if !is_numbered(config.version()) {
        return false;
    }
    let cpus = config.cpus();
    if programs.len() != usize::from(cpus) || !are_few(programs) || !have_texts(programs) {
        return false;
    }
    if queue < 1 || 65_536 < queue || limit < 1 || 10_000_000 < limit {
        return false;
    }
    are_of(turns, cpus)
}

// Whether scenarios can be of the version.
fn is_numbered(version: Version) -> bool
    ensures { result ≡ is_numbered version }
{
    match version {
        Version::One | Version::Two => true,
        Version::Large => false,
    }
}

// Whether a history has room for all commands.
fn are_few(programs: &[Vec<Command>]) -> bool
    ensures { IsTrue result ↔ (sum (map length (seen_programs programs.now)) ≤ 499999) }
{
    let mut left = MOST_COMMANDS;
    for program in programs {
        let count = program.len();
        if count > left {
            return false;
        }
        left -= count;
    }
    true
}

// Whether each command has a text.
fn have_texts(programs: &[Vec<Command>]) -> bool
    ensures { IsTrue result ↔ AllByRecursion (AllByRecursion IsCommand) (seen_programs programs.now) }
{
    for program in programs {
        if !has_texts(program.as_slice()) {
            return false;
        }
    }
    true
}

fn has_texts(program: &[Command]) -> bool
    ensures { IsTrue result ↔ AllByRecursion IsCommand program.now }
{
    program.iter().all(|command| has_text(command))
}

// Whether each turn is of one of so many CPUs.
fn are_of(turns: &[Due], cpus: u8) -> bool
    ensures { IsTrue result ↔ AllByRecursion (λ turn. turn.cpu < cpus) turns.now }
{
    turns.iter().all(|turn| turn.cpu < cpus)
}
