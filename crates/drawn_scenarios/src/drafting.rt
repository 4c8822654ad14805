//! Programs, drafted beside a machine that carries them out.

ghost use Rattle.std.specs.Prelude.{◌<◌};

use crate::dice::Dice;
use crate::drawing::{Granules, drawn_command, drawn_function};
use crate::edges::edged_command;
use crate::schedule::Schedule;
use crate::sharing::Sharing;
use crate::words::walks;
use anyhow::{Result, bail};
use arrayvec::ArrayVec;
use memory_map::Config;
use reasons::owner_report;
use rmm_spec::{Accepted, Command, FunctionId, Reply, Stretch};
use spec_machine::Machine;
use std::alloc::Global;

/// One of so many commands is taken as it is drawn.
const UNCHECKED: u64 = 12;

/// One of so many commands has edges as words, where some have.
const EDGED: u64 = 24;

/// How many functions are drawn, and how often the words of each, before a command is taken that the machine refuses.
const FUNCTION_DRAWS: u32 = 8;

const WORD_DRAWS: u32 = 32;

/// After how many turns a CPU gets a command, whether or not it is likely to have one open.
const MOST_TURNS: u32 = 1000;

/// How many commands are drafted.
#[derive(Clone, Copy)]
pub(crate) struct Amount {
    pub(crate) commands: u64,
    pub(crate) edges: Edges,
}

/// Which commands have edges as words.
#[derive(Clone, Copy)]
pub(crate) enum Edges {
    /// Some of those that are drafted.
    Some,
    /// So many more, after each that is drafted.
    After(u8),
}

impl Edges {
    // Whether the next command that is drafted has.
    fn has_next(self, dice: &mut Dice) -> bool {
        match self {
            Edges::Some => dice.one_in(EDGED),
            Edges::After(_) => false,
        }
    }

    // How many more come after each.
    fn more(self) -> u8 {
        match self {
            Edges::Some => 0,
            Edges::After(count) => count,
        }
    }
}

/// A program for each CPU. Most of what is drafted is accepted where each command takes as many turns of the schedule as it is
/// likely to.
pub(crate) fn drafted_programs(
    alloc: Global,
    config: &Config,
    sharing: Sharing,
    amount: Amount,
    mut schedule: Schedule,
    dice: &mut Dice,
) -> Result<Vec<Vec<Command>>> {
    let mut machine = Machine::new(alloc, *config)?;
    let mut programs = empty_programs(alloc, config)?;
    let mut busy = [0; 8];
    let mut rows = Vec::new(alloc);
    for _command in 0..amount.commands {
        rows.clear();
        owner_report(&machine, &mut rows)?;
        let cpu = idle_cpu(&mut schedule, &mut busy);
        let granules = Granules {
            rows: rows.as_slice(),
            cpu,
            sharing,
        };
        let command = if amount.edges.has_next(dice) {
            edged_command(granules, dice)
        } else {
            drafted_command(&machine, granules, dice)
        };
        carry_out(&mut machine, cpu, &command)?;
        busy[usize::from(cpu % 8)] = likely_turns(command.function);
        if let Some(program) = programs.get_mut(usize::from(cpu)) {
            program.push(command)?;
            push_edged(&mut machine, granules, amount.edges.more(), program, dice)?;
        }
    }
    Ok(programs)
}

// Appends so many commands with edges as words, and carries them out.
fn push_edged(
    machine: &mut Machine,
    granules: Granules<'_>,
    count: u8,
    program: &mut Vec<Command>,
    dice: &mut Dice,
) -> Result<()> {
    for _command in 0..count {
        let command = edged_command(granules, dice);
        carry_out(machine, granules.cpu, &command)?;
        program.push(command)?;
    }
    Ok(())
}

fn empty_programs(alloc: Global, config: &Config) -> Result<Vec<Vec<Command>>> {
    let mut programs = Vec::new(alloc);
    for _cpu in 0..config.cpus() {
        programs.push(Vec::new(alloc))?;
    }
    Ok(programs)
}

// The next CPU that has a turn and is likely to have no open call. Each turn of another counts for its call.
fn idle_cpu(schedule: &mut Schedule, busy: &mut [u8; 8]) -> u8 {
    for _turn in 0..MOST_TURNS {
        let cpu = schedule.next().cpu;
        let left = &mut busy[usize::from(cpu % 8)];
        if *left == 0 {
            return cpu;
        }
        *left -= 1;
    }
    0
}

// How many turns follow the call of a function that is accepted and meets no other CPU, about.
fn likely_turns(function: FunctionId) -> u8 {
    match function {
        FunctionId::RecCreate | FunctionId::RecDestroy => 11,
        FunctionId::RealmCreate | FunctionId::RealmDestroy | FunctionId::RecEnter => 7,
        _ if walks(function) => 10,
        _ => 4,
    }
}

/// A command that the machine accepts, but for one of some, or where none is found.
pub fn drafted_command(machine: &Machine, granules: Granules<'_>, dice: &mut Dice) -> Command {
    if !dice.one_in(UNCHECKED) {
        for _function in 0..FUNCTION_DRAWS {
            if let Some(command) = accepted_command(machine, granules, dice) {
                return command;
            }
        }
    }
    let function = drawn_function(dice);
    drawn_command(function, granules, dice)
}

// A command that the machine accepts, where a function gets such words.
fn accepted_command(machine: &Machine, granules: Granules<'_>, dice: &mut Dice) -> Option<Command> {
    let function = drawn_function(dice);
    for _words in 0..WORD_DRAWS {
        let command = drawn_command(function, granules, dice);
        if machine.outcome(granules.cpu, &command).is_ok() {
            return Some(command);
        }
    }
    None
}

/// Carries a command out, and returns the machine's reply: of those that set a stretch, the one that sets the most.
pub fn carry_out(machine: &mut Machine, cpu: u8, command: &Command) -> Result<Reply> {
    match machine.outcome(cpu, command) {
        Ok(Accepted::Done { words, .. }) => offered(machine, cpu, command, Reply::Ok(words)),
        Ok(Accepted::Reaches(stretch)) => farthest(machine, cpu, command, &stretch),
        Err(refusal) => offered(machine, cpu, command, refusal.reply()),
    }
}

fn offered(machine: &mut Machine, cpu: u8, command: &Command, reply: Reply) -> Result<Reply> {
    if !machine.offer(cpu, command, &reply)? {
        bail!("the machine refuses its own reply");
    }
    Ok(reply)
}

// The greatest end that the machine takes, of those within a table.
fn farthest(machine: &mut Machine, cpu: u8, command: &Command, stretch: &Stretch) -> Result<Reply> {
    let size = entry_size(stretch.level);
    let most = stretch.top.wrapping_sub(stretch.base) / size;
    for less in 0..most.min(512) {
        let top = stretch
            .base
            .wrapping_add(size.wrapping_mul(most.min(512).wrapping_sub(less)));
        let mut words = ArrayVec::new();
        words.push(top);
        let reply = Reply::Ok(words);
        if machine.offer(cpu, command, &reply)? {
            return Ok(reply);
        }
    }
    bail!("the machine refuses each end")
}

// How many bytes an entry of the level covers.
fn entry_size(level: u8) -> u64
    ensures { 0 < result }
{
    match level {
        0 => 1 << 39,
        1 => 1 << 30,
        2 => 1 << 21,
        _ => 1 << 12,
    }
}
