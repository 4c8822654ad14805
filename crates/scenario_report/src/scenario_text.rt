//! What a scenario would run, in words.

use reasons::CallText;
use rmm_spec::{Command, Due, Version, Will};
use scenario::Scenario;
use std::fmt;

/// A scenario in words: its machine, each CPU's commands by name, and its turns.
#[derive(Clone, Copy)]
pub struct ScenarioText<'a>(pub &'a Scenario);

impl fmt::Display for ScenarioText<'_> {
    fn fmt<W: fmt::Write>(&self, f: &mut fmt::Formatter<W>) -> fmt::Result {
        let scenario = self.0;
        let (granules, cpus) = (scenario.config().granules(), scenario.config().cpus());
        let (queue, limit) = (scenario.queue(), scenario.limit());
        write!(f, "granules: {granules}\ncpus: {cpus}\n")?;
        if matches!(scenario.config().version(), Version::Two) {
            f.write_str("version: 2\n")?;
        }
        write!(f, "queue: room for {queue} events\nlimit: {limit} turns\n")?;
        for (cpu, program) in scenario.programs().iter().enumerate() {
            write_program(f, cpu, program.as_slice())?;
        }
        write_turns(f, scenario.turns())
    }
}

fn write_program<W: fmt::Write>(
    f: &mut fmt::Formatter<W>,
    cpu: usize,
    program: &[Command],
) -> fmt::Result {
    if program.is_empty() {
        return write!(f, "CPU {cpu} calls nothing\n");
    }
    write!(f, "CPU {cpu} calls:\n")?;
    for (number, command) in program.iter().enumerate() {
        let command = CallText {
            function: command.function,
            words: command.words.as_slice(),
        };
        write!(f, "    {number}: {command}\n")?;
    }
    Ok(())
}

// The listed turns. Equal ones that follow on each other are one line.
fn write_turns<W: fmt::Write>(f: &mut fmt::Formatter<W>, turns: &[Due]) -> fmt::Result {
    f.write_str("turns:\n")?;
    let mut count = 0usize;
    for (index, turn) in turns.iter().enumerate() {
        count = count.saturating_add(1);
        if !is_again(turn, turns.get(index.saturating_add(1))) {
            write_turn(f, turn, count)?;
            count = 0;
        }
    }
    f.write_str("    then all CPUs go on, one after another, until none of them can\n")
}

// Whether the next turn is the same again.
fn is_again(turn: &Due, next: Option<&Due>) -> bool {
    let Some(next) = next else {
        return false;
    };
    turn.cpu == next.cpu
        && matches!(
            (turn.will, next.will),
            (Will::Go, Will::Go) | (Will::GiveUp, Will::GiveUp) | (Will::Stop, Will::Stop)
        )
}

// A turn, and how often it comes on end.
fn write_turn<W: fmt::Write>(f: &mut fmt::Formatter<W>, turn: &Due, count: usize) -> fmt::Result {
    let does = match turn.will {
        Will::Go => "goes on",
        Will::GiveUp => "gives up",
        Will::Stop => "stops",
    };
    let cpu = turn.cpu;
    if count == 1 {
        write!(f, "    CPU {cpu} {does}\n")
    } else {
        write!(f, "    CPU {cpu} {does}, {count} times\n")
    }
}
