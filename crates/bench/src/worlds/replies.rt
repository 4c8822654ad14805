//! Replies of a world with one CPU, beside what the specification machine answers.

use crate::worlds::turning::{finish, opened_for};
use anyhow::{Result, bail};
use drawn_scenarios::{Draft, carry_out};
use history::{Call, History};
use spec_machine::Machine;
use std::alloc::Global;
use world::World;

/// Programs of 60 commands.
pub(crate) const DRAFTED: Draft = Draft {
    cpus: 1,
    more: 0,
    commands: 60,
    edged: 0,
    turns: 0,
};

/// The same, and behind each command eight with edges as words.
pub(crate) const EDGED: Draft = Draft {
    edged: 8,
    ..DRAFTED
};

/// Compares the replies of so many worlds, prints each one that differs, and then how many are equal. An error where one isn't.
pub(crate) fn compare_replies(
    rt: &impl Print,
    alloc: Global,
    name: &str,
    draft: Draft,
    first: u64,
    count: u64,
) -> Result<()> {
    let commands = u32::from(draft.commands) * (1 + u32::from(draft.edged));
    let mut all: u64 = 0;
    let mut equal: u64 = 0;
    for seed in first..first.saturating_add(count) {
        let same = equal_of(alloc, draft, seed, commands)?;
        equal = equal.wrapping_add(u64::from(same));
        all = all.wrapping_add(u64::from(commands));
        if same != commands {
            println!(rt; "seed {seed}: {same} replies of {commands} are equal")?;
        }
    }
    println!(rt; "{name}: {equal} of {all} are equal")?;
    if equal != all {
        bail!("not every reply is equal");
    }
    Ok(())
}

// The run of a program on one CPU.
fn history_of(alloc: Global, draft: Draft, seed: u64) -> Result<History> {
    let mut world = drawn_world(alloc, draft, seed)?;
    finish(&mut world, alloc)?;
    Ok(world.history(alloc)?)
}

fn drawn_world(alloc: Global, draft: Draft, seed: u64) -> Result<World> {
    opened_for(alloc, &draft.drawn(alloc, seed)?)
}

// How many replies of the world of a seed are equal, before the first that isn't.
fn equal_of(alloc: Global, draft: Draft, seed: u64, commands: u32) -> Result<u32> {
    let history = history_of(alloc, draft, seed)?;
    let mut machine = Machine::new(alloc, history.config())?;
    equal_replies(&mut machine, &history, commands)
}

// How many calls the machine answers as they were answered, before the first that it doesn't.
fn equal_replies(machine: &mut Machine, history: &History, commands: u32) -> Result<u32> {
    let mut equal: u32 = 0;
    for number in 0..commands {
        let Some(call) = history.call_of(0, number) else {
            break;
        };
        if !is_equal(machine, &call)? {
            break;
        }
        equal = number + 1;
    }
    Ok(equal)
}

// Whether the machine answers a call as it was answered.
fn is_equal(machine: &mut Machine, call: &Call) -> Result<bool> {
    let Some(answer) = &call.answer else {
        return Ok(false);
    };
    Ok(carry_out(machine, 0, &call.command)? == answer.reply)
}
