//! How many commands there can be.

use fixtures::can_open;
use memory_map::Config;
use rmi_codec::read_command;
use rmm_spec::Command;
use scenario::is_scenario;
use std::alloc::Global;
use std::test::Fail;

fn long_program(alloc: Global, count: u32) -> Result<Vec<Command>, Fail> {
    let mut commands = Vec::new(alloc);
    for _command in 0..count {
        commands.push(read_command("c4000151 1000")?)?;
    }
    Ok(commands)
}

// Whether a world can be opened with two programs of so many commands, of which there can be a scenario too.
fn are_taken(alloc: Global, first: u32, second: u32) -> Result<bool, Fail> {
    let config = Config::new(4, 2).ok_or("no such machine")?;
    let mut programs = Vec::new(alloc);
    programs.push(long_program(alloc, first)?)?;
    programs.push(long_program(alloc, second)?)?;
    let is_taken = can_open(&config, &programs);
    if is_scenario(&config, &programs, 1, &[], 1) != is_taken {
        return Err(Fail::from("a world and a scenario that differ"));
    }
    Ok(is_taken)
}

// Of all programs together there are at most 499,999 commands, each of which has two lines behind a history's first.
#[test]
fn takes_as_many_commands_as_a_history_has_lines_for(rt: HostRuntime) -> Result<(), Fail> {
    assert!(rt; are_taken(rt.alloc(), 249_999, 250_000)?);
    assert!(rt; !are_taken(rt.alloc(), 250_000, 250_000)?);
    Ok(())
}
