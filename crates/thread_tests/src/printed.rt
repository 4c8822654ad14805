//! Scenarios run on threads, from their programs to what is printed. What is compared is the same under every schedule.

use memory_map::Config;
use monitor_runs::threads_text;
use rmi_codec::read_command;
use rmm_spec::Command;
use scenario::{Scenario, is_scenario};
use std::alloc::Global;
use std::sync::Wait;
use std::test::Fail;
use std::thread::Threads;

/// A program for each CPU, cut by `|`, of commands that are cut by commas.
fn programs_in(alloc: Global, text: &str) -> Result<Vec<Vec<Command>>, Fail> {
    let mut programs = Vec::new(alloc);
    for part in text.split('|') {
        programs.push(program_in(alloc, part)?)?;
    }
    Ok(programs)
}

fn program_in(alloc: Global, text: &str) -> Result<Vec<Command>, Fail> {
    let mut program = Vec::new(alloc);
    for command in text.split_terminator(',') {
        program.push(read_command(command)?)?;
    }
    Ok(program)
}

/// The scenario of these programs over four granules, with room for so many events in its queue.
fn scenario_in(alloc: Global, text: &str, queue: usize) -> Result<Scenario, Fail> {
    let programs = programs_in(alloc, text)?;
    let config = Config::new(4, programs.len() as u64).ok_or("no such machine")?;
    let turns = Vec::new(alloc);
    if !is_scenario(&config, &programs, queue, &turns, 1) {
        return Err(Fail::from("no scenario"));
    }
    Ok(Scenario::new(config, programs, queue, turns, 1))
}

/// What a run prints, after a byte that stands already.
fn printed<R: Threads + Wait + Sync>(
    rt: &R,
    alloc: Global,
    text: &str,
    queue: usize,
) -> Result<Vec<u8>, Fail> {
    let scenario = scenario_in(alloc, text, queue)?;
    let mut out = Vec::new(alloc);
    out.push(b'>')?;
    threads_text(rt, alloc, &scenario, &mut out)?;
    Ok(out)
}

#[test]
fn two_cpus_delegate_two_granules(rt: HostRuntime) -> Result<(), Fail> {
    for _run in 0..100 {
        let out = printed(&rt, rt.alloc(), "c4000151 1000|c4000151 2000", 4096)?;
        assert!(rt; out.starts_with(b">rmh1 4 2\n") && out.ends_with(b"\n\nyes 2\n"));
    }
    Ok(())
}

// Each is answered so, and goes on.
#[test]
fn refused_commands_end_no_program(rt: HostRuntime) -> Result<(), Fail> {
    let program = "c4000152 1000,00000001,c4000151 1000";
    let out = printed(&rt, rt.alloc(), program, 4096)?;
    let text = b">rmh1 4 1\nc 0 0 c4000152 1000\nr 0 0 err 1 0\nc 0 1 00000001\nr 0 1 misplaced\n\
        c 0 2 c4000151 1000\nr 0 2 ok\n\nk 0 0\nk 0 1\nk 0 2\n\nyes 3\n";
    assert!(rt; out.as_slice() == text.as_slice());
    Ok(())
}

#[test]
fn programs_may_be_empty(rt: HostRuntime) -> Result<(), Fail> {
    let out = printed(&rt, rt.alloc(), "|||||||", 1)?;
    assert!(rt; out.as_slice() == b">rmh1 4 8\n\n\nyes 0\n".as_slice());
    Ok(())
}

// A command takes effect whether or not there is room for its return.
#[test]
fn one_event_fills_the_queue(rt: HostRuntime) -> Result<(), Fail> {
    let returned = b">rmh1 4 1\nc 0 0 c4000151 1000\nr 0 0 ok\n\nk 0 0\n\nyes 1\n";
    let unrecorded = b">rmh1 4 1\nc 0 0 c4000151 1000\n\nu 0 0 ok\n\nyes 1\n";
    for _run in 0..20 {
        let out = printed(&rt, rt.alloc(), "c4000151 1000", 1)?;
        assert!(rt;
            out.as_slice() == returned.as_slice() || out.as_slice() == unrecorded.as_slice()
        );
    }
    Ok(())
}
