//! Runs of worlds from programs to texts: what is printed of them, byte by byte.

use crate::walking::{RIPAS, TABLES, Texts, texts_of};
use crate::worlds::program;
use memory_map::Config;
use rmm_spec::Command;
use scenario::{Due, Scenario, Will, is_scenario};
use std::alloc::{AllocError, Global};
use std::process::Abort;
use std::test::Fail;
use world_runs::run_text;

const LIMIT: u32 = 1_000_000;

// Turns, cut by spaces: a CPU, and behind it `g` where it gives up or `s` where it stops.
fn turns_in(alloc: Global, text: &str) -> Result<Vec<Due>, Fail> {
    let mut turns = Vec::new(alloc);
    for turn in text.split_ascii_whitespace() {
        let (cpu, will) = match *turn.as_bytes() {
            [cpu] => (cpu, Will::Go),
            [cpu, b'g'] => (cpu, Will::GiveUp),
            [cpu, b's'] => (cpu, Will::Stop),
            _ => return Err(Fail::from("no turn")),
        };
        turns.push(Due {
            cpu: cpu.wrapping_sub(b'0'),
            will,
        })?;
    }
    Ok(turns)
}

// Programs, cut by `|`, of a command a line.
fn programs(alloc: Global, texts: &str) -> Result<Vec<Vec<Command>>, Fail> {
    let mut programs = Vec::new(alloc);
    for text in texts.split('|') {
        programs.push(program(alloc, text)?)?;
    }
    Ok(programs)
}

// The scenario of these programs and turns. A run of turns has no queue.
fn scenario_in(
    alloc: Global,
    granules: u64,
    texts: &str,
    turns: &str,
    limit: u32,
) -> Result<Scenario, Fail> {
    let programs = programs(alloc, texts)?;
    let config = Config::new(granules, programs.len() as u64).ok_or("no such machine")?;
    checked(config, programs, turns_in(alloc, turns)?, limit)
}

fn checked(
    config: Config,
    programs: Vec<Vec<Command>>,
    turns: Vec<Due>,
    limit: u32,
) -> Result<Scenario, Fail> {
    if !is_scenario(&config, &programs, 1, &turns, limit) {
        return Err(Fail::from("no scenario"));
    }
    Ok(Scenario::new(config, programs, 1, turns, limit))
}

// What a run prints, behind a byte that stands already.
fn printed(
    alloc: Global,
    granules: u64,
    texts: &str,
    turns: &str,
    limit: u32,
) -> Result<Vec<u8>, Fail> {
    let scenario = scenario_in(alloc, granules, texts, turns, limit)?;
    text_of_run(alloc, &scenario)
}

fn text_of_run(alloc: Global, scenario: &Scenario) -> Result<Vec<u8>, Fail> {
    let mut out = Vec::new(alloc);
    out.push(b'>')?;
    run_text(alloc, scenario, &mut out)?;
    Ok(out)
}

// A run on a machine of four granules prints this.
fn expect_printed<R: Abort + AllocGlobal>(
    rt: &R,
    programs: &str,
    turns: &str,
    limit: u32,
    text: &[u8],
) -> Result<(), Fail> {
    let out = printed(rt.alloc(), 4, programs, turns, limit)?;
    assert!(rt; out.as_slice() == text);
    Ok(())
}

const BOTH: &str = "c4000151 1000|c4000151 1000";

#[test]
fn two_cpus_one_granule(rt: HostRuntime) -> Result<(), Fail> {
    let text = b">rmh1 4 2\nc 0 0 c4000151 1000\nc 1 0 c4000151 1000\nr 0 0 ok\nr 1 0 err 1 0\n\n\
        k 0 0\nk 1 0\n\nyes 2\n";
    expect_printed(&rt, BOTH, "", LIMIT, text)
}

#[test]
fn stopped_with_a_lock(rt: HostRuntime) -> Result<(), Fail> {
    let text = b">rmh1 4 2\nc 0 0 c4000151 1000\nc 1 0 c4000151 1000\n\nu 0 0 ok\n\nyes 1\n";
    expect_printed(&rt, BOTH, "0 0 0 0s", LIMIT, text)
}

// Who gives up calls no more and changes nothing.
#[test]
fn given_up_with_a_lock(rt: HostRuntime) -> Result<(), Fail> {
    let text = b">rmh1 4 2\nc 0 0 c4000151 1000\nc 1 0 c4000151 1000\nr 1 0 ok\n\nk 1 0\n\nyes 1\n";
    expect_printed(&rt, BOTH, "0 0 0g", LIMIT, text)
}

// The limit cuts the listed turns and the ring alike.
#[test]
fn limit_ends_a_run(rt: HostRuntime) -> Result<(), Fail> {
    let text = b">rmh1 4 2\nc 0 0 c4000151 1000\n\n\nyes 0\n";
    expect_printed(&rt, BOTH, "0 0 0 0s", 1, text)?;
    let text = b">rmh1 4 2\nc 0 0 c4000151 1000\n\nu 0 0 ok\n\nyes 1\n";
    expect_printed(&rt, BOTH, "0 0 0", 4, text)?;
    let text = b">rmh1 4 2\nc 0 0 c4000151 1000\nc 1 0 c4000151 1000\n\nu 0 0 ok\n\nyes 1\n";
    expect_printed(&rt, BOTH, "0 0", 4, text)?;
    expect_printed(&rt, "|", "", LIMIT, b">rmh1 4 2\n\n\nyes 0\n")
}

// What a run of one CPU with these texts prints, after the same byte.
fn whole_text(alloc: Global, texts: &Texts) -> Result<String, AllocError> {
    let commands = texts.program.as_str().lines().count();
    let history = texts.history.as_str();
    let certificate = texts.certificate.as_str();
    format!(in alloc; ">{history}\n{certificate}\nyes {commands}\n")
}

// Whether a run of one CPU is judged yes, and prints that.
fn prints(alloc: Global, texts: &Texts) -> Result<bool, Fail> {
    let out = printed(alloc, 16, texts.program.as_str(), "", LIMIT)?;
    Ok(out.as_slice() == whole_text(alloc, texts)?.as_bytes())
}

// A run of one CPU answers each command so, and is judged yes.
fn expect_replies<R: Abort + AllocGlobal>(rt: &R, script: &str) -> Result<(), Fail> {
    let texts = texts_of(rt.alloc(), script)?;
    let holds = prints(rt.alloc(), &texts);
    drop(texts);
    assert!(rt; holds?);
    Ok(())
}

#[test]
fn tables_are_made_and_taken_down(rt: HostRuntime) -> Result<(), Fail> {
    expect_replies(&rt, TABLES)
}

#[test]
fn ripas_is_set_as_far_as_its_rows_allow(rt: HostRuntime) -> Result<(), Fail> {
    expect_replies(&rt, RIPAS)
}

// CPU 0 goes on in so many turns, and stops then.
fn stop_after(alloc: Global, count: usize) -> Result<String, AllocError> {
    let mut turns = String::new(alloc);
    for _turn in 0..count {
        turns.push_str("0 ")?;
    }
    turns.push_str("0s")?;
    Ok(turns)
}

// CPU 0 stops with a table's lock once its page is mapped, and CPU 1 waits at that table.
#[test]
fn waits_behind_a_stopped_cpu(rt: HostRuntime) -> Result<(), Fail> {
    let texts = "c4000151 1000\nc4000151 2000\nc4000151 3000\nc4000151 4000\nc4000151 5000\n\
        c4000158 1000 2000 27 1 1 0\nc400015d 1000 3000 0 2\nc400015d 1000 4000 0 3\nc4000154 1000 5000 0\n\
        |c400015e 1000 0 3\n";
    let turns = stop_after(rt.alloc(), 62)?;
    let out = printed(rt.alloc(), 16, texts, turns.as_str(), LIMIT)?;
    let text = b">rmh1 16 2\nc 0 0 c4000151 1000\nr 0 0 ok\nc 0 1 c4000151 2000\nr 0 1 ok\n\
        c 0 2 c4000151 3000\nr 0 2 ok\nc 0 3 c4000151 4000\nr 0 3 ok\nc 0 4 c4000151 5000\nr 0 4 ok\n\
        c 0 5 c4000158 1000 2000 27 1 1 0\nr 0 5 ok\nc 0 6 c400015d 1000 3000 0 2\nr 0 6 ok\n\
        c 0 7 c400015d 1000 4000 0 3\nr 0 7 ok\nc 0 8 c4000154 1000 5000 0\nc 1 0 c400015e 1000 0 3\n\n\
        k 0 0\nk 0 1\nk 0 2\nk 0 3\nk 0 4\nk 0 5\nk 0 6\nk 0 7\nu 0 8 ok\n\nyes 9\n";
    assert!(rt; out.as_slice() == text.as_slice());
    Ok(())
}
