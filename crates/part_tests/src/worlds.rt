//! Worlds that turn, with the texts of their runs.
//! A step of a script is a CPU and what its next turn reports: `c` that it called, `t` took, `k` committed, `f` freed, `r`
//! returned, `g` gave up or `s` stopped, as it was told, `i` that it idled, or the number of the granule by which it was
//! blocked. With a number behind it, the CPU goes on until it has reported that so often.

use fixtures::can_open;
use memory_map::Config;
use rmi_codec::read_command;
use rmm_spec::Command;
use std::alloc::Global;
use std::process::Abort;
use std::test::Fail;
use world::{Kind, Turned, Will, World};

/// A command a line.
pub(crate) fn program(alloc: Global, text: &str) -> Result<Vec<Command>, Fail> {
    let mut commands = Vec::new(alloc);
    for line in text.lines() {
        commands.push(read_command(line)?)?;
    }
    Ok(commands)
}

/// The program of a single CPU, in a list.
pub(crate) fn one_program(alloc: Global, text: &str) -> Result<Vec<Vec<Command>>, Fail> {
    let mut programs = Vec::new(alloc);
    programs.push(program(alloc, text)?)?;
    Ok(programs)
}

pub(crate) fn opened(
    alloc: Global,
    config: &Config,
    programs: Vec<Vec<Command>>,
) -> Result<World, Fail> {
    if !can_open(config, &programs) {
        return Err(Fail::from("the programs can't be opened"));
    }
    Ok(World::new(alloc, config, programs)?)
}

pub(crate) fn two_cpus(
    alloc: Global,
    granules: u64,
    first: &str,
    second: &str,
) -> Result<World, Fail> {
    let config = Config::new(granules, 2).ok_or("no such machine")?;
    let mut programs = one_program(alloc, first)?;
    programs.push(program(alloc, second)?)?;
    opened(alloc, &config, programs)
}

fn letter_of(kind: Kind) -> u8 {
    match kind {
        Kind::Call => b'c',
        Kind::Take => b't',
        Kind::Free => b'f',
        Kind::Commit => b'k',
        Kind::GiveUp => b'g',
        Kind::Return => b'r',
        Kind::Stop => b's',
    }
}

// One turn, and what it reports.
fn turn(world: &mut World, alloc: Global, cpu: u8, will: Will) -> Result<u8, Fail> {
    if cpu >= world.config().cpus() {
        return Err(Fail::from("no such CPU"));
    }
    Ok(match world.turn(alloc, cpu, will)? {
        Turned::Did(kind) => letter_of(kind),
        Turned::Blocked(granule) => b"0123456789abcdef"[(granule.address() >> 12) as usize % 16],
        Turned::Idle => b'i',
    })
}

// Lets a CPU go on until it has reported this so often, in at most so many turns.
fn go_until(
    world: &mut World,
    alloc: Global,
    cpu: u8,
    report: u8,
    times: u8,
    turns: u8,
) -> Result<(), Fail> {
    let will = match report {
        b'g' => Will::GiveUp,
        b's' => Will::Stop,
        _ => Will::Go,
    };
    let mut left = times;
    for _turn in 0..turns {
        if turn(world, alloc, cpu, will)? == report {
            left = left.saturating_sub(1);
        }
        if left == 0 {
            return Ok(());
        }
    }
    Err(Fail::from("the CPU doesn't come so far"))
}

pub(crate) fn play(world: &mut World, alloc: Global, script: &str) -> Result<(), Fail> {
    for step in script.split(' ') {
        play_step(world, alloc, step)?;
    }
    Ok(())
}

fn play_step(world: &mut World, alloc: Global, step: &str) -> Result<(), Fail> {
    match *step.as_bytes() {
        [cpu, report] => go_until(world, alloc, cpu.wrapping_sub(b'0'), report, 1, 1),
        [cpu, report, times] => go_until(
            world,
            alloc,
            cpu.wrapping_sub(b'0'),
            report,
            times.wrapping_sub(b'0'),
            200,
        ),
        _ => Err(Fail::from("no step")),
    }
}

/// The world plays the script, and has these texts then.
pub(crate) fn expect_run<R: Abort + AllocGlobal>(
    rt: &R,
    mut world: World,
    script: &str,
    history: &str,
    certificate: &str,
) -> Result<(), Fail> {
    let alloc = rt.alloc();
    play(&mut world, alloc, script)?;
    expect_texts(rt, &world, history, certificate)
}

/// The world has these texts.
pub(crate) fn expect_texts<R: Abort + AllocGlobal>(
    rt: &R,
    world: &World,
    history: &str,
    certificate: &str,
) -> Result<(), Fail> {
    let alloc = rt.alloc();
    let holds = has_history(alloc, world, history)? && has_certificate(alloc, world, certificate)?;
    assert!(rt; holds);
    Ok(())
}

fn has_history(alloc: Global, world: &World, text: &str) -> Result<bool, Fail> {
    let history = world.history(alloc)?;
    let mut events = Vec::new(alloc);
    text_writers::write_history(&history, &mut events)?;
    Ok(events.as_slice() == text.as_bytes())
}

fn has_certificate(alloc: Global, world: &World, text: &str) -> Result<bool, Fail> {
    let certificate = world.certificate(alloc)?;
    let mut lines = Vec::new(alloc);
    text_writers::write_certificate(&certificate, &mut lines)?;
    Ok(lines.as_slice() == text.as_bytes())
}

#[test]
fn two_cpus_one_granule(rt: HostRuntime) -> Result<(), Fail> {
    let world = two_cpus(rt.alloc(), 4, "c4000151 1000\n", "c4000151 1000\n")?;
    expect_run(
        &rt,
        world,
        "0c 1c 0t 11 0k 11 0f 1t 0r 1k 0i 1f 0i 1r 0i 1i",
        "rmh1 4 2\nc 0 0 c4000151 1000\nc 1 0 c4000151 1000\nr 0 0 ok\nr 1 0 err 1 0\n",
        "k 0 0\nk 1 0\n",
    )
}

#[test]
fn stopped_with_a_lock(rt: HostRuntime) -> Result<(), Fail> {
    let world = two_cpus(rt.alloc(), 4, "c4000151 1000\n", "c4000151 1000\n")?;
    expect_run(
        &rt,
        world,
        "0k1 0s 0i 1c 0i 11 0i 11",
        "rmh1 4 2\nc 0 0 c4000151 1000\nc 1 0 c4000151 1000\n",
        "u 0 0 ok\n",
    )
}

#[test]
fn given_up_with_a_lock(rt: HostRuntime) -> Result<(), Fail> {
    let world = two_cpus(rt.alloc(), 4, "c4000151 1000\n", "c4000151 1000\n")?;
    expect_run(
        &rt,
        world,
        "0c 0t 1c 11 0g 0i 1t 1k 1f 1r 0i 1i",
        "rmh1 4 2\nc 0 0 c4000151 1000\nc 1 0 c4000151 1000\nr 1 0 ok\n",
        "k 1 0\n",
    )
}

// Whether CPU 1 alone waits, and for the granule 1000.
fn waits_for_a_granule(world: &World) -> bool {
    if world.config().cpus() < 2 || world.waits(0).is_some() {
        return false;
    }
    matches!(world.waits(1), Some(granule) if granule.address() == 0x1000)
}

// Whether CPU 1 waits once the world has played the script.
fn waits_after(world: &mut World, alloc: Global, script: &str) -> Result<bool, Fail> {
    play(world, alloc, script)?;
    Ok(waits_for_a_granule(world))
}

fn waits_once(world: &mut World, alloc: Global) -> Result<bool, Fail> {
    Ok(
        !waits_after(world, alloc, "0c 0t 1c")?
            && waits_after(world, alloc, "11 0g")?
            && !waits_after(world, alloc, "1t")?,
    )
}

#[test]
fn waits_until_the_lock_is_free(rt: HostRuntime) -> Result<(), Fail> {
    let mut world = two_cpus(rt.alloc(), 4, "c4000151 1000\n", "c4000151 1000\n")?;
    let waits = waits_once(&mut world, rt.alloc());
    drop(world);
    assert!(rt; waits?);
    Ok(())
}

#[test]
fn destroyed_between_an_enters_takes(rt: HostRuntime) -> Result<(), Fail> {
    let first = "c4000151 1000\nc4000151 2000\nc4000151 5000\nc4000151 6000\nc4000151 7000\n\
        c4000158 1000 2000 27 1 1 0\nc400015a 1000 5000 0 1 6000 7000\nc4000157 1000\nc400015c 5000\n";
    let world = two_cpus(rt.alloc(), 16, first, "c400015b 5000\n")?;
    expect_run(
        &rt,
        world,
        "0c9 0f1 1r1 0r1",
        "rmh1 16 2\nc 0 0 c4000151 1000\nr 0 0 ok\nc 0 1 c4000151 2000\nr 0 1 ok\n\
        c 0 2 c4000151 5000\nr 0 2 ok\nc 0 3 c4000151 6000\nr 0 3 ok\nc 0 4 c4000151 7000\nr 0 4 ok\n\
        c 0 5 c4000158 1000 2000 27 1 1 0\nr 0 5 ok\nc 0 6 c400015a 1000 5000 0 1 6000 7000\nr 0 6 ok\n\
        c 0 7 c4000157 1000\nr 0 7 ok\nc 0 8 c400015c 5000\nc 1 0 c400015b 5000\nr 1 0 ok\nr 0 8 err 1 0\n",
        "k 0 0\nk 0 1\nk 0 2\nk 0 3\nk 0 4\nk 0 5\nk 0 6\nk 0 7\nk 1 0\nk 0 8\n",
    )
}

#[test]
fn realms_created_crosswise(rt: HostRuntime) -> Result<(), Fail> {
    let first = "c4000151 1000\nc4000151 2000\nc4000158 1000 2000 27 1 1 0\n";
    let world = two_cpus(rt.alloc(), 4, first, "c4000158 2000 1000 27 1 2 0\n")?;
    expect_run(
        &rt,
        world,
        "0c3 0t1 1c 11 0r1 1r1",
        "rmh1 4 2\nc 0 0 c4000151 1000\nr 0 0 ok\nc 0 1 c4000151 2000\nr 0 1 ok\n\
        c 0 2 c4000158 1000 2000 27 1 1 0\nc 1 0 c4000158 2000 1000 27 1 2 0\nr 0 2 ok\nr 1 0 err 1 0\n",
        "k 0 0\nk 0 1\nk 0 2\nk 1 0\n",
    )
}

#[test]
fn frees_both_locks_before_it_returns(rt: HostRuntime) -> Result<(), Fail> {
    let first = "c4000151 1000\nc4000151 2000\nc4000158 1000 2000 27 1 1 0\n";
    let world = two_cpus(rt.alloc(), 4, first, "c4000151 2000\n")?;
    expect_run(
        &rt,
        world,
        "0r2 0c 0t 0t 1c 0k 12 0f 1t 0f 0r 1k 1f 1r 0i 1i",
        "rmh1 4 2\nc 0 0 c4000151 1000\nr 0 0 ok\nc 0 1 c4000151 2000\nr 0 1 ok\n\
        c 0 2 c4000158 1000 2000 27 1 1 0\nc 1 0 c4000151 2000\nr 0 2 ok\nr 1 0 err 1 0\n",
        "k 0 0\nk 0 1\nk 0 2\nk 1 0\n",
    )
}

// A world with the programs and an empty one after them, without which it can't be opened.
fn opened_with_one_more(alloc: Global, mut programs: Vec<Vec<Command>>) -> Result<World, Fail> {
    let config = Config::new(4, 2).ok_or("no such machine")?;
    if can_open(&config, &programs) {
        return Err(Fail::from("a CPU without a program"));
    }
    programs.push(Vec::new(alloc))?;
    opened(alloc, &config, programs)
}

fn is_at_its_start(world: &World, alloc: Global) -> Result<bool, Fail> {
    Ok(
        waits_for_nothing(world)
            && world.history(alloc)?.is_empty()
            && world.certificate(alloc)?.is_empty(),
    )
}

fn waits_for_nothing(world: &World) -> bool {
    world.config().cpus() > 0 && world.waits(0).is_none()
}

#[test]
fn opens_a_program_a_cpu(rt: HostRuntime) -> Result<(), Fail> {
    let programs = one_program(rt.alloc(), "c4000151 1000\nc4000152 1000\n")?;
    let world = opened_with_one_more(rt.alloc(), programs)?;
    let is_at_its_start = is_at_its_start(&world, rt.alloc());
    drop(world);
    assert!(rt; is_at_its_start?);
    Ok(())
}
