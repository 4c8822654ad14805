//! Commands that walk a realm's tables. Replies were worked out by hand: of those that a RIPAS command may give, a world gives
//! the one that sets the most.

use crate::worlds::{expect_run, expect_texts, one_program, opened, play, two_cpus};
use memory_map::Config;
use std::alloc::Global;
use std::fmt::Write;
use std::process::Abort;
use std::test::Fail;
use world::World;

// Each line is a command of one CPU and its reply.
pub(crate) const TABLES: &str = "\
c4000151 1000 -> ok
c4000151 2000 -> ok
c4000151 3000 -> ok
c4000151 4000 -> ok
c4000151 5000 -> ok
c4000158 1000 2000 27 1 1 0 -> ok
c400015d 1000 3000 0 2 -> ok
c400015d 1000 4000 0 3 -> ok
c4000154 1000 5000 1ff000 -> ok
c400015e 1000 0 3 -> err 4 3
c4000155 1000 1ff000 -> ok 5000
c400015e 1000 0 3 -> ok 4000
c4000161 1000 0 3 -> ok 2 0 0 2
";

pub(crate) const RIPAS: &str = "\
c4000151 1000 -> ok
c4000151 2000 -> ok
c4000151 3000 -> ok
c4000151 4000 -> ok
c4000151 5000 -> ok
c4000151 6000 -> ok
c4000151 7000 -> ok
c4000158 1000 2000 27 1 1 0 -> ok
c400015a 1000 5000 0 1 6000 7000 -> ok
c400015d 1000 3000 0 2 -> ok
c400015d 1000 4000 0 3 -> ok
c4000157 1000 -> ok
c400015c 5000 -> ok 0
c4000197 0 3000 1 -> ok
00000001 -> ok 4 0 3000 1
c4000169 1000 5000 0 3000 -> ok 3000
c4000169 1000 5000 1000 3000 -> err 1 0
c400015c 5000 -> ok 3000
c4000198 2000 -> ok 1
";

// The texts of a run in which each command is answered before the next.
#[derive(Drop)]
pub(crate) struct Texts {
    pub(crate) program: String,
    pub(crate) history: String,
    pub(crate) certificate: String,
}

impl Texts {
    fn new(alloc: Global) -> Texts {
        Texts {
            program: String::new(alloc),
            history: String::new(alloc),
            certificate: String::new(alloc),
        }
    }

    fn add(&mut self, number: usize, command: &str, reply: &str) -> Result<(), Fail> {
        write!(self.program, "{command}\n")?;
        write!(
            self.history,
            "c 0 {number} {command}\nr 0 {number} {reply}\n"
        )?;
        write!(self.certificate, "k 0 {number}\n")?;
        Ok(())
    }

    fn add_lines(&mut self, script: &str) -> Result<(), Fail> {
        for (number, line) in script.lines().enumerate() {
            let (command, reply) = line.split_once(" -> ").ok_or("a line without a reply")?;
            self.add(number, command, reply)?;
        }
        Ok(())
    }
}

pub(crate) fn texts_of(alloc: Global, script: &str) -> Result<Texts, Fail> {
    let mut texts = Texts::new(alloc);
    texts.history.push_str("rmh1 16 1\n")?;
    texts.add_lines(script)?;
    Ok(texts)
}

fn one_cpu(alloc: Global, commands: &str) -> Result<World, Fail> {
    let config = Config::new(16, 1).ok_or("no such machine")?;
    opened(alloc, &config, one_program(alloc, commands)?)
}

// Lets the one CPU of a world answer as many commands as there are.
fn play_all(world: &mut World, alloc: Global, commands: &str) -> Result<(), Fail> {
    for _command in commands.lines() {
        play(world, alloc, "0r1")?;
    }
    Ok(())
}

// The world of one CPU answers each command so.
fn expect_replies<R: Abort + AllocGlobal>(rt: &R, script: &str) -> Result<(), Fail> {
    expect_answers(rt, &texts_of(rt.alloc(), script)?)
}

fn expect_answers<R: Abort + AllocGlobal>(rt: &R, texts: &Texts) -> Result<(), Fail> {
    let mut world = one_cpu(rt.alloc(), texts.program.as_str())?;
    expect_played(rt, &mut world, texts)
}

fn expect_played<R: Abort + AllocGlobal>(
    rt: &R,
    world: &mut World,
    texts: &Texts,
) -> Result<(), Fail> {
    play_all(world, rt.alloc(), texts.program.as_str())?;
    expect_texts(
        rt,
        world,
        texts.history.as_str(),
        texts.certificate.as_str(),
    )
}

#[test]
fn tables_are_made_and_taken_down(rt: HostRuntime) -> Result<(), Fail> {
    expect_replies(&rt, TABLES)
}

#[test]
fn ripas_is_set_as_far_as_its_rows_allow(rt: HostRuntime) -> Result<(), Fail> {
    expect_replies(&rt, RIPAS)
}

// A CPU stops with a table's lock once its page is mapped, and the other waits at that table.
#[test]
fn destroys_no_table_that_a_stopped_cpu_holds(rt: HostRuntime) -> Result<(), Fail> {
    let first = "c4000151 1000\nc4000151 2000\nc4000151 3000\nc4000151 4000\nc4000151 5000\n\
        c4000158 1000 2000 27 1 1 0\nc400015d 1000 3000 0 2\nc400015d 1000 4000 0 3\nc4000154 1000 5000 0\n";
    let world = two_cpus(rt.alloc(), 16, first, "c400015e 1000 0 3\n")?;
    expect_run(
        &rt,
        world,
        "0k9 0s 1c 141 14 0i 14",
        "rmh1 16 2\nc 0 0 c4000151 1000\nr 0 0 ok\nc 0 1 c4000151 2000\nr 0 1 ok\n\
        c 0 2 c4000151 3000\nr 0 2 ok\nc 0 3 c4000151 4000\nr 0 3 ok\nc 0 4 c4000151 5000\nr 0 4 ok\n\
        c 0 5 c4000158 1000 2000 27 1 1 0\nr 0 5 ok\nc 0 6 c400015d 1000 3000 0 2\nr 0 6 ok\n\
        c 0 7 c400015d 1000 4000 0 3\nr 0 7 ok\nc 0 8 c4000154 1000 5000 0\nc 1 0 c400015e 1000 0 3\n",
        "k 0 0\nk 0 1\nk 0 2\nk 0 3\nk 0 4\nk 0 5\nk 0 6\nk 0 7\nu 0 8 ok\n",
    )
}
