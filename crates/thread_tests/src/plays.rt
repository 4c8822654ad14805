//! The program's runs of scenario files, in turns and on threads.

use crate::outcomes::{file, file_too_large, outcome, runtime};
use crate::runtime::TestFile;
use std::alloc::Global;
use std::process::Abort;
use std::sync::Wait;
use std::test::Fail;
use std::thread::Threads;

const ONE_GRANULE: &[u8] =
    b"granules = 4\ncpus = 2\nprograms = [[\"c4000151 1000\"], [\"c4000151 1000\"]]\n";

// What a run of it in turns ends with.
const RUN_OF_ONE_GRANULE: &str = "0|rmh1 4 2
c 0 0 c4000151 1000
c 1 0 c4000151 1000
r 0 0 ok
r 1 0 err 1 0

k 0 0
k 1 0

yes 2
|";

// The same granule, and CPU 0 stops after its commit.
const STOPPED: &[u8] =
    b"granules = 4\ncpus = 2\nprograms = [[\"c4000151 1000\"], [\"c4000151 1000\"]]\n\
turns = [\"0\", \"0\", \"0\", \"0 stop\"]\n";

const RUN_OF_STOPPED: &str = "0|rmh1 4 2
c 0 0 c4000151 1000
c 1 0 c4000151 1000

u 0 0 ok

yes 1
|";

const TWO_GRANULES: &[u8] =
    b"granules = 4\ncpus = 2\nprograms = [[\"c4000151 1000\"], [\"c4000151 2000\"]]\n";

const NO_CPUS: &[u8] = b"granules = 4\nprograms = []\n";

const TOO_MANY_GRANULES: &[u8] = b"granules = 4097\ncpus = 1\nprograms = [[]]\n";

const NO_WORD: &[u8] = b"granules = 4\ncpus = 1\nprograms = [[\"c4000151\"]]\n";

const NO_SUCH_CPU: &[u8] = b"granules = 4\ncpus = 2\nprograms = [[], []]\nturns = [\"2\"]\n";

// A scenario of so many commands on CPU 0 and one on CPU 1, of which one turn is played.
fn long_scenario(alloc: Global, count: u32) -> Result<&'static [u8], Fail> {
    let mut text = Vec::new(alloc);
    text.extend_from_slice(b"granules = 4\ncpus = 2\nlimit = 1\nprograms = [[")?;
    for _command in 0..count {
        text.extend_from_slice(b"\"c4000151 1000\",")?;
    }
    text.extend_from_slice(b"], [\"c4000151 1000\"]]\n")?;
    Ok(text.leak())
}

// What the program ends with where it is asked to play this file.
fn played<R: Abort + AllocGlobal + Threads + Wait + Sync>(
    rt: &R,
    words: &'static str,
    scenario: Option<TestFile>,
    is_full: bool,
) -> Result<String, Fail> {
    let mut runtime = runtime(rt.alloc(), words);
    runtime.scenario = scenario;
    runtime.is_full = is_full;
    outcome(rt, runtime)
}

// The program ends so where it is asked to play this file.
fn expect_played<R: Abort + AllocGlobal + Threads + Wait + Sync>(
    rt: &R,
    words: &'static str,
    scenario: Option<TestFile>,
    is_full: bool,
    expected: &str,
) -> Result<(), Fail> {
    let line = played(rt, words, scenario, is_full)?;
    assert!(rt; line.as_str() == expected, "{line} in place of {expected}");
    Ok(())
}

// Played in turns and on threads the file ends so.
fn expect_fault<R: Abort + AllocGlobal + Threads + Wait + Sync>(
    rt: &R,
    scenario: Option<TestFile>,
    is_full: bool,
    expected: &str,
) -> Result<(), Fail> {
    expect_played(rt, "rmmcheck run s", scenario, is_full, expected)?;
    expect_played(rt, "rmmcheck threads s", scenario, is_full, expected)
}

#[test]
fn run_in_turns_is_printed(rt: HostRuntime) -> Result<(), Fail> {
    let words = "rmmcheck run s";
    expect_played(
        &rt,
        words,
        file(ONE_GRANULE, 100),
        false,
        RUN_OF_ONE_GRANULE,
    )?;
    expect_played(&rt, words, file(STOPPED, 100), false, RUN_OF_STOPPED)
}

// All programs together have at most 499,999 commands.
#[test]
fn most_commands_of_a_scenario(rt: HostRuntime) -> Result<(), Fail> {
    let most = file(long_scenario(rt.alloc(), 499_998)?, 2_000_000);
    let one_call = "0|rmh1 4 2\nc 0 0 c4000151 1000\n\n\nyes 0\n|";
    expect_played(&rt, "rmmcheck run s", most, false, one_call)?;
    let too_many = file(long_scenario(rt.alloc(), 499_999)?, 2_000_000);
    expect_fault(&rt, too_many, false, "2||rmmcheck: scenario 3\n")
}

// Whether a call is printed first, and a verdict of two commits last.
fn are_both_committed(text: &str) -> bool {
    text.starts_with("0|rmh1 4 2\nc ") && text.ends_with("\n\nyes 2\n|")
}

// The turns of a scenario aren't used on threads, so that no CPU stops.
#[test]
fn run_on_threads_is_printed(rt: HostRuntime) -> Result<(), Fail> {
    for scenario in [TWO_GRANULES, STOPPED] {
        let text = played(&rt, "rmmcheck threads s", file(scenario, 100), false)?;
        assert!(rt; are_both_committed(text.as_str()), "{text}");
    }
    Ok(())
}

#[test]
fn fault_of_a_scenario_is_told(rt: HostRuntime) -> Result<(), Fail> {
    expect_fault(&rt, file(b"\xff", 100), false, "2||rmmcheck: scenario 1\n")?;
    expect_fault(&rt, file(NO_CPUS, 100), false, "2||rmmcheck: scenario 2\n")?;
    expect_fault(
        &rt,
        file(TOO_MANY_GRANULES, 100),
        false,
        "2||rmmcheck: scenario 3\n",
    )?;
    expect_fault(&rt, file(NO_WORD, 100), false, "2||rmmcheck: scenario 4\n")?;
    expect_fault(
        &rt,
        file(NO_SUCH_CPU, 100),
        false,
        "2||rmmcheck: scenario 5\n",
    )
}

#[test]
fn fault_of_a_device_is_told(rt: HostRuntime) -> Result<(), Fail> {
    let (unread, refused) = ("3||rmmcheck: cannot read s\n", "3||rmmcheck: no memory\n");
    expect_fault(&rt, None, true, unread)?;
    expect_fault(&rt, file(ONE_GRANULE, 2), true, unread)?;
    expect_fault(&rt, file_too_large(ONE_GRANULE, 0), false, refused)?;
    expect_fault(&rt, file_too_large(ONE_GRANULE, 2), false, refused)?;
    expect_fault(
        &rt,
        file(ONE_GRANULE, 100),
        true,
        "3||rmmcheck: cannot write\n",
    )
}
