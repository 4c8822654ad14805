//! Scenario files, and what is read of them.

use crate::lines::expect_line;
use rmm_spec::{Command, Version, Will};
use scenario::{Due, Scenario, ScenarioFault, read_scenario};
use std::process::Abort;
use std::test::Fail;

// The number of the fault that bytes have, or 0.
fn fault_number(rt: &(impl AllocGlobal + Abort), bytes: &[u8]) -> u8 {
    match read_scenario(rt.alloc(), bytes) {
        Ok(_) => 0,
        Err(ScenarioFault::NoDocument) => 1,
        Err(ScenarioFault::WrongKey) => 2,
        Err(ScenarioFault::OutOfRange) => 3,
        Err(ScenarioFault::NoCommand) => 4,
        Err(ScenarioFault::NoTurn) => 5,
        Err(ScenarioFault::NoMemory) => 6,
    }
}

// Each paragraph is a scenario of two CPUs, behind a line with the number of its fault.
fn all_have_their_faults(rt: &(impl AllocGlobal + Abort), paragraphs: &str) -> Result<(), Fail> {
    for paragraph in paragraphs.split("\n\n") {
        let holds = has_its_fault(rt, paragraph)?;
        expect_line(rt, holds, paragraph);
    }
    Ok(())
}

fn has_its_fault(rt: &(impl AllocGlobal + Abort), paragraph: &str) -> Result<bool, Fail> {
    let (number, text) = paragraph.split_once('\n').ok_or("a line before the text")?;
    Ok(fault_number(rt, text.as_bytes()) == number.parse::<u8>()?)
}

#[test]
fn one_fault_each(rt: HostRuntime) -> Result<(), Fail> {
    assert_eq!(rt; fault_number(&rt, &[0xff]), 1);
    all_have_their_faults(
        &rt,
        "2
granules = 4
programs = [['c4000151 1000'], []]

3
granules = 4097
cpus = 2
programs = [[], []]

4
granules = 4
cpus = 2
programs = [['c4000151'], []]

5
granules = 4
cpus = 2
programs = [[], []]
turns = ['2']

0
granules = 4
cpus = 2
programs = [[], []]
turns = ['1']",
    )
}

#[test]
fn the_lesser_of_two_faults(rt: HostRuntime) -> Result<(), Fail> {
    all_have_their_faults(
        &rt,
        "1
granules = 4097 4

2
granules = 4097
programs = [['c4000151'], []]

2
granules = 4
cpus = 2
programs = [['c4000151'], []]
turns = ['2', 2]

2
granules = 4
cpus = 2
programs = [[], []]
turns = ['2']
speed = 1

3
granules = 4097
cpus = 2
programs = [['c4000151'], []]

3
granules = 4
cpus = 2
programs = [['c4000151'], []]
turns = ['2']
limit = 0

4
granules = 4
cpus = 2
programs = [[], ['c4000151 1000', 'c4000151']]
turns = ['2']",
    )
}

// Keys that are missing or unknown, and values of another kind.
const KEYS_AND_KINDS: &str = "2
# no keys

2
granules = 4
cpus = 1

2
granules = 4
cpus = 1
programs = [[]]
speed = 1

2
granules = 4
cpus = 1
programs = [[]]
Limit = 1

2
granules = 4.0
cpus = 1
programs = [[]]

2
granules = '4'
cpus = 1
programs = [[]]

2
granules = inf
cpus = 1
programs = [[]]

2
granules = 1979-05-27
cpus = 1
programs = [[]]

2
granules = 07:32:00
cpus = 1
programs = [[]]

2
granules = true
cpus = 1
programs = [[]]

2
granules.count = 4
cpus = 1
programs = [[]]

2
granules = { count = 4 }
cpus = 1
programs = [[]]

2
granules = 4
cpus = 1
programs = { first = [] }

2
granules = 4
cpus = 1
programs = []
[machine]

2
granules = 4
cpus = 1
[[programs]]

2
granules = 4
cpus = 1
programs = ['c4000151 1000']

2
granules = 4
cpus = 1
programs = [[['c4000151 1000']]]

2
granules = 4
cpus = 1
programs = [['c4000151 1000', 1]]

2
granules = 4
cpus = 1
programs = [[]]
turns = '0'

2
granules = 4
cpus = 1
programs = [[]]
turns = [0]

2
granules = 4
cpus = 1
programs = [[]]
queue = 1e3

0
\"granules\" = 4
'cpus' = 1
programs = [[]] # none
turns = []";

#[test]
fn keys_and_kinds(rt: HostRuntime) -> Result<(), Fail> {
    all_have_their_faults(&rt, KEYS_AND_KINDS)
}

// What the grammar of TOML takes or refuses.
const GRAMMAR_OF_TOML: &str = "1
granules = 4
granules = 4
cpus = 1
programs = [[]]

1
granules = 4
cpus = 1
\"cpus\" = 1
programs = [[]]

1
granules = 4
cpus = 1
cpus.count = 1
programs = [[]]

1
granules = 04
cpus = 1
programs = [[]]

1
granules = 9223372036854775808
cpus = 1
programs = [[]]

1
granules =
cpus = 1
programs = [[]]

1
granules = 4
cpus = 1
programs = [[]

3
granules = 9223372036854775807
cpus = 1
programs = [[]]

3
granules = -9223372036854775808
cpus = 1
programs = [[]]

3
granules = -1
cpus = 1
programs = [[]]

3
granules = -0
cpus = 1
programs = [[]]

3
granules = 4
cpus = 1
programs = [[]]
queue = -9223372036854775808

0
granules = 4
cpus = 1
programs = [[]]
queue = 1_000

0
granules = 0x1000
cpus = +1
programs = [
    # two commands
    ['''c4000151 1000''', \"c4000152\\u00201000\"],
]";

#[test]
fn by_the_grammar_of_toml(rt: HostRuntime) -> Result<(), Fail> {
    all_have_their_faults(&rt, GRAMMAR_OF_TOML)?;
    let marked = b"\xef\xbb\xbfgranules = 4\r\ncpus = 1\r\nprograms = [[]]\r\n";
    assert_eq!(rt; fault_number(&rt, marked), 0);
    assert_eq!(rt; fault_number(&rt, &marked[1..]), 1);
    assert_eq!(rt;
        fault_number(&rt, b"granules = 4\rcpus = 1\rprograms = [[]]\r"),
        1
    );
    Ok(())
}

// The ends of each range.
const RANGES: &str = "0
granules = 1
cpus = 1
programs = [[]]
queue = 1
limit = 1

0
granules = 4096
cpus = 8
programs = [[], [], [], [], [], [], [], []]
queue = 65536
limit = 10000000

3
granules = 0
cpus = 1
programs = [[]]

3
granules = 1
cpus = 0
programs = []

3
granules = 1
cpus = 9
programs = [[], [], [], [], [], [], [], [], []]

3
granules = 1
cpus = 1
programs = []

3
granules = 1
cpus = 2
programs = [[]]

3
granules = 1
cpus = 1
programs = [[], []]

3
granules = 1
cpus = 1
programs = [[]]
queue = 0

3
granules = 1
cpus = 1
programs = [[]]
queue = 65537

3
granules = 1
cpus = 1
programs = [[]]
limit = 0

3
granules = 1
cpus = 1
programs = [[]]
limit = 10000001";

#[test]
fn ranges(rt: HostRuntime) -> Result<(), Fail> {
    all_have_their_faults(&rt, RANGES)
}

#[test]
fn versions(rt: HostRuntime) -> Result<(), Fail> {
    expect_versions(&rt, 0, "1|2|0x2")?;
    expect_versions(&rt, 3, "0|3|-1|4294967297|9223372036854775807")?;
    expect_versions(&rt, 2, "'2'|2.0|[2]|true")
}

fn expect_versions(rt: &(impl AllocGlobal + Abort), fault: u8, texts: &str) -> Result<(), Fail> {
    for text in texts.split('|') {
        let number = fault_of_version(rt, text)?;
        expect_line(rt, number == fault, text);
    }
    Ok(())
}

fn fault_of_version(rt: &(impl AllocGlobal + Abort), text: &str) -> Result<u8, Fail> {
    let scenario = format!(in rt.alloc();
        "granules = 4\ncpus = 1\nprograms = [[]]\nversion = {text}\n"
    )?;
    Ok(fault_number(rt, scenario.as_bytes()))
}

#[test]
fn commands_and_turns(rt: HostRuntime) -> Result<(), Fail> {
    let no_commands = "c4000151|c4000151 |c4000151  1000| c4000151 1000|c4000151 1000 |\
        C4000151 1000|c4000151 01000|c4000151 1000 2000|c4000150 1|";
    let no_turns = "2|01|0 go|0 Stop|0  stop|0 stop | 0|giveup|-1|0stop|0 give up|";
    expect_commands(&rt, 4, no_commands)?;
    expect_turns(&rt, 5, no_turns)?;
    expect_turns(&rt, 0, "0 stop|0 giveup|1|1 stop|0")
}

fn expect_commands(rt: &(impl AllocGlobal + Abort), fault: u8, texts: &str) -> Result<(), Fail> {
    for text in texts.split('|') {
        let number = fault_of_command(rt, text)?;
        expect_line(rt, number == fault, text);
    }
    Ok(())
}

fn fault_of_command(rt: &(impl AllocGlobal + Abort), text: &str) -> Result<u8, Fail> {
    let scenario = format!(in rt.alloc(); "granules = 4\ncpus = 2\nprograms = [[], ['{text}']]\n")?;
    Ok(fault_number(rt, scenario.as_bytes()))
}

fn expect_turns(rt: &(impl AllocGlobal + Abort), fault: u8, texts: &str) -> Result<(), Fail> {
    for text in texts.split('|') {
        let number = fault_of_turn(rt, text)?;
        expect_line(rt, number == fault, text);
    }
    Ok(())
}

fn fault_of_turn(rt: &(impl AllocGlobal + Abort), text: &str) -> Result<u8, Fail> {
    let scenario = format!(in rt.alloc();
        "granules = 4\ncpus = 2\nprograms = [[], []]\nturns = ['0', '{text}']\nlimit = 1\n"
    )?;
    Ok(fault_number(rt, scenario.as_bytes()))
}

const STATED: &str = "granules = 16
cpus = 2
programs = [['c4000151 1000'], ['c4000151 2000', 'c4000152 2000']]
queue = 7
limit = 2
version = 2
turns = ['0', '1 giveup', '0 stop']
";

fn has_its_numbers(scenario: &Scenario) -> bool {
    let config = scenario.config();
    config.granules() == 16
        && config.cpus() == 2
        && matches!(config.version(), Version::Two)
        && scenario.queue() == 7
        && scenario.limit() == 2
}

fn has_its_programs(programs: &[Vec<Command>]) -> bool {
    match programs {
        [_, second] => ends_in_its_command(second.as_slice()),
        _ => false,
    }
}

fn ends_in_its_command(program: &[Command]) -> bool {
    matches!(program.last(), Some(last) if last.words.as_slice() == [0x2000].as_slice())
}

fn has_its_turns(turns: &[Due]) -> bool {
    match turns {
        [first, second, third] => {
            (first.cpu, second.cpu, third.cpu) == (0, 1, 0)
                && matches!(first.will, Will::Go)
                && matches!(second.will, Will::GiveUp)
                && matches!(third.will, Will::Stop)
        }
        _ => false,
    }
}

#[test]
fn what_is_stated(rt: HostRuntime) -> Result<(), Fail> {
    let scenario = read_scenario(rt.alloc(), STATED.as_bytes())?;
    assert!(rt; has_its_numbers(&scenario));
    assert!(rt; has_its_programs(scenario.programs()) && has_its_turns(scenario.turns()));
    Ok(())
}

fn is_filled_up(scenario: &Scenario) -> bool {
    scenario.queue() == 4096
        && scenario.limit() == 1_000_000
        && matches!(scenario.config().version(), Version::One)
        && scenario.turns().is_empty()
}

#[test]
fn what_is_left_out(rt: HostRuntime) -> Result<(), Fail> {
    let scenario = read_scenario(rt.alloc(), b"granules = 1\ncpus = 1\nprograms = [[]]")?;
    assert!(rt; is_filled_up(&scenario));
    Ok(())
}
