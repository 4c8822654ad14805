//! A file and lines of calls, worked out by hand.

use scenario::{Scenario, read_scenario, write_calls, write_scenario};
use std::alloc::{AllocError, Global};
use std::process::Abort;
use std::test::Fail;

const READ: &str = "granules = 4
cpus = 3
programs = [['c4000151 1000', '84000002'], [], ['c4000152 3000']]
turns = ['0', '2 stop', '1 giveup']
queue = 64
version = 2
";

const WRITTEN: &str = "cpus = 3
granules = 4
limit = 1000000
programs = [
    [
    \"c4000151 1000\",
    \"84000002\",
],
    [],
    [\"c4000152 3000\"],
]
queue = 64
turns = [
    \"0\",
    \"2 stop\",
    \"1 giveup\",
]
version = 2
";

const CALLS: &str = "0 c4000151 1000
0 84000002
2 c4000152 3000
";

fn scenario(rt: &impl AllocGlobal) -> Result<Scenario, Fail> {
    match read_scenario(rt.alloc(), READ.as_bytes()) {
        Ok(scenario) => Ok(scenario),
        Err(_) => Err(Fail::from("no scenario")),
    }
}

fn is_written(alloc: Global, scenario: &Scenario) -> Result<bool, AllocError> {
    Ok(write_scenario(alloc, scenario)?.as_str() == WRITTEN)
}

#[test]
fn each_key_is_written(rt: HostRuntime) -> Result<(), Fail> {
    let is_written = is_written(rt.alloc(), &scenario(&rt)?);
    assert!(rt; is_written?);
    Ok(())
}

fn has_its_calls(alloc: Global, scenario: &Scenario) -> Result<bool, AllocError> {
    let mut lines = Vec::new(alloc);
    write_calls(scenario.programs(), &mut lines)?;
    Ok(lines.as_slice() == CALLS.as_bytes())
}

#[test]
fn each_call_is_a_line(rt: HostRuntime) -> Result<(), Fail> {
    let has_its_calls = has_its_calls(rt.alloc(), &scenario(&rt)?);
    assert!(rt; has_its_calls?);
    Ok(())
}
