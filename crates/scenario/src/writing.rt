//! A scenario as the bytes of a file.

ghost use Rattle.std.specs.Prelude.{◌≡◌, IfOk, OnOk, pos, string_bytes};
ghost use Rattle.rmm_spec.specs.Scenario.{IsScenario, version_number};
ghost use Rattle.scenario.specs.ScenarioText.{IsScenarioText};
ghost use Rattle.scenario.specs.Written.{scenario_members, with_member};
ghost use Rattle.toml.specs.Data.{integer};
ghost use Rattle.toml.specs.View.{table_view, view};

use crate::Scenario;
use crate::lists::{programs_value, turns_value};
use rmm_spec::Version;
use std::alloc::{AllocError, Global};
use toml::ser::Error;
use toml::{Table, Value};

/// Writes a scenario as a file that states it, with a line for each command and each turn where there are two or more.
pub fn write_scenario(alloc: Global, scenario: &Scenario) -> Result<String, AllocError>
    ensures { IfOk result (λ text. IsScenarioText (string_bytes text) scenario.now) }
{
    let table = table_of(alloc, scenario)?;
    match toml::table_to_string_pretty(alloc, &table) {
        Ok(text) => Ok(text),
        Err(Error::OutOfMemory) => Err(AllocError),
        Err(Error::DateInvalid) => unreachable!(),
    }
}

// The table of its document.
fn table_of(alloc: Global, scenario: &Scenario) -> Result<Table, AllocError>
    ensures members { IfOk result (λ table. table_view table ≡ scenario_members scenario.now) }
    ensures limits { IfOk result (λ _. IsScenario scenario.now) }
{
    let config = scenario.config();
    let mut table = Table::new(alloc);
    put_whole(&mut table, alloc, "cpus", u32::from(config.cpus()))?;
    put_whole(&mut table, alloc, "granules", config.granules() as u32)?;
    put_whole(&mut table, alloc, "limit", scenario.limit())?;
    put(
        &mut table,
        alloc,
        "programs",
        programs_value(alloc, scenario.programs())?,
    )?;
    put_whole(&mut table, alloc, "queue", scenario.queue() as u32)?;
    put(
        &mut table,
        alloc,
        "turns",
        turns_value(alloc, scenario.turns())?,
    )?;
    put_whole(
        &mut table,
        alloc,
        "version",
        version_number(config.version()),
    )?;
    Ok(table)
}

// Puts a whole number under a key.
fn put_whole(table: &mut Table, alloc: Global, key: &str, number: u32) -> Result<(), AllocError>
    ensures { OnOk result (table_view table.new ≡ with_member key.now (integer (pos number)) (table_view table.old)) }
{
    put(table, alloc, key, Value::Integer(i64::from(number)))
}

// Puts a value under a key.
fn put(table: &mut Table, alloc: Global, key: &str, value: Value) -> Result<(), AllocError>
    ensures { OnOk result (table_view table.new ≡ with_member key.now (view value) (table_view table.old)) }
{
    let _ = table.insert(String::from_str(alloc, key)?, value)?;
    Ok(())
}

// The number of a version.
fn version_number(version: Version) -> u32
    ensures { result ≡ version_number version }
{
    match version {
        Version::One => 1,
        Version::Two => 2,
        Version::Large => 0,
    }
}
