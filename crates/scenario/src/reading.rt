//! Bytes, read as a scenario.

ghost use Rattle.std.specs.Prelude.{IfOk, IfErr};
ghost use Rattle.toml.specs.View.{table_view};
ghost use Rattle.rmm_spec.specs.Scenario.{IsStatedBy};
ghost use Rattle.scenario.specs.ScenarioText.{IsScenarioText, StatesScenario, IsFirstFault, IsTableFault, IsValueFault};
ghost use Rattle.scenario.specs.SeenTexts.{stated_seen};

use crate::Scenario;
use crate::fault::ScenarioFault;
use crate::keys::Stated;
use crate::limits::sizes_of;
use crate::program::programs_from;
use crate::turn::turns_from;
use std::alloc::Global;
use toml::Table;

/// Reads the scenario that bytes state. Where they state none, the first of their faults is told; and memory may be refused,
/// unless they aren't UTF-8 or have only white space and comments.
pub fn read_scenario(alloc: Global, bytes: &[u8]) -> Result<Scenario, ScenarioFault>
    ensures scenario { IfOk result (λ scenario. IsScenarioText bytes.now scenario) }
    ensures fault { IfErr result (λ fault. IsFirstFault fault bytes.now) }
{
    let Ok(text) = std::str::from_utf8(bytes) else {
        return Err(ScenarioFault::NoDocument);
    };
    match toml::table_from_str(alloc, text) {
        Ok(table) => scenario_in(alloc, &table),
        Err(error) => {
            if error.is_memory() {
                Err(ScenarioFault::NoMemory)
            } else {
                Err(ScenarioFault::NoDocument)
            }
        }
    }
}

// The scenario that a document's table states.
fn scenario_in(alloc: Global, table: &Table) -> Result<Scenario, ScenarioFault>
    ensures scenario { IfOk result (λ scenario. StatesScenario (table_view table.now) scenario) }
    ensures fault { IfErr result (λ fault. IsTableFault fault (table_view table.now)) }
{
    match Stated::of(alloc, table) {
        Ok(stated) => scenario_of(alloc, &stated),
        Err(fault) => Err(fault),
    }
}

// The scenario of what is stated.
fn scenario_of(alloc: Global, stated: &Stated<'_>) -> Result<Scenario, ScenarioFault>
    ensures scenario { IfOk result (λ scenario. IsStatedBy (stated_seen stated.now) scenario) }
    ensures fault { IfErr result (λ fault. IsValueFault fault (stated_seen stated.now)) }
{
    let Some(sizes) = sizes_of(stated) else {
        return Err(ScenarioFault::OutOfRange);
    };
    let Some(programs) = programs_from(alloc, stated.programs.as_slice())? else {
        return Err(ScenarioFault::NoCommand);
    };
    let Some(turns) = turns_from(alloc, stated.turns.as_slice(), sizes.config.cpus())? else {
        return Err(ScenarioFault::NoTurn);
    };
    Ok(Scenario::new(sizes.config, programs, sizes.queue, turns, sizes.limit))
}
