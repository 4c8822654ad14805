//! A report of a scenario file, as text.

ghost use Rattle.std.specs.Prelude.{◌≡◌, ◌≢◌, ◌++◌, ℕ, List, IfNone, IfOk, IfSome, OnOk, OnErr};
ghost use Rattle.rmm_spec.specs.Scenario.{Scenario};
ghost use Rattle.scenario.specs.declared.fault.ScenarioFault.TheVariants.{NoMemory};
ghost use Rattle.scenario.specs.ScenarioText.{IsFirstFault, IsScenarioText};
ghost use Rattle.scenario_report.specs.FirstLine.{first_line};

use crate::ScenarioText;
use crate::finding::flaw_in;
use crate::place::place_of;
use scenario::{ScenarioFault, read_scenario};
use std::alloc::{AllocError, Global};
use toml::Table;

/// Appends a report of what bytes are as a scenario file, and returns their first fault, if they have one. The report begins
/// with the line of that; behind it stand lines for people. Nothing is appended where memory is refused.
pub fn report(
    alloc: Global,
    bytes: &[u8],
    out: &mut Vec<u8>,
) -> Result<Option<ScenarioFault>, AllocError>
    ensures good { IfOk result (λ fault. IfNone fault ((scenario : Scenario) × IsScenarioText bytes.now scenario)) }
    ensures fault { IfOk result (λ fault. IfSome fault (λ f. IsFirstFault f bytes.now × (f ≢ NoMemory))) }
    ensures text { IfOk result (λ fault. (more : List ℕ) × (out.new.items ≡ out.old.items ++ (first_line fault ++ more))) }
    ensures err { OnErr result (out.new.items ≡ out.old.items) }
{
    match read_scenario(alloc, bytes) {
        Ok(scenario) => {
            let lines = format!(in alloc; "{}", ScenarioText(&scenario))?;
            append(alloc, None, lines.as_bytes(), out)?;
            Ok(None)
        }
        Err(ScenarioFault::NoMemory) => Err(AllocError),
        Err(fault) => {
            let lines = flaw_lines(alloc, bytes, fault)?;
            append(alloc, Some(fault), lines.as_bytes(), out)?;
            Ok(Some(fault))
        }
    }
}

// Appends the first line and these, or nothing.
fn append(
    alloc: Global,
    fault: Option<ScenarioFault>,
    lines: &[u8],
    out: &mut Vec<u8>,
) -> Result<(), AllocError>
    ensures ok { OnOk result (out.new.items ≡ out.old.items ++ (first_line fault ++ lines.now)) }
    ensures err { OnErr result (out.new.items ≡ out.old.items) }
{
    let mut text = Vec::new(alloc);
    text.extend_from_slice(first_line(fault))?;
    text.extend_from_slice(lines)?;
    out.extend_from_slice(text.as_slice())
}

fn first_line(fault: Option<ScenarioFault>) -> &'static [u8]
    ensures { result.now ≡ first_line fault }
{
    match fault {
        None => b"scenario good\n",
        Some(ScenarioFault::NoDocument) => b"scenario 1\n",
        Some(ScenarioFault::WrongKey) => b"scenario 2\n",
        Some(ScenarioFault::OutOfRange) => b"scenario 3\n",
        Some(ScenarioFault::NoCommand) => b"scenario 4\n",
        Some(ScenarioFault::NoTurn) => b"scenario 5\n",
        Some(ScenarioFault::NoMemory) => b"",
    }
}

// What is at fault in bytes with this fault, in words.
fn flaw_lines(alloc: Global, bytes: &[u8], fault: ScenarioFault) -> Result<String, AllocError> {
    match toml::table_from_slice(alloc, bytes) {
        Ok(table) => flaw_lines_in(alloc, bytes, &table, fault),
        Err(error) if error.is_memory() => Err(AllocError),
        Err(error) => format!(in alloc; "wrong: {error}"),
    }
}

fn flaw_lines_in(
    alloc: Global,
    bytes: &[u8],
    table: &Table,
    fault: ScenarioFault,
) -> Result<String, AllocError> {
    let Some(flaw) = flaw_in(alloc, table, fault)? else {
        return Ok(String::new(alloc));
    };
    let text = std::str::from_utf8(bytes).unwrap_or("");
    match place_of(alloc, text, &flaw)? {
        Some(place) => format!(in alloc; "{place}{flaw}"),
        None => format!(in alloc; "{flaw}"),
    }
}
