//! What is at fault in a document.

ghost use Rattle.std.specs.Prelude.{◌≡◌, ◌↔◌, pos, length, IsTrue, IfOk, IfSome};
ghost use Rattle.toml.specs.View.{table_view};
ghost use Rattle.scenario_report.specs.Found.{IsCountFlaw, IsFlawOf, IsStatedFlaw};
ghost use Rattle.scenario_report.specs.Flaws.{IsCommandFlaw, IsTurnFlaw};

use crate::keys::wrong_key;
use crate::turns::wrong_turn;
use crate::{Flaw, Numbers, wrong_command, wrong_number};
use scenario::{ScenarioFault, Stated, are_few};
use std::alloc::{AllocError, Global};
use toml::Table;

/// What is at fault in a document with this fault.
pub(crate) fn flaw_in<'t>(
    alloc: Global,
    table: &'t Table,
    fault: ScenarioFault,
) -> Result<Option<Flaw<'t>>, AllocError>
    ensures { IfOk result (λ found. IfSome found (IsFlawOf (table_view table.now))) }
{
    if fault == ScenarioFault::WrongKey {
        return wrong_key(alloc, table);
    }
    match Stated::of(alloc, table) {
        Ok(stated) => Ok(flaw_stated(&stated, fault)),
        Err(ScenarioFault::NoMemory) => Err(AllocError),
        Err(_) => Ok(None),
    }
}

// What is at fault in what is stated.
fn flaw_stated<'t>(stated: &Stated<'t>, fault: ScenarioFault) -> Option<Flaw<'t>>
    ensures { IfSome result (IsStatedFlaw stated.now) }
{
    match fault {
        ScenarioFault::OutOfRange => flaw_in_sizes(stated),
        ScenarioFault::NoCommand => flaw_in_commands(stated),
        ScenarioFault::NoTurn => flaw_in_turns(stated),
        _ => None,
    }
}

// Which number is out of its range, or that there isn't a program for each CPU, or that there are too many commands.
fn flaw_in_sizes<'t>(stated: &Stated<'t>) -> Option<Flaw<'t>>
    ensures { IfSome result (IsStatedFlaw stated.now) }
{
    let numbers = Numbers {
        granules: stated.granules,
        cpus: stated.cpus,
        queue: stated.queue,
        limit: stated.limit,
        version: stated.version,
    };
    match wrong_number(&numbers) {
        Some(flaw) => Some(flaw),
        None => flaw_in_counts(stated),
    }
}

fn flaw_in_counts<'t>(stated: &Stated<'t>) -> Option<Flaw<'t>>
    ensures { IfSome result (IsCountFlaw stated.now) }
{
    let (cpus, programs) = (stated.cpus, stated.programs.len());
    if !is_count(cpus, programs) {
        return Some(Flaw::Programs { cpus, programs });
    }
    if are_few(stated.programs.as_slice()) {
        None
    } else {
        Some(Flaw::Commands)
    }
}

// Whether a number counts this.
fn is_count(number: i64, count: usize) -> bool
    ensures { IsTrue result ↔ (number ≡ pos count) }
{
    0 <= number && number as u64 == count as u64
}

// Which turn is none of the CPUs that have programs.
fn flaw_in_turns<'t>(stated: &Stated<'t>) -> Option<Flaw<'t>>
    ensures { IfSome result (IsTurnFlaw (length stated.now.programs.items) stated.now.turns.items) }
{
    let cpus = stated.programs.len();
    if cpus > 8 {
        return None;
    }
    wrong_turn(stated.turns.as_slice(), cpus as u8)
}

// Which text of a program is no command.
fn flaw_in_commands<'t>(stated: &Stated<'t>) -> Option<Flaw<'t>>
    ensures { IfSome result (IsCommandFlaw stated.now.programs.items) }
{
    wrong_command(stated.programs.as_slice())
}
