//! Why the program ends without a verdict.

ghost use Rattle.std.specs.Prelude.{◌≡◌, Some};
ghost use Rattle.run_commands.specs.Faults.{run_line, scenario_line, words_fault};
ghost use Rattle.run_commands.specs.declared.fault.ProgramFault.TheVariants.{Check};

use check_command::{CheckFault, Fault};
use rmmcheck_arguments::WordsFault;
use scenario::ScenarioFault;
use std::fmt;

/// What ended the program.
#[derive(Clone, Copy)]
pub(crate) enum ProgramFault<'a> {
    /// Words, a device or memory, as they end a check too.
    Check(CheckFault<'a>),
    /// A run, and no check.
    Run(RunFault),
}

/// What ends a run alone. Its `Display` is its line on standard error.
#[derive(Clone, Copy)]
pub(crate) enum RunFault {
    /// The file states no scenario.
    Scenario(ScenarioFault),
    /// A thread can't be started.
    NoThread,
    /// A CPU's list of commits isn't what the journal has of it.
    Disagrees,
}

impl<'a> From<CheckFault<'a>> for ProgramFault<'a> {
    ghost from_gives = { λ fault ended. ended ≡ Check fault };

    fn from(fault: CheckFault<'a>) -> Self {
        ProgramFault::Check(fault)
    }
}

impl From<WordsFault> for ProgramFault<'_> {
    ghost from_gives = { λ fault ended. ended ≡ words_fault fault };

    fn from(fault: WordsFault) -> Self {
        ProgramFault::Check(match fault {
            WordsFault::Arguments => CheckFault::Arguments,
            WordsFault::NoMemory => CheckFault::Device(Fault::NoMemory),
        })
    }
}

impl fmt::Display for RunFault {
    ghost output = { λ fault. Some (run_line fault) };

    fn fmt<W: fmt::Write>(&self, f: &mut fmt::Formatter<W>) -> fmt::Result {
        match self {
            RunFault::Scenario(refused) => ScenarioLine(*refused).fmt(f),
            RunFault::NoThread => f.write_str("rmmcheck: cannot start a thread"),
            RunFault::Disagrees => f.write_str("rmmcheck: disagrees"),
        }
    }
}

// The line of a scenario's fault, which is told by its number.
#[derive(Clone, Copy)]
struct ScenarioLine(ScenarioFault);

impl fmt::Display for ScenarioLine {
    ghost output = { λ line. Some (scenario_line line.0) };

    fn fmt<W: fmt::Write>(&self, f: &mut fmt::Formatter<W>) -> fmt::Result {
        f.write_str(match self.0 {
            ScenarioFault::NoDocument => "rmmcheck: scenario 1",
            ScenarioFault::WrongKey => "rmmcheck: scenario 2",
            ScenarioFault::OutOfRange => "rmmcheck: scenario 3",
            ScenarioFault::NoCommand => "rmmcheck: scenario 4",
            ScenarioFault::NoTurn => "rmmcheck: scenario 5",
            ScenarioFault::NoMemory => "rmmcheck: no memory",
        })
    }
}
