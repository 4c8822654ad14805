//! The first text of a scenario's programs that is no command.

ghost use Rattle.std.specs.Prelude.{IfNone, IfSome};
ghost use Rattle.scenario_report.specs.Flaws.{AreCommands, AreOfCommands, IsCommandFlaw, IsFlawOfProgram};

use crate::flaw::Flaw;
use rmi_codec::read_command;

/// The first text of these programs that is no command.
pub fn wrong_command<'t>(programs: &[Vec<&'t str>]) -> Option<Flaw<'t>>
    ensures some { IfSome result (IsCommandFlaw programs.now) }
    ensures none { IfNone result (AreOfCommands programs.now) }
{
    for (cpu, program) in programs.iter().enumerate() {
        if let Some(flaw) = wrong_in_program(cpu, program.as_slice()) {
            return Some(flaw);
        }
    }
    None
}

// The first text of a CPU's program that is no command.
fn wrong_in_program<'t>(cpu: usize, texts: &[&'t str]) -> Option<Flaw<'t>>
    ensures some { IfSome result (IsFlawOfProgram cpu texts.now) }
    ensures none { IfNone result (AreCommands texts.now) }
{
    for (number, text) in texts.iter().enumerate() {
        let Ok(_command) = read_command(text) else {
            return Some(Flaw::Command { cpu, number, text });
        };
    }
    None
}
