//! Programs as lines of calls.

ghost use Rattle.std.specs.Prelude.{◌≡◌, ◌++◌, ℕ, OnOk};
ghost use Rattle.scenario.specs.SeenPrograms.{seen_programs};
ghost use Rattle.scenario.specs.CallLines.{call_line, calls_from, program_lines};

use rmm_spec::Command;
use std::alloc::AllocError;
use text_writers::{push_command, push_decimal};

/// Appends a line for each command, with its CPU before it, those of CPU 0 first. Where memory is refused, some of the lines may have
/// been appended.
pub fn write_calls(programs: &[Vec<Command>], out: &mut Vec<u8>) -> Result<(), AllocError>
    ensures { OnOk result (out.new.items ≡ out.old.items ++ calls_from 0 (seen_programs programs.now)) }
{
    let mut cpu = 0;
    for program in programs {
        write_program(cpu, program.as_slice(), out)?;
        cpu += 1;
    }
    Ok(())
}

fn write_program(cpu: u64, program: &[Command], out: &mut Vec<u8>) -> Result<(), AllocError>
    ensures { OnOk result (out.new.items ≡ out.old.items ++ program_lines cpu program.now) }
{
    for command in program {
        write_call(cpu, command, out)?;
    }
    Ok(())
}

fn write_call(cpu: u64, command: &Command, out: &mut Vec<u8>) -> Result<(), AllocError>
    ensures { OnOk result (out.new.items ≡ out.old.items ++ call_line cpu command.now) }
{
    push_decimal(out, cpu)?;
    out.push(b' ')?;
    push_command(out, command)?;
    out.push(b'\n')?;
    Ok(())
}
