//! Programs and turns as arrays of texts.

ghost use Rattle.std.specs.Prelude.{◌≡◌, IfOk};
ghost use Rattle.std.specs.Str.{IsAscii};
ghost use Rattle.rmm_spec.specs.CommandText.{command_text};
ghost use Rattle.rmm_spec.specs.Scenario.{turn_text, will_text};
ghost use Rattle.scenario.specs.SeenPrograms.{seen_programs};
ghost use Rattle.scenario.specs.Written.{program_data, programs_data, turns_data};
ghost use Rattle.toml.specs.Data.{string};
ghost use Rattle.toml.specs.View.{view};

use rmm_spec::{Command, Due, Will};
use std::alloc::{AllocError, Global};
use text_writers::{push_command, push_decimal};
use toml::Value;

/// An array of programs, each an array of its commands' texts.
pub(crate) fn programs_value(alloc: Global, programs: &[Vec<Command>]) -> Result<Value, AllocError>
    ensures { IfOk result (λ value. view value ≡ programs_data (seen_programs programs.now)) }
{
    let mut values = Vec::with_capacity(alloc, programs.len())?;
    for program in programs {
        values.push(program_value(alloc, program.as_slice())?)?;
    }
    Ok(Value::Array(values))
}

fn program_value(alloc: Global, program: &[Command]) -> Result<Value, AllocError>
    ensures { IfOk result (λ value. view value ≡ program_data program.now) }
{
    let mut values = Vec::with_capacity(alloc, program.len())?;
    for command in program {
        values.push(command_value(alloc, command)?)?;
    }
    Ok(Value::Array(values))
}

/// An array of turns' texts.
pub(crate) fn turns_value(alloc: Global, turns: &[Due]) -> Result<Value, AllocError>
    ensures { IfOk result (λ value. view value ≡ turns_data turns.now) }
{
    let mut values = Vec::with_capacity(alloc, turns.len())?;
    for turn in turns {
        values.push(turn_value(alloc, turn)?)?;
    }
    Ok(Value::Array(values))
}

fn command_value(alloc: Global, command: &Command) -> Result<Value, AllocError>
    ensures { IfOk result (λ value. view value ≡ string (command_text command.now)) }
{
    let mut bytes = Vec::new(alloc);
    push_command(&mut bytes, command)?;
    Ok(text_value(bytes))
}

fn turn_value(alloc: Global, turn: &Due) -> Result<Value, AllocError>
    ensures { IfOk result (λ value. view value ≡ string (turn_text turn.now)) }
{
    let mut bytes = Vec::new(alloc);
    push_decimal(&mut bytes, u64::from(turn.cpu))?;
    bytes.extend_from_slice(will_text(turn.will))?;
    Ok(text_value(bytes))
}

fn will_text(will: Will) -> &'static [u8]
    ensures { result.now ≡ will_text will }
{
    match will {
        Will::Go => b"",
        Will::GiveUp => b" giveup",
        Will::Stop => b" stop",
    }
}

// A text of these bytes.
fn text_value(bytes: Vec<u8>) -> Value
    requires { IsAscii bytes.items }
    ensures { view result ≡ string bytes.items }
{
    match String::from_utf8(bytes) {
        Ok(text) => Value::String(text),
        Err(_) => unreachable!(),
    }
}
