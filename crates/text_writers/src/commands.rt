//! Commands, written as texts.

ghost use Rattle.std.specs.Prelude.{◌≡◌, ◌++◌, length, take, OnOk, OnErr, ◌≤◌, ◌<◌, ◌+◌, vec_len, vec_capacity};
ghost use Rattle.rmm_spec.specs.CommandText.{command_text};
ghost use Rattle.text_writers.specs.Beginning.{IsBeginning};

use crate::numbers::push_fixed_hex;
use crate::whole::all_or_nothing;
use crate::words::push_words;
use rmm_spec::Command;
use std::alloc::AllocError;

/// Appends a command's text. Where memory is refused, a beginning of it may have been appended.
#[tactic(auto, using(std::proofs::lemmas::Grind::common_steps, crate::proofs::WriteLaws::writing), unfolding(rmm_spec::specs::CommandText::command_parts))]
pub fn push_command(out: &mut Vec<u8>, command: &Command) -> Result<(), AllocError>
    ensures ok { OnOk result (out.new.items ≡ out.old.items ++ command_text command.now) }
    ensures kept { OnErr result (take (length out.old.items) out.new.items ≡ out.old.items) }
    ensures beginning { OnErr result (IsBeginning out.new.items (out.old.items ++ command_text command.now)) }
    ensures full { OnErr result (vec_capacity out.old < vec_len out.old + length (command_text command.now)) }
    ensures capacity { vec_capacity out.old ≤ vec_capacity out.new }
{
    push_fixed_hex(out, 8, command.function.number())?;
    push_words(out, command.words.as_slice())
}

/// Appends a command's text, or nothing where memory is refused, which it is only where the buffer has no room for the text.
pub fn write_command(command: &Command, out: &mut Vec<u8>) -> Result<(), AllocError>
    ensures ok { OnOk result (out.new.items ≡ out.old.items ++ command_text command.now) }
    ensures err { OnErr result (out.new.items ≡ out.old.items) }
    ensures full { OnErr result (vec_capacity out.old < vec_len out.old + length (command_text command.now)) }
{
    let start = out.len();
    let written = push_command(out, command);
    all_or_nothing(out, start, written)
}
