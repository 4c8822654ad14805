//! Commands.

ghost use Rattle.std.specs.Prelude.{◌≡◌, ◌≢◌, ℕ, List, ◌∷◌, length, Ok, IsOkAnd, IfOk, IfErr, ◌≤◌};
ghost use Rattle.rmm_spec.specs.declared.command.Command.{Command};
ghost use Rattle.rmm_spec.specs.declared.function_id.FunctionId.{FunctionId};
ghost use Rattle.rmm_spec.specs.Function.{number_of};
ghost use Rattle.rmm_spec.specs.CommandText.{IsCommand, command_parts, command_text};
ghost use Rattle.rmm_spec.specs.Text.{fixed_hex, parts_of};
ghost use Rattle.rmi_view.specs.Seen.{command_seen};
ghost use Rattle.rmi_codec.specs.Faults.{IsCommandFault};

use crate::fault::CodecFault;
use crate::function::words_of;
use crate::parts::Parts;
use crate::word::read_words;
use rmi_view::CommandRef;
use rmm_spec::Command;

/// Reads the command that the parts spell, all of them. Its words lie in the buffer, over those of the line before.
#[inline(always)]
pub fn command_from<'w>(
    words: &'w mut [u64; 10],
    mut parts: Parts<'_>,
) -> Result<CommandRef<'w>, CodecFault>
    ensures found { IfOk result (λ seen. IsCommand (command_seen seen) × (parts.entry ≡ command_parts (command_seen seen))) }
    ensures only { (c : Command) → IsCommand c → parts.entry ≡ command_parts c → IsOkAnd result (λ seen. command_seen seen ≡ c) }
    ensures few { IfOk result (λ seen. length seen.words.now ≤ 10) }
    ensures fault { IfErr result (λ e. IsCommandFault e parts.entry) }
{
    let Some(function) = parts.next_function() else {
        return Err(number_fault(parts));
    };
    let words = read_words(words, parts, CodecFault::WordCount)?;
    if words.len() != words_of(function) {
        return Err(CodecFault::WordCount);
    }
    Ok(CommandRef { function, words })
}

// Why the first part is no function's number, where it is none.
#[cold]
#[inline(never)]
fn number_fault(mut parts: Parts<'_>) -> CodecFault
    requires { (f : FunctionId) (rest : List (List ℕ)) → parts ≢ fixed_hex 8 (number_of f) ∷ rest }
    ensures { IsCommandFault result parts.entry }
{
    match parts.next_part() {
        Some(part) if part.is_empty() => CodecFault::BadSpacing,
        _ => CodecFault::UnknownNumber,
    }
}

/// Reads a command's text.
pub fn read_command(text: &str) -> Result<Command, CodecFault>
    ensures found { IfOk result (λ c. IsCommand c × (text.now ≡ command_text c)) }
    ensures only { (c : Command) → IsCommand c → text.now ≡ command_text c → result ≡ Ok c }
    ensures fault { IfErr result (λ e. IsCommandFault e (parts_of text.now)) }
{
    let mut words = [0; 10];
    match command_from(&mut words, Parts::of(text.as_bytes())) {
        Ok(command) => Ok(command.to_command()),
        Err(fault) => Err(fault),
    }
}
