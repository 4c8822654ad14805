//! Programs: what each CPU calls.

ghost use Rattle.std.specs.Prelude.{◌≡◌, IfOk, IfSome, IfNone, map};
ghost use Rattle.std.specs.List.{AllByRecursion};
ghost use Rattle.rmm_spec.specs.CommandText.{IsCommand, command_text};
ghost use Rattle.rmm_spec.specs.Scenario.{IsCommandText};
ghost use Rattle.scenario.specs.SeenPrograms.{seen_programs};
ghost use Rattle.scenario.specs.SeenTexts.{seen_texts, seen_lists};

use rmi_codec::read_command;
use rmm_spec::Command;
use std::alloc::{AllocError, Global};

/// The commands of each program, where all texts are commands.
pub(crate) fn programs_from(
    alloc: Global,
    lists: &[Vec<&str>],
) -> Result<Option<Vec<Vec<Command>>>, AllocError>
    ensures texts { IfOk result (λ found. IfSome found (λ programs. seen_lists lists.now ≡ map (map command_text) (seen_programs programs.items))) }
    ensures commands { IfOk result (λ found. IfSome found (λ programs. AllByRecursion (AllByRecursion IsCommand) (seen_programs programs.items))) }
    ensures none { IfOk result (λ found. IfNone found (¬ AllByRecursion (AllByRecursion IsCommandText) (seen_lists lists.now))) }
{
    let mut programs = Vec::new(alloc);
    for texts in lists {
        let Some(program) = program_from(alloc, texts.as_slice())? else {
            return Ok(None);
        };
        programs.push(program)?;
    }
    Ok(Some(programs))
}

// The commands of one program.
fn program_from(alloc: Global, texts: &[&str]) -> Result<Option<Vec<Command>>, AllocError>
    ensures texts { IfOk result (λ found. IfSome found (λ program. seen_texts texts.now ≡ map command_text program.items)) }
    ensures commands { IfOk result (λ found. IfSome found (λ program. AllByRecursion IsCommand program.items)) }
    ensures none { IfOk result (λ found. IfNone found (¬ AllByRecursion IsCommandText (seen_texts texts.now))) }
{
    let mut program = Vec::new(alloc);
    for text in texts {
        let Ok(command) = read_command(text) else {
            return Ok(None);
        };
        program.push(command)?;
    }
    Ok(Some(program))
}
