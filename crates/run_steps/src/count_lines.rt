//! How often each condition refused, as lines.

ghost use Rattle.std.specs.Prelude.{◌≡◌, ◌++◌, ℕ, List, map, Some, OnOk};
ghost use Rattle.rmm_spec.specs.Function.{functions};
ghost use Rattle.run_steps.specs.CountLines.{AreCountLines, answer_lines, count_line, function_lines};
ghost use Rattle.run_steps.specs.Places.{conditions};

use crate::condition_counts::ConditionCounts;
use crate::places::CONDITIONS;
use reasons::condition_name;
use rmm_spec::FunctionId;
use std::alloc::AllocError;
use text_writers::push_decimal;

/// Appends a line for each count that isn't 0: a function's name, `accepted` or the name of a condition, and the count.
pub fn append_counts(counts: &ConditionCounts, out: &mut Vec<u8>) -> Result<(), AllocError>
    ensures { OnOk result ((text : List ℕ) × AreCountLines counts.now functions text × (out.new.items ≡ out.old.items ++ text)) }
{
    let all = FunctionId::all();
    for i in 0..all.len() {
        append_function(counts, command_name(all[i]), all[i], out)?;
    }
    Ok(())
}

// The name by which people call a function.
fn command_name(function: FunctionId) -> &'static str {
    let names = function.row().names;
    match names.split_once(' ') {
        Some((command, _)) => command,
        None => names,
    }
}

// The lines of one function.
fn append_function(
    counts: &ConditionCounts,
    command: &str,
    function: FunctionId,
    out: &mut Vec<u8>,
) -> Result<(), AllocError>
    ensures { OnOk result (out.new.items ≡ out.old.items ++ function_lines command.now counts.now function) }
{
    append_line(command, "accepted", counts.count(function, None), out)?;
    append_refused(counts, command, function, out)
}

// The lines of what is refused.
fn append_refused(
    counts: &ConditionCounts,
    command: &str,
    function: FunctionId,
    out: &mut Vec<u8>,
) -> Result<(), AllocError>
    ensures { OnOk result (out.new.items ≡ out.old.items ++ answer_lines command.now counts.now function (map Some conditions)) }
{
    for i in 0..CONDITIONS.len() {
        let condition = CONDITIONS[i];
        let count = counts.count(function, Some(condition));
        append_line(command, condition_name(condition), count, out)?;
    }
    Ok(())
}

// One line, where the count isn't 0.
fn append_line(command: &str, answer: &str, count: u64, out: &mut Vec<u8>) -> Result<(), AllocError>
    ensures { OnOk result (out.new.items ≡ out.old.items ++ count_line command.now answer.now count) }
{
    if count == 0 {
        return Ok(());
    }
    out.extend_from_slice(command.as_bytes())?;
    out.push(b' ')?;
    out.extend_from_slice(answer.as_bytes())?;
    out.push(b' ')?;
    push_decimal(out, count)?;
    out.push(b'\n')?;
    Ok(())
}
