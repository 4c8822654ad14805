//! A call, and a step that names one.

ghost use Rattle.std.specs.Prelude.{◌≡◌, IfOk, OnOk};

use crate::Object;
use crate::reply::reply_text;
use reasons::{EarlierStep, NamedCall};
use rmm_spec::{Command, FunctionId};
use std::alloc::{AllocError, Global};

/// A call with its command, its lines and its reply.
pub(crate) fn call_of(alloc: Global, named: &NamedCall) -> Result<Object, AllocError>
    ensures { IfOk result (λ object. object.bound ≡ 1) }
{
    let mut object = call_named(alloc, named.cpu, named.number)?;
    let call = &named.call;
    object.text("command", command_name(call.command.function))?;
    object.object("words", words_of(alloc, &call.command)?)?;
    object.number("called_line", u64::from(call.called))?;
    if let Some(answer) = &call.answer {
        object.number("returned_line", u64::from(answer.returned))?;
        object.text("reply", reply_text(alloc, &answer.reply)?.as_str())?;
    }
    Ok(object)
}

/// A call by its CPU and number alone.
pub(crate) fn call_named(alloc: Global, cpu: u8, number: u32) -> Result<Object, AllocError>
    ensures { IfOk result (λ object. object.bound ≡ 1) }
{
    let mut object = Object::new(alloc, 1);
    object.number("cpu", u64::from(cpu))?;
    object.number("number", u64::from(number))?;
    Ok(object)
}

/// A step with its call.
pub(crate) fn step_of(alloc: Global, earlier: &EarlierStep) -> Result<Object, AllocError>
    ensures { IfOk result (λ object. object.bound ≡ 2) }
{
    step_naming(alloc, earlier.step, &earlier.call)
}

pub(crate) fn step_naming(alloc: Global, step: u64, call: &NamedCall) -> Result<Object, AllocError>
    ensures { IfOk result (λ object. object.bound ≡ 2) }
{
    let mut object = Object::new(alloc, 2);
    object.number("step", step)?;
    object.object("call", call_of(alloc, call)?)?;
    Ok(object)
}

/// The name of a function's command.
pub(crate) fn command_name(function: FunctionId) -> &'static str {
    let names = function.row().names;
    match names.split_once(' ') {
        Some((command, _)) => command,
        None => names,
    }
}

// The words of a command by name. The last name stands for all words that are left.
fn words_of(alloc: Global, command: &Command) -> Result<Object, AllocError>
    ensures { IfOk result (λ object. object.bound ≡ 0) }
{
    let mut object = Object::new(alloc, 0);
    let names = command.function.row().names;
    let count = names.split(' ').count();
    let words = command.words.as_slice();
    for (index, name) in names.split(' ').enumerate() {
        if index == 0 || index > words.len() {
            continue;
        }
        let end = if index + 1 == count {
            words.len()
        } else {
            index
        };
        let text = joined(alloc, &words[index - 1..end])?;
        object.text(name, text.as_str())?;
    }
    Ok(object)
}

// Words in hex, with commas between them.
fn joined(alloc: Global, words: &[u64]) -> Result<String, AllocError> {
    let mut text = String::new(alloc);
    for word in words {
        let digits = format!(in alloc; "{word:x}")?;
        if !text.is_empty() {
            text.push(',')?;
        }
        text.push_str(digits.as_str())?;
    }
    Ok(text)
}

/// Puts a word in, in hex as the texts have it.
pub(crate) fn put_hex(
    alloc: Global,
    object: &mut Object,
    name: &str,
    word: u64,
) -> Result<(), AllocError>
    ensures { object.new.bound ≡ object.old.bound }
{
    let text = format!(in alloc; "{word:x}")?;
    object.text(name, text.as_str())
}
