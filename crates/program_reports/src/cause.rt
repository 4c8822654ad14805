//! Why a step fails.

ghost use Rattle.std.specs.Prelude.{◌≡◌};

use crate::Object;
use crate::call::{call_named, call_of, put_hex, step_naming, step_of};
use crate::fact::fact_of;
use crate::reply::{reply_text, specified_text};
use crate::since::{late_of, since_of};
use reasons::{Cause, Deciding, RefusedLine, WrongWord, condition_name, condition_of, reply_word};
use std::alloc::{AllocError, Global};

/// Puts a cause in: the call of the step that fails, and what it is about.
pub(crate) fn put_cause(alloc: Global, object: &mut Object, cause: &Cause) -> Result<(), AllocError>
    requires { object.old.bound ≡ 4 }
    ensures { object.new.bound ≡ object.old.bound }
{
    object.text("reason", reason_of(cause))?;
    match cause {
        Cause::Unknown { cpu, number } => object.object("call", call_named(alloc, *cpu, *number)?),
        Cause::Repeated { call, earlier } => {
            object.object("call", call_of(alloc, call)?)?;
            object.number("earlier_step", *earlier)
        }
        Cause::Kind { call } | Cause::Missing(call) => object.object("call", call_of(alloc, call)?),
        Cause::Order {
            call,
            earlier,
            other,
        } => {
            object.object("call", call_of(alloc, call)?)?;
            object.object("earlier", step_naming(alloc, *earlier, other)?)
        }
        Cause::Reply(line) => put_refused(alloc, object, line),
    }
}

fn reason_of(cause: &Cause) -> &'static str {
    match cause {
        Cause::Unknown { .. } => "unknown",
        Cause::Repeated { .. } => "repeated",
        Cause::Kind { .. } => "kind",
        Cause::Order { .. } => "order",
        Cause::Reply(_) => "reply",
        Cause::Missing(_) => "missing",
    }
}

fn put_refused(alloc: Global, object: &mut Object, line: &RefusedLine) -> Result<(), AllocError>
    requires { object.old.bound ≡ 4 }
    ensures { object.new.bound ≡ object.old.bound }
{
    object.object("call", call_of(alloc, &line.call)?)?;
    put_claimed(alloc, object, line)?;
    put_specified(alloc, object, line)?;
    put_deciding(alloc, object, line)?;
    put_steps(alloc, object, line)
}

fn put_claimed(alloc: Global, object: &mut Object, line: &RefusedLine) -> Result<(), AllocError>
    ensures { object.new.bound ≡ object.old.bound }
{
    let claimed = reply_text(alloc, &line.claimed)?;
    object.text("claimed", claimed.as_str())
}

fn put_specified(alloc: Global, object: &mut Object, line: &RefusedLine) -> Result<(), AllocError>
    ensures { object.new.bound ≡ object.old.bound }
{
    let specified = specified_text(alloc, &line.specified)?;
    object.text("specified", specified.as_str())?;
    match line.farthest {
        Some(farthest) => put_hex(alloc, object, "farthest", farthest),
        None => Ok(()),
    }
}

// Since which step that is so, and the steps that are named beside it.
fn put_steps(alloc: Global, object: &mut Object, line: &RefusedLine) -> Result<(), AllocError>
    requires { object.old.bound ≡ 4 }
    ensures { object.new.bound ≡ object.old.bound }
{
    object.object("since", since_of(alloc, &line.since)?)?;
    if let Some(put) = &line.put {
        object.object("put", step_of(alloc, put)?)?;
    }
    match &line.late {
        Some(late) => object.object("late", late_of(alloc, late)?),
        None => Ok(()),
    }
}

// The condition that refuses, or the word that differs; neither where each condition holds and a refusal is claimed.
fn put_deciding(alloc: Global, object: &mut Object, line: &RefusedLine) -> Result<(), AllocError>
    requires { object.old.bound ≡ 4 }
    ensures { object.new.bound ≡ object.old.bound }
{
    match (&line.deciding, &line.specified) {
        (Deciding::Condition(fact), Err(refusal)) => {
            let mut condition = Object::new(alloc, 1);
            condition.text("name", condition_name(condition_of(*refusal)))?;
            let function = line.call.call.command.function;
            condition.object("fact", fact_of(alloc, function, fact)?)?;
            object.object("condition", condition)
        }
        (Deciding::Word(word), _) => put_word(alloc, object, line, *word),
        _ => Ok(()),
    }
}

fn put_word(
    alloc: Global,
    object: &mut Object,
    line: &RefusedLine,
    wrong: WrongWord,
) -> Result<(), AllocError>
    requires { object.old.bound ≡ 4 }
    ensures { object.new.bound ≡ object.old.bound }
{
    let mut word = Object::new(alloc, 0);
    word.number("index", u64::from(wrong.index))?;
    if let Some(name) = reply_word(line.call.call.command.function, wrong.index) {
        word.text("name", name)?;
    }
    if let Some(claimed) = wrong.claimed {
        put_hex(alloc, &mut word, "claimed", claimed)?;
    }
    if let Some(specified) = wrong.specified {
        put_hex(alloc, &mut word, "specified", specified)?;
    }
    object.object("word", word)
}
