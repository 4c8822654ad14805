//! The answer to a search for an order.

ghost use Rattle.std.specs.Prelude.{◌≡◌, IfOk, OnErr, OnOk};
ghost use Rattle.program_reports.specs.Json.{AppendsJson};

use crate::call::call_named;
use crate::explanation::{append_object, begun};
use crate::reply::reply_text;
use crate::{List, Object};
use certificate::{Certificate, LineRef};
use std::alloc::{AllocError, Global};

/// What was found.
#[derive(Clone, Copy)]
pub enum Answer<'a> {
    /// A linearization.
    Order(&'a Certificate),
    /// There is none, and of the history up to that line neither, where one is told.
    None(Option<u64>),
    /// Neither within the limit.
    GaveUp,
    /// The history's line is malformed.
    Fault(u64),
}

/// Appends the answer as one line: an object. Nothing is appended where memory is refused.
pub fn append_answer(alloc: Global, answer: Answer<'_>, out: &mut Vec<u8>) -> Result<(), AllocError>
    ensures ok { OnOk result (AppendsJson out.old.items out.new.items) }
    ensures err { OnErr result (out.new.items ≡ out.old.items) }
{
    let object = object_of(alloc, answer)?;
    append_object(object, out)
}

fn object_of(alloc: Global, answer: Answer<'_>) -> Result<Object, AllocError>
    ensures { IfOk result (λ object. object.bound ≡ 4) }
{
    let mut object = begun(alloc, "rmmfind")?;
    put_answer(alloc, &mut object, answer)?;
    Ok(object)
}

fn put_answer(alloc: Global, object: &mut Object, answer: Answer<'_>) -> Result<(), AllocError>
    requires { object.old.bound ≡ 4 }
    ensures { object.new.bound ≡ object.old.bound }
{
    match answer {
        Answer::Order(order) => {
            object.text("verdict", "order")?;
            object.list("order", order_of(alloc, order)?)
        }
        Answer::None(line) => {
            object.text("verdict", "none")?;
            match line {
                Some(line) => object.number("line", line),
                None => Ok(()),
            }
        }
        Answer::GaveUp => object.text("verdict", "gave up"),
        Answer::Fault(line) => {
            object.text("verdict", "fault")?;
            object.text("text", "history")?;
            object.number("line", line)
        }
    }
}

fn order_of(alloc: Global, order: &Certificate) -> Result<List, AllocError>
    ensures { IfOk result (λ list. list.bound ≡ 2) }
{
    let mut lines = List::new(alloc, 2);
    for index in 0..order.len() {
        lines.push(line_of(alloc, order.line(index))?)?;
    }
    Ok(lines)
}

// An unfinished call has its reply.
fn line_of(alloc: Global, line: LineRef<'_>) -> Result<Object, AllocError>
    ensures { IfOk result (λ object. object.bound ≡ 1) }
{
    match line {
        LineRef::Keep { cpu, number } => call_named(alloc, cpu, number),
        LineRef::Unfinished { cpu, number, reply } => {
            let mut object = call_named(alloc, cpu, number)?;
            object.text("reply", reply_text(alloc, reply)?.as_str())?;
            Ok(object)
        }
    }
}
