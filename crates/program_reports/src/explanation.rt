//! An explanation of a verdict.

ghost use Rattle.std.specs.Prelude.{◌≡◌, IfOk, OnErr, OnOk};
ghost use Rattle.program_reports.specs.Json.{AppendsJson};

use crate::call::call_of;
use crate::cause::put_cause;
use crate::lines::Paths;
use crate::{List, Object};
use file_programs::VERSION;
use reasons::{BadLine, Explanation, Summary, UnfinishedCall};
use std::alloc::{AllocError, Global};

/// The number of the schema of both programs' objects.
pub(crate) const SCHEMA: u64 = 1;

/// Appends an explanation as one line: an object. Nothing is appended where memory is refused.
pub fn append_json(
    alloc: Global,
    told: &Explanation<'_>,
    paths: Paths<'_>,
    out: &mut Vec<u8>,
) -> Result<(), AllocError>
    ensures ok { OnOk result (AppendsJson out.old.items out.new.items) }
    ensures err { OnErr result (out.new.items ≡ out.old.items) }
{
    let object = object_of(alloc, told, paths)?;
    append_object(object, out)
}

/// Appends an object and a newline.
pub(crate) fn append_object(object: Object, out: &mut Vec<u8>) -> Result<(), AllocError>
    requires { object.bound ≡ 4 }
    ensures ok { OnOk result (AppendsJson out.old.items out.new.items) }
    ensures err { OnErr result (out.new.items ≡ out.old.items) }
{
    let mut line = object.to_text()?;
    line.push('\n')?;
    out.extend_from_slice(line.as_bytes())
}

/// An object of a program's, without an answer yet.
pub(crate) fn begun(alloc: Global, program: &str) -> Result<Object, AllocError>
    ensures { IfOk result (λ object. object.bound ≡ 4) }
{
    let mut object = Object::new(alloc, 4);
    object.number("schema", SCHEMA)?;
    object.text("program", program)?;
    object.text("version", VERSION)?;
    Ok(object)
}

fn object_of(alloc: Global, told: &Explanation<'_>, paths: Paths<'_>) -> Result<Object, AllocError>
    ensures { IfOk result (λ object. object.bound ≡ 4) }
{
    let mut object = begun(alloc, "rmmexplain")?;
    put_explanation(alloc, &mut object, told, paths)?;
    Ok(object)
}

fn put_explanation(
    alloc: Global,
    object: &mut Object,
    told: &Explanation<'_>,
    paths: Paths<'_>,
) -> Result<(), AllocError>
    requires { object.old.bound ≡ 4 }
    ensures { object.new.bound ≡ object.old.bound }
{
    object.text("history", paths.history)?;
    object.text("certificate", paths.certificate)?;
    match told {
        Explanation::HistoryFault(bad) => put_bad(object, "history", bad)?,
        Explanation::CertificateFault(bad) => put_bad(object, "certificate", bad)?,
        Explanation::Yes {
            summary,
            unfinished,
        } => {
            put_summary(object, summary)?;
            put_unfinished(alloc, object, unfinished.as_slice())?;
        }
        Explanation::No {
            step,
            cause,
            unfinished,
        } => {
            object.text("verdict", "no")?;
            object.number("step", *step)?;
            put_cause(alloc, object, cause)?;
            put_unfinished(alloc, object, unfinished.as_slice())?;
        }
    }
    put_report(alloc, object, told)
}

fn put_summary(object: &mut Object, summary: &Summary) -> Result<(), AllocError>
    ensures { object.new.bound ≡ object.old.bound }
{
    object.text("verdict", "yes")?;
    object.number("steps", summary.count)?;
    object.number("calls", summary.calls)?;
    object.number("cpus", u64::from(summary.cpus))
}

fn put_report(alloc: Global, object: &mut Object, told: &Explanation<'_>) -> Result<(), AllocError>
    ensures { object.new.bound ≡ object.old.bound }
{
    let report = format!(in alloc; "{told}")?;
    object.text("report", report.as_str())
}

fn put_bad(object: &mut Object, text: &str, bad: &BadLine<'_>) -> Result<(), AllocError>
    ensures { object.new.bound ≡ object.old.bound }
{
    object.text("verdict", "fault")?;
    object.text("text", text)?;
    object.number("line", bad.line)
}

fn put_unfinished(
    alloc: Global,
    object: &mut Object,
    unfinished: &[UnfinishedCall],
) -> Result<(), AllocError>
    requires { object.old.bound ≡ 4 }
    ensures { object.new.bound ≡ object.old.bound }
{
    let mut calls = List::new(alloc, 3);
    for call in unfinished {
        calls.push(unfinished_of(alloc, call)?)?;
    }
    object.list("unfinished", calls)
}

fn unfinished_of(alloc: Global, unfinished: &UnfinishedCall) -> Result<Object, AllocError>
    ensures { IfOk result (λ object. object.bound ≡ 1) }
{
    let mut object = call_of(alloc, &unfinished.call)?;
    if let Some(step) = unfinished.step {
        object.number("step", step)?;
    }
    Ok(object)
}
