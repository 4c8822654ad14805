//! An explanation with the run that it is of.

ghost use Rattle.std.specs.Prelude.{◌≡◌, None, Some, IfOk, OnErr};
ghost use Rattle.explain.specs.Explained.{IsExplained, verdict_of};
ghost use Rattle.history.specs.Faults.{BeginsWith};
ghost use Rattle.rmm_spec.specs.HistoryText.{History as Recorded};
ghost use Rattle.rmm_spec.specs.Judgement.{Judges};

use crate::explaining::explain_run;
use certificate::Certificate;
use history::History;
use reasons::Explanation;
use std::alloc::{AllocError, Global};

/// What two texts stand for.
#[derive(Drop)]
pub struct Run {
    pub history: History,
    pub certificate: Certificate,
}

/// An explanation, and the run where both texts stand for one.
#[derive(Drop)]
pub struct ExplainedRun<'a> {
    pub explanation: Explanation<'a>,
    pub run: Option<Run>,
}

/// Explains the verdict on a history's text and a certificate's. Memory is refused as by `explain_run`.
pub fn explain<'a>(
    alloc: Global,
    history: &'a [u8],
    certificate: &'a [u8],
) -> Result<Explanation<'a>, AllocError>
    ensures judged { IfOk result (λ e. Judges (verdict_of e) history.now certificate.now) }
    ensures explained { IfOk result (λ e. IsExplained e history.now certificate.now) }
    ensures refused { OnErr result ((h : Recorded) × BeginsWith history.now h) }
{
    let told = explain_run(alloc, history, certificate)?;
    Ok(told.explanation)
}

// One of the texts has a bad line.
pub(crate) fn without_run(explanation: Explanation<'_>) -> ExplainedRun<'_>
    ensures explanation { result.explanation ≡ explanation.entry }
    ensures run { result.run ≡ None }
{
    ExplainedRun {
        explanation,
        run: None,
    }
}

pub(crate) fn with_run(
    explanation: Explanation<'_>,
    history: History,
    certificate: Certificate,
) -> ExplainedRun<'_>
    ensures explanation { result.explanation ≡ explanation.entry }
    ensures run { result.run ≡ Some (record { history = history; certificate = certificate }) }
{
    ExplainedRun {
        explanation,
        run: Some(Run {
            history,
            certificate,
        }),
    }
}
