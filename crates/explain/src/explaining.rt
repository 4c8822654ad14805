//! Explains the verdict on two texts.

ghost use Rattle.std.specs.Prelude.{◌≡◌, ◌++◌, ℕ, List, [], length, is_some, true, IfOk, IfSome, OnErr};
ghost use Rattle.std.specs.List.{filter};
ghost use Rattle.history.specs.Faults.{BeginsWith};
ghost use Rattle.explain.specs.Explained.{IsExplained, IsFirstLine, IsLineIn, verdict_of};
ghost use Rattle.explain.specs.Run.{IsRunOf, has_run};
ghost use Rattle.explain.specs.Told.{is_call};
ghost use Rattle.checker.specs.Judged.{IsLeftBy};
ghost use Rattle.rmm_spec.specs.declared.verdict.Verdict.TheVariants as verdict;
ghost use Rattle.rmm_spec.specs.CertificateText.{IsCertificateText};
ghost use Rattle.rmm_spec.specs.FirstFault.{FirstFault, Passes};
ghost use Rattle.rmm_spec.specs.HistoryText.{History as Recorded, IsHistoryText};
ghost use Rattle.rmm_spec.specs.Text.{first_lines};
ghost use Rattle.reasons.specs.Report.{AddsOwners};
ghost use Rattle.rmm_spec.specs.Judgement.{Judges};
ghost use Rattle.spec_machine.specs.View.{state_of};

use crate::cause::cause_of;
use crate::explained_run::{ExplainedRun, with_run, without_run};
use crate::flaw::{bad_certificate_line, bad_history_line};
use crate::unfinished::unfinished_calls;
use certificate::{CertFault, Certificate};
use checker::{JudgedOrder, Reason, Verdict, judged_order};
use history::{History, HistoryFault};
use reasons::{Explanation, Summary, owner_report};
use rmi_codec::next_line;
use spec_machine::Machine;
use std::alloc::{AllocError, Global};

/// Explains the verdict on a history's text and a certificate's, and keeps what was read of them. Memory is refused only
/// behind a header.
pub fn explain_run<'a>(
    alloc: Global,
    history: &'a [u8],
    certificate: &'a [u8],
) -> Result<ExplainedRun<'a>, AllocError>
    ensures judged { IfOk result (λ told. Judges (verdict_of told.explanation) history.now certificate.now) }
    ensures explained { IfOk result (λ told. IsExplained told.explanation history.now certificate.now) }
    ensures run { IfOk result (λ told. IfSome told.run (IsRunOf history.now certificate.now)) }
    ensures kept { IfOk result (λ told. is_some told.run ≡ has_run told.explanation) }
    ensures refused { OnErr result ((h : Recorded) × BeginsWith history.now h) }
{
    let recorded = match history::read(alloc, history) {
        Ok(recorded) => recorded,
        Err(HistoryFault::BadLine(line)) => {
            return Ok(without_run(Explanation::HistoryFault(bad_history_line(history, line))));
        }
        Err(HistoryFault::NoMemory) => return Err(AllocError),
    };
    let claimed = match certificate::read(alloc, certificate) {
        Ok(claimed) => claimed,
        Err(CertFault::BadLine(line)) => {
            return Ok(without_run(Explanation::CertificateFault(bad_certificate_line(
                certificate,
                line,
            ))));
        }
        Err(CertFault::NoMemory) => return Err(AllocError),
    };
    let JudgedOrder { verdict, machine } = judged_order(alloc, &recorded, &claimed)?;
    match verdict {
        Verdict::Yes(count) => {
            let told = linearization(alloc, count, &recorded, &claimed, &machine)?;
            Ok(with_run(told, recorded, claimed))
        }
        Verdict::No { step, reason } => {
            let told = failing_step(alloc, &recorded, &claimed, &machine, step, reason)?;
            Ok(with_run(told, recorded, claimed))
        }
        Verdict::HistoryFault(_) | Verdict::CertificateFault(_) => unreachable!(),
    }
}

// A linearization of so many lines.
fn linearization<'a>(
    alloc: Global,
    count: u64,
    history: &History,
    certificate: &Certificate,
    machine: &Machine,
) -> Result<Explanation<'a>, AllocError>
    requires { Passes history.now.recorded certificate.now.lines (state_of machine.now) }
    ensures verdict { IfOk result (λ told. verdict_of told ≡ verdict.Yes count) }
    ensures explained { (history_bytes certificate_bytes : List ℕ) → IsHistoryText history_bytes history.now.recorded
        → IsCertificateText certificate_bytes certificate.now.lines → IfOk result (λ told. IsExplained told history_bytes certificate_bytes) }
    ensures run { IfOk result (λ told. has_run told ≡ true) }
{
    let unfinished = unfinished_calls(alloc, history, certificate)?;
    let summary = summary(alloc, count, history, machine)?;
    Ok(Explanation::Yes {
        summary,
        unfinished,
    })
}

// The step that fails first.
fn failing_step<'a>(
    alloc: Global,
    history: &History,
    certificate: &Certificate,
    machine: &Machine,
    step: u64,
    reason: Reason,
) -> Result<Explanation<'a>, AllocError>
    requires fault { FirstFault reason history.now.recorded certificate.now.lines step }
    requires left { IsLeftBy (verdict.No step reason) history.now.recorded certificate.now.lines (state_of machine.now) }
    ensures verdict { IfOk result (λ told. verdict_of told ≡ verdict.No step reason) }
    ensures explained { (history_bytes certificate_bytes : List ℕ) → IsHistoryText history_bytes history.now.recorded
        → IsCertificateText certificate_bytes certificate.now.lines → IfOk result (λ told. IsExplained told history_bytes certificate_bytes) }
    ensures run { IfOk result (λ told. has_run told ≡ true) }
{
    let unfinished = unfinished_calls(alloc, history, certificate)?;
    let cause = cause_of(alloc, history, certificate, machine, step, reason)?;
    Ok(Explanation::No {
        step,
        cause,
        unfinished,
    })
}

// What a linearization of so many lines leaves.
fn summary(
    alloc: Global,
    count: u64,
    history: &History,
    machine: &Machine,
) -> Result<Summary, AllocError>
    ensures count { IfOk result (λ told. told.count ≡ count) }
    ensures calls { IfOk result (λ told. told.calls ≡ length (filter is_call history.now.recorded.events)) }
    ensures cpus { IfOk result (λ told. told.cpus ≡ history.now.recorded.config.cpus) }
    ensures owners { IfOk result (λ told. AddsOwners (state_of machine.now) [] told.owners.items) }
{
    let mut owners = Vec::new(alloc);
    owner_report(machine, &mut owners)?;
    Ok(Summary {
        count,
        calls: calls_of(history),
        cpus: history.config().cpus(),
        owners,
    })
}

// How many calls are recorded.
fn calls_of(history: &History) -> u64
    ensures { result ≡ length (filter is_call history.now.recorded.events) }
{
    let mut calls = 0;
    for place in 0..history.len() {
        let Some(_call) = history.called_at(place) else {
            continue;
        };
        calls += 1;
    }
    calls
}

/// The line of a text, counted from 1, without its newline; the empty line where there are fewer.
pub(crate) fn line_of(text: &[u8], line: u64) -> &[u8]
    ensures { IsLineIn text.now line result.now }
{
    first_line(behind_lines(text, line.saturating_sub(1)))
}

/// What stands behind the first lines of a text, which is nothing where there are fewer.
pub(crate) fn behind_lines(text: &[u8], count: u64) -> &[u8]
    ensures { text.now ≡ first_lines count text.now ++ result.now }
{
    let mut rest = text;
    let mut left = count;
    while left > 0 {
        match next_line(rest) {
            Some((_, more)) => rest = more,
            None => return &[],
        }
        left -= 1;
    }
    rest
}

/// The first line of a text, without its newline.
pub(crate) fn first_line(text: &[u8]) -> &[u8]
    ensures { IsFirstLine text.now result.now }
{
    match next_line(text) {
        Some((line, _)) => line,
        None => text,
    }
}
