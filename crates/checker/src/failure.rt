//! The first line that fails.

ghost use Rattle.std.specs.Prelude.{◌≡◌, ◌≤◌, ◌+◌, List, [], ◌∷◌, ◌++◌, length, OnOk, OnErr, IsSomeAnd};
ghost use Rattle.rmm_spec.specs.declared.line.Line.{Line};
ghost use Rattle.certificate.specs.LineRef.{line_seen};
ghost use Rattle.certificate.specs.Pieces.{with_told};
ghost use Rattle.rmm_spec.specs.Judgement.{JudgesOrder};
ghost use Rattle.checker.specs.Failure.{AreJudged, IsRefusedNext};
ghost use Rattle.checker.specs.Offers.{AreOffersFor};

use crate::order::verdict_at_end;
use crate::replay::Replay;
use certificate::{Line, LineRef, MOST_LINES};
use history::History;
use rmm_spec::{Reason, Verdict};
use std::alloc::AllocError;

/// The first line that fails, counted from 1, and why.
#[derive(Clone, Copy)]
pub(crate) struct Failure {
    pub(crate) step: u64,
    pub(crate) reason: Reason,
}

/// Judges the next line, unless one before it fails.
#[inline(always)]
#[tactic(auto, using(std::proofs::lemmas::Grind::common_steps, crate::proofs::Offers::few_offers, crate::proofs::Offers::next_offers))]
pub(crate) fn judge_line(
    replay: &mut Replay,
    failed: &mut Option<Failure>,
    history: &History,
    line: LineRef<'_>,
    step: u64,
) -> Result<(), AllocError>
    requires { length replay.old.named.items ≡ length history.now.recorded.events }
    ensures judged { OnOk result ((lines : List Line) → step ≡ length lines + 1 → AreJudged replay.old failed.old history.now.recorded lines
        → AreJudged replay.new failed.new history.now.recorded (lines ++ line_seen line.entry ∷ [])) }
    ensures refused { OnErr result (IsRefusedNext replay.old failed.old history.now.recorded (line_seen line.entry)) }
    ensures counted { length replay.new.named.items ≡ length replay.old.named.items }
    ensures offers { replay.new.machine.offers ≤ replay.old.machine.offers + 1 }
{
    if failed.is_some() {
        return Ok(());
    }
    if let Some(reason) = replay.take_line(history, line)? {
        *failed = Some(Failure { step, reason });
    }
    Ok(())
}

/// Judges the line that was told, where one was.
#[inline(never)]
pub(crate) fn judge_told(
    replay: &mut Replay,
    failed: &mut Option<Failure>,
    history: &History,
    told: Option<Line>,
    step: u64,
) -> Result<(), AllocError>
    requires { length replay.old.named.items ≡ length history.now.recorded.events }
    ensures judged { OnOk result ((lines : List Line) → step ≡ length (with_told lines told)
        → AreJudged replay.old failed.old history.now.recorded lines
        → AreJudged replay.new failed.new history.now.recorded (with_told lines told)) }
    ensures refused { OnErr result (IsSomeAnd told (IsRefusedNext replay.old failed.old history.now.recorded)) }
    ensures counted { length replay.new.named.items ≡ length replay.old.named.items }
    ensures offers { replay.new.machine.offers ≤ replay.old.machine.offers + length (with_told [] told) }
{
    match told {
        Some(line) => judge_line(replay, failed, history, LineRef::of(&line), step),
        None => Ok(()),
    }
}

/// The verdict on so many lines, which are judged.
pub(crate) fn verdict_on(
    replay: &Replay,
    failed: Option<Failure>,
    history: &History,
    lines: usize,
) -> Verdict
    requires counted { length replay.now.named.items ≡ length history.now.recorded.events }
    requires few { lines ≤ MOST_LINES }
    ensures judged { (order : List Line) → lines ≡ length order → AreJudged replay.now failed history.now.recorded order
        → JudgesOrder result history.now.recorded order }
    ensures offers { (order : List Line) → lines ≡ length order → AreJudged replay.now failed history.now.recorded order
        → AreOffersFor result replay.now.machine.offers }
{
    match failed {
        Some(Failure { step, reason }) => Verdict::No { step, reason },
        None => verdict_at_end(replay, history, lines),
    }
}
