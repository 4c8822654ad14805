//! The verdict on an order.

ghost use Rattle.std.specs.Prelude.{◌≡◌, ◌≤◌, List, [], length, IfOk, OnErr};
ghost use Rattle.rmm_spec.specs.declared.line.Line.{Line};
ghost use Rattle.rmm_spec.specs.Judgement.{JudgesOrder};
ghost use Rattle.spec_machine.specs.View.{state_of};
ghost use Rattle.checker.specs.Judged.{IsLeftBy};
ghost use Rattle.checker.specs.Replay.{IsReplayOf, RefusesMemory};
ghost use Rattle.checker.specs.Offers.{AreOffersFor};

use crate::replay::Replay;
use certificate::{Certificate, MOST_LINES};
use history::History;
use rmm_spec::{Reason, Verdict};
use std::alloc::AllocError;

/// Whether the certificate's order is a linearization of the history, or the first step that fails. It is refused memory only
/// at a line whose call makes a table, after lines that pass.
pub(crate) fn judge_order(
    replay: &mut Replay,
    history: &History,
    certificate: &Certificate,
) -> Result<Verdict, AllocError>
    requires fresh { IsReplayOf replay.old history.now.recorded [] }
    ensures judged { IfOk result (λ verdict. JudgesOrder verdict history.now.recorded certificate.now.lines) }
    ensures left { IfOk result (λ verdict. IsLeftBy verdict history.now.recorded certificate.now.lines (state_of replay.new.machine)) }
    ensures refused { OnErr result (RefusesMemory history.now.recorded certificate.now.lines) }
{
    for i in 0..certificate.len() {
        if let Some(reason) = replay.take_line(history, certificate.line(i))? {
            return Ok(Verdict::No {
                step: i as u64 + 1,
                reason,
            });
        }
    }
    let lines = certificate.len();
    Ok(verdict_at_end(replay, history, lines))
}

/// The verdict on so many lines, which are all replayed.
pub(crate) fn verdict_at_end(replay: &Replay, history: &History, lines: usize) -> Verdict
    requires counted { length replay.now.named.items ≡ length history.now.recorded.events }
    requires few { lines ≤ MOST_LINES }
    ensures judged { (order : List Line) → lines ≡ length order → IsReplayOf replay.now history.now.recorded order
        → JudgesOrder result history.now.recorded order }
    ensures left { (order : List Line) → lines ≡ length order → IsReplayOf replay.now history.now.recorded order
        → IsLeftBy result history.now.recorded order (state_of replay.now.machine) }
    ensures offers { replay.now.machine.offers ≡ lines → AreOffersFor result replay.now.machine.offers }
{
    let lines = lines as u64;
    match replay.first_missing(history) {
        Some((cpu, number)) => Verdict::No {
            step: lines + 1,
            reason: Reason::Missing(cpu, number),
        },
        None => Verdict::Yes(lines),
    }
}
