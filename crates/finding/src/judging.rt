//! Orders that the checker judges.

ghost use Rattle.std.specs.Prelude.{◌≡◌, IfOk, take};
ghost use Rattle.certificate.specs.LineRef.{line_seen};
ghost use Rattle.rmm_spec.specs.FirstFault.{Passes};
ghost use Rattle.rmm_spec.specs.State.{State};
ghost use Rattle.finding.specs.Judged.{IsJudged};

use crate::offers::Offers;
use crate::suspecting::Suspect;
use certificate::{Certificate, LineRef};
use checker::{Verdict, judged_order};
use history::History;
use rmi_view::copied_reply;
use rmm_spec::Line;
use std::alloc::{AllocError, Global};
use std::cmp::min;

/// What the checker says of an order.
#[derive(Drop)]
pub(crate) enum Judged {
    /// It is a linearization.
    Linearization(Certificate),
    /// It is none, by the return of the call of the line that fails, where a line does and its call returned.
    Fails(Option<Suspect>),
}

/// Judges an order. Each line that is judged counts as a step.
pub(crate) fn judgement_of(
    alloc: Global,
    offers: &mut Offers,
    history: &History,
    order: Certificate,
) -> Result<Judged, AllocError>
    ensures { IfOk result (IsJudged history.now.recorded) }
{
    let _fact = history.well_formed();
    let judged = judged_order(alloc, history, &order)?;
    offers.add(judged.machine.offers());
    match judged.verdict {
        Verdict::Yes(_) => Ok(Judged::Linearization(order)),
        Verdict::No { step, .. } => Ok(Judged::Fails(failing(history, &order, step))),
        _ => Ok(Judged::Fails(None)),
    }
}

/// The return of the call of the line at a step, where there is one.
fn failing(history: &History, order: &Certificate, step: u64) -> Option<Suspect> {
    let index = step.checked_sub(1)?;
    if index >= order.len() as u64 {
        return None;
    }
    let LineRef::Keep { cpu, number } = order.line(index as usize) else {
        return None;
    };
    let place = history.places_of(cpu, number)?.returned?;
    Some(Suspect {
        place,
        is_first: has_all_before(history, order, index as usize, place),
    })
}

/// Whether the lines up to one, of an order that keeps real time, have all calls that returned before a place.
fn has_all_before(history: &History, order: &Certificate, index: usize, place: u32) -> bool {
    for i in index..order.len() {
        let LineRef::Keep { cpu, number } = order.line(i) else {
            continue;
        };
        let Some(places) = history.places_of(cpu, number) else {
            return false;
        };
        if places.called > place {
            return true;
        }
        if let Some(returned) = places.returned {
            if returned < place {
                return false;
            }
        }
    }
    true
}

/// The lines of the order before the first that fails: they pass.
pub(crate) fn passing(
    alloc: Global,
    history: &History,
    order: Certificate,
) -> Result<Certificate, AllocError>
    ensures { IfOk result (λ order. (state : State) × Passes history.now.recorded order.lines state) }
{
    let _fact = history.well_formed();
    let judged = judged_order(alloc, history, &order)?;
    match judged.verdict {
        Verdict::No { step, .. } => first_lines(alloc, &order, step.saturating_sub(1)),
        _ => Ok(order),
    }
}

/// So many first lines of a certificate, or all where it has fewer.
fn first_lines(alloc: Global, order: &Certificate, count: u64) -> Result<Certificate, AllocError>
    ensures { IfOk result (λ first. first.lines ≡ take count order.now.lines) }
{
    let mut first = Certificate::new(alloc);
    for i in 0..min(count, order.len() as u64) as usize {
        first.push(line_of(order.line(i)))?;
    }
    Ok(first)
}

/// The line once more.
fn line_of(line: LineRef<'_>) -> Line
    ensures { result ≡ line_seen line.entry }
{
    match line {
        LineRef::Keep { cpu, number } => Line::Keep { cpu, number },
        LineRef::Unfinished { cpu, number, reply } => Line::Unfinished {
            cpu,
            number,
            reply: copied_reply(reply),
        },
    }
}
