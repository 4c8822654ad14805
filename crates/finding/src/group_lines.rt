//! The lines of a group that may come next.

ghost use Rattle.std.specs.Prelude.{IfOk, IfSome};
ghost use Rattle.spec_machine.specs.View.{state_of};
ghost use Rattle.finding.specs.Begun.{IsBegun, IsLost};
ghost use Rattle.finding.specs.Only.{IsFirstGroup, IsOnly};
ghost use Rattle.finding.specs.Waiting.{AllLeadNowhere, AllMayCome};

use crate::begun::Begun;
use crate::candidate::Candidate;
use crate::group::Group;
use crate::left::Left;
use crate::next_line::{NextLine, next_line};
use crate::offering::is_line_refused;
use crate::offers::Offers;
use history::History;
use std::alloc::{AllocError, Global};

/// How many lines are tried behind an order.
const LINES: u32 = 4096;

/// The lines of a group that may come next and aren't known to be refused: where each of them leads nowhere, the order does. None where there
/// are too many.
pub(crate) fn group_lines(
    alloc: Global,
    offers: &mut Offers,
    history: &History,
    begun: &Begun,
    group: Group,
) -> Result<Option<Vec<Candidate>>, AllocError>
    requires begun { IsBegun history.now.recorded begun.now }
    requires group { IsFirstGroup history.now.recorded begun.now group }
    ensures come { IfOk result (λ found. IfSome found
        (λ lines. AllMayCome history.now.recorded begun.now.front.counts (state_of begun.now.machine) lines.items)) }
    ensures all { IfOk result (λ found. IfSome found (λ lines.
        AllLeadNowhere history.now.recorded begun.now.front.counts (state_of begun.now.machine) lines.items
        → IsLost history.now.recorded begun.now)) }
{
    let mut left = Left {
        from: 0,
        above: None,
    };
    let mut lines = Vec::new(alloc);
    'lines: for _line in 0..LINES {
        match next_line(history, begun, group, left) {
            NextLine::None => return Ok(Some(lines)),
            NextLine::Passed(further) => left = further,
            NextLine::Line {
                choice,
                line,
                left: further,
            } => {
                left = further;
                if !is_line_refused(offers, &begun.machine, history, choice, &line) {
                    lines.push(Candidate { choice, line })?;
                }
            }
        }
    }
    Ok(None)
}

/// The line of a group that is tried alone, where the machine is known to refuse all others.
pub(crate) fn only_line(
    alloc: Global,
    offers: &mut Offers,
    history: &History,
    begun: &Begun,
    group: Group,
) -> Result<Option<Candidate>, AllocError>
    requires begun { IsBegun history.now.recorded begun.now }
    requires group { IsFirstGroup history.now.recorded begun.now group }
    ensures { IfOk result (λ found. IfSome found (IsOnly history.now.recorded begun.now)) }
{
    let Some(mut lines) = group_lines(alloc, offers, history, begun, group)? else {
        return Ok(None);
    };
    let Some(last) = lines.pop() else {
        return Ok(None);
    };
    if !lines.is_empty() {
        return Ok(None);
    }
    Ok(Some(last))
}
