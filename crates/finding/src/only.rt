//! What is tried next behind an order: one call alone, where nothing else need be, or those of a group.

ghost use Rattle.std.specs.Prelude.{IfOk, IfSome, IsTrue};
ghost use Rattle.verdict_laws.specs.Unread.{ReadsNothing};
ghost use Rattle.finding.specs.Begun.{IsBegun};
ghost use Rattle.finding.specs.Only.{IsNextStep, IsOnly};

use crate::begun::Begun;
use crate::candidate::{Candidate, with_its_reply};
use crate::choice::{PENDING, rank};
use crate::group::{Group, group_at};
use crate::group_lines::only_line;
use crate::offers::Offers;
use crate::settled::settled_choice;
use history::History;
use std::alloc::{AllocError, Global};

/// What is tried next behind an order.
#[derive(Drop)]
pub(crate) enum NextStep {
    /// This call alone.
    Only(Candidate),
    /// The calls of a group.
    Group(Group),
    /// No call that returned is left.
    Nothing,
}

/// What is tried next behind the order.
pub(crate) fn next_step(history: &History, begun: &Begun, unread: bool) -> NextStep
    requires begun { IsBegun history.now.recorded begun.now }
    requires unread { IsTrue unread → ReadsNothing history.now.recorded.events }
    ensures { IsNextStep history.now.recorded begun.now result }
{
    let Some(first) = begun.front.first_at(history, 0) else {
        return NextStep::Nothing;
    };
    if rank(&first) >= PENDING {
        return NextStep::Nothing;
    }
    if let Some(choice) = settled_choice(history, begun, rank(&first), unread) {
        return NextStep::Only(with_its_reply(choice));
    }
    let group = group_at(history, begun, first);
    if group.is_alone() {
        NextStep::Only(with_its_reply(first))
    } else {
        NextStep::Group(group)
    }
}

/// The call that is tried next behind the order, where one is tried alone: it is alone in its group, or the machine is known to refuse all others.
pub(crate) fn next_alone(
    alloc: Global,
    offers: &mut Offers,
    history: &History,
    begun: &Begun,
    unread: bool,
) -> Result<Option<Candidate>, AllocError>
    requires begun { IsBegun history.now.recorded begun.now }
    requires unread { IsTrue unread → ReadsNothing history.now.recorded.events }
    ensures { IfOk result (λ next. IfSome next (IsOnly history.now.recorded begun.now)) }
{
    match next_step(history, begun, unread) {
        NextStep::Only(next) => Ok(Some(next)),
        NextStep::Group(group) => only_line(alloc, offers, history, begun, group),
        NextStep::Nothing => Ok(None),
    }
}
