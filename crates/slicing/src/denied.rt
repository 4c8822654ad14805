//! Whether a reply is denied by what calls made before: nothing else may have ended it since.

ghost use Rattle.std.specs.Prelude.{◌≡◌, ◌≤◌, [], length, IsTrue};
ghost use Rattle.rmi_view.specs.Seen.{reply_seen};
ghost use Rattle.slicing.specs.Calls.{IsReturn, events_to};
ghost use Rattle.slicing.specs.Facts.{IsDeniedInside};
ghost use Rattle.verdict_laws.specs.HeldFacts as laws;
ghost use Rattle.verdict_laws.specs.Order.{LeadsNowhere};
ghost use Rattle.verdict_laws.specs.Parts.{first_part};

use crate::denying::{deny, deny_inside};
use crate::either_way::{is_denied_beside, is_denied_past_one};
use crate::held::are_held;
use crate::last_return::{LastReturn, last_return, return_at};
use crate::standing::standing_before;
use crate::together::{SETS, supposed_set};
use history::History;
use rmm_spec::Call;
use verdict_laws::{Fact, InTurn, nowhere_denied, nowhere_either_way};

/// Whether the last of the first events, so many, is a return whose reply denies what holds while its call may take effect, in whichever order two
/// calls come.
pub fn is_denied(history: &History, count: u32) -> bool
    ensures { IsTrue result → LeadsNowhere (first_part count history.now.recorded) [] }
{
    let Some(last) = last_return(history, count) else {
        return false;
    };
    let Some(last) = return_at(history, count, last.called) else {
        return false;
    };
    is_denied_return(history, count, &last)
}

/// Whether the return is such.
fn is_denied_return(history: &History, count: u32, last: &LastReturn<'_>) -> bool
    requires { IsReturn (events_to count history.now.recorded.events) last.now }
    ensures { IsTrue result → LeadsNowhere (first_part count history.now.recorded) [] }
{
    for set in 0..SETS {
        let facts = supposed_set(history, count, last, set);
        if is_denied_by(history, count, last, facts.as_slice()) {
            return true;
        }
    }
    let _fact = history.well_formed();
    let _law = nowhere_either_way();
    is_denied_beside(history, count, last)
}

/// Whether the facts deny the reply, and all hold, or do whichever of two calls comes first.
fn is_denied_by(history: &History, count: u32, last: &LastReturn<'_>, facts: &[Fact]) -> bool
    requires { IsReturn (events_to count history.now.recorded.events) last.now }
    ensures { IsTrue result → LeadsNowhere (first_part count history.now.recorded) [] }
{
    let _fact = history.well_formed();
    let _law = nowhere_denied();
    let _other_law = nowhere_either_way();
    are_denying(history, count, last, facts, None)
        || is_denied_past_one(history, count, last, facts)
}

/// Whether facts deny the reply, which hold where calls come in that turn.
pub(crate) fn is_denied_where(
    history: &History,
    count: u32,
    last: &LastReturn<'_>,
    turn: Option<InTurn>,
) -> bool
    requires { IsReturn (events_to count history.now.recorded.events) last.now }
    ensures { IsTrue result
        → laws.IsDeniedWhere turn history.now.recorded.config.granules (events_to count history.now.recorded.events) }
{
    for set in 0..SETS {
        let facts = supposed_set(history, count, last, set);
        if are_denying(history, count, last, facts.as_slice(), turn) {
            return true;
        }
    }
    false
}

/// Whether the facts deny the reply, and all hold where calls come in that turn.
pub(crate) fn are_denying(
    history: &History,
    count: u32,
    last: &LastReturn<'_>,
    facts: &[Fact],
    turn: Option<InTurn>,
) -> bool
    requires { IsReturn (events_to count history.now.recorded.events) last.now }
    ensures { IsTrue result
        → laws.IsDeniedWhere turn history.now.recorded.config.granules (events_to count history.now.recorded.events) }
{
    deny_last(history, count, last, facts) && are_held(history, count, last.called, facts, turn)
}

/// Whether the facts deny the reply, by themselves or where its CPU stands.
pub(crate) fn deny_last(
    history: &History,
    count: u32,
    last: &LastReturn<'_>,
    facts: &[Fact],
) -> bool
    ensures { IsTrue result → laws.IsDenied history.now.recorded.config.granules (events_to count history.now.recorded.events) facts.now
        last.now.cpu last.now.number last.now.call (reply_seen last.now.reply) }
{
    deny(&history.config(), facts, &last.call, last.reply)
        || deny_inside_last(history, count, last, facts)
}

/// Whether the facts deny the reply where its CPU stands.
fn deny_inside_last(history: &History, count: u32, last: &LastReturn<'_>, facts: &[Fact]) -> bool
    ensures { IsTrue result → IsDeniedInside (events_to count history.now.recorded.events) facts.now last.now }
{
    if !matches!(last.call, Call::IpaStateGet { .. }) || count as usize > history.len() {
        return false;
    }
    match standing_before(history, count, last.cpu, last.number) {
        Some(standing) => deny_inside(facts, standing, &last.call, last.reply),
        None => false,
    }
}
