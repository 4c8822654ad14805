//! Which calls have to come before which, so that an entry of the last level has the page that was read, or none.

use crate::calls::{command_at, reply_of};
use crate::precedence::{Parts, Precedence, is_decided, is_known};
use crate::steps::Step;
use history::History;
use rmi_view::ReplyRef;
use rmm_spec::FunctionId;
use std::cmp::min;

/// How many steps are looked back at most.
const MOST: usize = 256;

/// What replies call the state of an entry that has a page.
const ASSIGNED: u64 = 1;

/// A call that read an entry of a realm.
#[derive(Clone, Copy)]
struct EntryLook {
    rd: u64,
    ipa: u64,
    page: Option<u64>,
    called: u32,
    returned: u32,
}

/// That a step which read an entry comes before the last of these steps that left it otherwise.
pub(crate) fn entry_precedence(
    history: &History,
    step: Step,
    steps: Parts<'_>,
    known: &[Precedence],
) -> Option<Precedence> {
    let look = look_of(history, step)?;
    for others in 0..min(steps.len(), MOST) {
        let step = steps.from_end(others)?;
        let Some(left) = look.left_by(history, step) else {
            continue;
        };
        let precedence = Precedence {
            first: look.called,
            second: step.called,
        };
        if is_known(precedence, known) {
            continue;
        }
        let may_be = left != look.page && look.called < step.returned;
        return (may_be && !is_decided(precedence, known)).then_some(precedence);
    }
    None
}

/// That one of these steps, which leaves an entry as a step read it, comes before that.
pub(crate) fn later_entry_precedence(
    history: &History,
    step: Step,
    rest: &[Step],
    known: &[Precedence],
) -> Option<Precedence> {
    let look = look_of(history, step)?;
    for step in rest {
        let precedence = Precedence {
            first: step.called,
            second: look.called,
        };
        let may_be = look.left_by(history, *step) == Some(look.page) && step.called < look.returned;
        if may_be && !is_decided(precedence, known) {
            return Some(precedence);
        }
    }
    None
}

// What a step read of an entry, where it read one.
fn look_of(history: &History, step: Step) -> Option<EntryLook> {
    let command = command_at(history, step.called as usize)?;
    let reply = reply_of(history, step.returned)?;
    match (command.function, command.words, reply) {
        (FunctionId::RttReadEntry, [rd, ipa, _], ReplyRef::Ok([_, state, address, _])) => {
            Some(EntryLook {
                rd: *rd,
                ipa: *ipa,
                page: (*state == ASSIGNED).then_some(*address),
                called: step.called,
                returned: step.returned,
            })
        }
        _ => None,
    }
}

impl EntryLook {
    // The page, or none, that a step leaves at the entry, where it changes that.
    fn left_by(self, history: &History, step: Step) -> Option<Option<u64>> {
        let command = command_at(history, step.called as usize)?;
        let ReplyRef::Ok(_) = reply_of(history, step.returned)? else {
            return None;
        };
        let (rd, ipa, page) = match (command.function, command.words) {
            (FunctionId::DataCreate | FunctionId::DataCreateUnknown, [rd, page, ipa, ..]) => {
                (*rd, *ipa, Some(*page))
            }
            (FunctionId::DataDestroy, [rd, ipa]) => (*rd, *ipa, None),
            _ => return None,
        };
        (rd == self.rd && ipa == self.ipa).then_some(page)
    }
}
