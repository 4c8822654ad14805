//! Looks back for calls that left a granule unused. What is found isn't promised: a plan with it is checked.

use crate::call_at::{CallAt, call_at};
use crate::given_back::{leaves_unused, makes_part};
use crate::kinds::{changes, is_looking};
use crate::plan::Unused;
use history::History;

/// Why the granule is unused before a place, if the calls before say so, and whether it is lent to the realm world then.
pub(crate) fn unused_before(
    history: &History,
    count: u32,
    place: u32,
    granule: u64,
) -> Option<(Unused, bool)> {
    for back in 1..place.saturating_add(1) {
        let at = place.saturating_sub(back);
        if let Some(call) = done_at(history, count, at) {
            if let Some(lent) = lends(&call, granule) {
                return Some((Unused::GivenUp { giver: at }, lent));
            }
            if changes(&call.call, granule) {
                let ender = ender_of(history, count, &call, granule, place)?;
                return Some((Unused::PartBack { maker: at, ender }, true));
            }
        }
    }
    Some((Unused::Untouched, false))
}

/// Whether the call leaves the granule unused and lent, or unused and not lent. None where it does neither.
fn lends(call: &CallAt<'_>, granule: u64) -> Option<bool> {
    let answer = call.answer?;
    if leaves_unused(&call.call, answer.reply, granule, true) {
        return Some(true);
    }
    if leaves_unused(&call.call, answer.reply, granule, false) {
        return Some(false);
    }
    None
}

/// The place of the call that first ends what the maker makes with the granule as a part, before another place.
fn ender_of(
    history: &History,
    count: u32,
    maker: &CallAt<'_>,
    granule: u64,
    place: u32,
) -> Option<u32> {
    for at in maker.back()..place {
        if let Some(call) = done_at(history, count, at) {
            if makes_part(&maker.call, &call.call, granule) {
                return Some(at);
            }
        }
    }
    None
}

/// The call that is made at a place, where it was carried out and doesn't only look.
fn done_at(history: &History, count: u32, place: u32) -> Option<CallAt<'_>> {
    if place >= count || count as usize > history.len() {
        return None;
    }
    let call = call_at(history, count, place)?;
    if is_looking(call.function) || !call.is_done() {
        return None;
    }
    Some(call)
}
