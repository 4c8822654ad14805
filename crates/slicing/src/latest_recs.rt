//! What calls say of a REC before a place: whose it is, what it asks for, and where it was entered.

use crate::call_at::call_at;
use crate::done::Done;
use crate::latest::{done_at, function_at};
use crate::making_recs::enters;
use crate::standing::standing_before;
use history::History;
use rmi_view::ReplyRef;
use rmm_spec::{Call, FunctionId};
use verdict_laws::{ExitReason, Fact, Standing};

/// Where the REC was entered: the place at which the call was made, and its CPU.
#[derive(Clone, Copy)]
pub(crate) struct Entry {
    pub(crate) place: u32,
    pub(crate) cpu: u8,
}

/// Where the latest call entered the REC that returned before a place.
pub(crate) fn entered_before(history: &History, count: u32, place: u32, rec: u64) -> Option<Entry> {
    for back in 1..place.saturating_add(1) {
        let at = place.saturating_sub(back);
        if let Some(entry) = entered_at(history, count, place, at, rec) {
            return Some(entry);
        }
    }
    None
}

/// The same, if the call that is made at one place enters it and returned before another.
fn entered_at(history: &History, count: u32, place: u32, at: u32, rec: u64) -> Option<Entry> {
    if !matches!(function_at(history, at), Some(FunctionId::RecEnter)) {
        return None;
    }
    let done = done_at(history, count, place, at)?;
    enters(&done.call, rec).then_some(Entry {
        place: at,
        cpu: done.cpu,
    })
}

/// The realm of the REC, as the latest call says that made it and returned before a place.
pub(crate) fn owner_before(history: &History, count: u32, place: u32, rec: u64) -> Option<u64> {
    for back in 1..place.saturating_add(1) {
        let at = place.saturating_sub(back);
        if let Some(rd) = owner_at(history, count, place, at, rec) {
            return Some(rd);
        }
    }
    None
}

/// The realm for which the call that is made at one place makes the REC, if that returned before another.
fn owner_at(history: &History, count: u32, place: u32, at: u32, rec: u64) -> Option<u64> {
    if !matches!(function_at(history, at), Some(FunctionId::RecCreate)) {
        return None;
    }
    match done_at(history, count, place, at)?.call {
        Call::RecCreate { rd, rec: other, .. } if rec == other => Some(rd),
        _ => None,
    }
}

/// From where on the REC asks for something, as the latest call says that returned before a place, if it wasn't entered since.
pub(crate) fn asked_from(history: &History, count: u32, place: u32, rec: u64) -> Option<Fact> {
    for back in 1..place.saturating_add(1) {
        let at = place.saturating_sub(back);
        if let Some(done) = of_rec_at(history, count, place, at) {
            if enters(&done.call, rec) {
                return None;
            }
            if let Some(base) = base_after(history, count, &done, rec) {
                return Some(Fact::AsksFrom { rec, base });
            }
        }
    }
    None
}

/// Up to where, and for which RIPAS, as the latest exit says, or as it leaves where it runs.
pub(crate) fn asked_to(history: &History, count: u32, place: u32, rec: u64) -> Option<Fact> {
    for back in 1..place.saturating_add(1) {
        let at = place.saturating_sub(back);
        if let Some(done) = of_rec_at(history, count, place, at) {
            if enters(&done.call, rec) {
                let entry = Entry {
                    place: at,
                    cpu: done.cpu,
                };
                return up_to(rec, asked_leaving(history, count, rec, entry)?);
            }
            if let Some(reason) = reason_of(history, count, &done, rec) {
                return up_to(rec, reason);
            }
        }
    }
    None
}

/// That the REC asks up to there, where it leaves for that reason.
fn up_to(rec: u64, reason: ExitReason) -> Option<Fact> {
    match reason {
        ExitReason::RipasChange { top, ripas, .. } => Some(Fact::RunsOrAsksTo { rec, top, ripas }),
        _ => None,
    }
}

/// Why the REC leaves that was entered so.
pub(crate) fn asked_leaving(
    history: &History,
    count: u32,
    rec: u64,
    entry: Entry,
) -> Option<ExitReason> {
    if count as usize > history.len() {
        return None;
    }
    for at in entry.place..count {
        if let Some(reason) = reason_at(history, count, at, rec, entry.cpu) {
            return Some(reason);
        }
    }
    None
}

/// Why it leaves by the call that is made at a place, if that is its exit.
fn reason_at(history: &History, count: u32, at: u32, rec: u64, cpu: u8) -> Option<ExitReason> {
    if !matches!(function_at(history, at), Some(FunctionId::Exit)) {
        return None;
    }
    if at >= count || count as usize > history.len() {
        return None;
    }
    let call = call_at(history, count, at)?;
    if call.cpu != cpu {
        return None;
    }
    match standing_before(history, count, cpu, call.number)? {
        Standing::Inside { rec: other, reason } if other == rec => Some(reason),
        _ => None,
    }
}

/// The call that is made at one place, if it is of those that change what a REC asks for and returned before another.
fn of_rec_at(history: &History, count: u32, place: u32, at: u32) -> Option<Done<'_>> {
    match function_at(history, at)? {
        FunctionId::RecCreate | FunctionId::RecEnter | FunctionId::RttSetRipas | FunctionId::Exit =>
            done_at(history, count, place, at),
        _ => None,
    }
}

/// Where what the REC asks for begins after a call that was carried out, if that changes it.
fn base_after(history: &History, count: u32, done: &Done<'_>, rec: u64) -> Option<u64> {
    match done.call {
        Call::RecCreate { rec: other, .. } if rec == other => Some(0),
        Call::RttSetRipas { rec: other, .. } if rec == other => match done.reply {
            ReplyRef::Ok(words) => words.first().copied(),
            _ => None,
        },
        _ => match reason_of(history, count, done, rec)? {
            ExitReason::RipasChange { base, .. } => Some(base),
            _ => None,
        },
    }
}

/// Why the REC leaves by the call, if that is its exit.
fn reason_of(history: &History, count: u32, done: &Done<'_>, rec: u64) -> Option<ExitReason> {
    if !matches!(done.call, Call::Exit) || count as usize > history.len() {
        return None;
    }
    match standing_before(history, count, done.cpu, done.number)? {
        Standing::Inside { rec: at, reason } if at == rec => Some(reason),
        _ => None,
    }
}
