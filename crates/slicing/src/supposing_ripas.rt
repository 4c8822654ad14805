//! Which facts on the RIPAS of an address may deny a reply. What is found isn't promised: it is checked.

use crate::done::Done;
use crate::last_return::LastReturn;
use crate::latest::{done_at, function_at};
use crate::latest_recs::{asked_to, owner_before};
use crate::making::makes;
use crate::making_recs::sets_ripas;
use crate::standing::standing_before;
use crate::together::Together;
use history::History;
use rmm_spec::{Call, FunctionId};
use verdict_laws::{Fact, Standing};

/// What may deny together which RIPAS a REC is told, or the host.
pub(crate) fn supposed_inside(history: &History, count: u32, last: &LastReturn<'_>) -> Together {
    match last.call {
        Call::IpaStateGet { ipa } => supposed_told(history, count, last, ipa),
        Call::RttReadEntry { rd, ipa, .. } => {
            let mut facts = Together::new();
            if let Some(fact) = ripas_before(history, count, last.called, rd, ipa) {
                facts.push(fact);
            }
            facts
        }
        _ => Together::new(),
    }
}

/// What may deny which RIPAS the REC is told that the CPU stands in: whose that is, and of which RIPAS the address is.
fn supposed_told(history: &History, count: u32, last: &LastReturn<'_>, ipa: u64) -> Together {
    let mut facts = Together::new();
    if count as usize > history.len() {
        return facts;
    }
    let Some(Standing::Inside { rec, .. }) = standing_before(history, count, last.cpu, last.number)
    else {
        return facts;
    };
    let Some(rd) = owner_before(history, count, last.called, rec) else {
        return facts;
    };
    if let Some(fact) = ripas_before(history, count, last.called, rd, ipa) {
        facts.push(Fact::OwnedBy { rec, rd });
        facts.push(fact);
    }
    facts
}

/// Of which RIPAS the address is, as the latest call says that set it and returned before a place.
fn ripas_before(history: &History, count: u32, place: u32, rd: u64, ipa: u64) -> Option<Fact> {
    for back in 1..place.saturating_add(1) {
        let at = place.saturating_sub(back);
        if let Some(ripas) = ripas_at(history, count, place, at, rd, ipa) {
            return Some(Fact::HasRipas { rd, ipa, ripas });
        }
    }
    None
}

/// The place of the latest call that makes an address of the RIPAS, and returned before a place.
pub(crate) fn maker_with(history: &History, count: u32, place: u32, fact: Fact) -> Option<u32> {
    let Fact::HasRipas { rd, ipa, ripas } = fact else {
        return None;
    };
    for back in 1..place.saturating_add(1) {
        let at = place.saturating_sub(back);
        if ripas_at(history, count, place, at, rd, ipa) == Some(ripas) {
            return Some(at);
        }
    }
    None
}

/// Which RIPAS the call sets there that is made at one place, if that returned before another.
fn ripas_at(history: &History, count: u32, place: u32, at: u32, rd: u64, ipa: u64) -> Option<u64> {
    match function_at(history, at)? {
        FunctionId::RttInitRipas | FunctionId::DataCreate => {
            let done = done_at(history, count, place, at)?;
            let ram = Fact::HasRipas { rd, ipa, ripas: 1 };
            makes(ram, done.cpu, &done.call, done.reply).then_some(1)
        }
        FunctionId::RttSetRipas => {
            let done = done_at(history, count, place, at)?;
            ripas_asked(history, count, at, &done, rd, ipa)
        }
        _ => None,
    }
}

/// Which RIPAS a call that is made at the place sets at the address, as its REC asked.
fn ripas_asked(
    history: &History,
    count: u32,
    place: u32,
    done: &Done<'_>,
    rd: u64,
    ipa: u64,
) -> Option<u64> {
    let Call::RttSetRipas { rec, .. } = done.call else {
        return None;
    };
    if !sets_ripas(&done.call, done.reply, rec, rd, ipa) {
        return None;
    }
    match asked_to(history, count, place, rec)? {
        Fact::RunsOrAsksTo { ripas, .. } => Some(ripas),
        _ => None,
    }
}
