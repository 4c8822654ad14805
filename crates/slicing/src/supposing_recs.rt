//! Which facts of a REC may deny a reply. What is found isn't promised: it is checked.

use crate::call_at::call_at;
use crate::early::open_from;
use crate::last_return::LastReturn;
use crate::latest_recs::{asked_from, asked_leaving, asked_to, entered_before, owner_before};
use crate::supposing::{maker_before, wide_before};
use crate::together::Together;
use history::History;
use rmi_view::ReplyRef;
use rmm_spec::{Call, Tag};
use std::cmp::max;
use verdict_laws::{ExitReason, Fact};

/// What may deny together a reply about a REC.
pub(crate) fn supposed_of_rec(history: &History, count: u32, last: &LastReturn<'_>) -> Together {
    match last.call {
        Call::RecEnter { rec } => supposed_entered(history, count, last, rec),
        Call::RecDestroy { rec } => asked(history, count, last, rec),
        Call::RttSetRipas { rd, rec, .. } => supposed_set(history, count, last, rd, rec),
        _ => Together::new(),
    }
}

/// What may deny that it is entered, or isn't.
fn supposed_entered(history: &History, count: u32, last: &LastReturn<'_>, rec: u64) -> Together {
    let mut facts = Together::new();
    match last.reply {
        ReplyRef::Err(2, _) => {
            if let Some(rd) = owner_before(history, count, last.called, rec) {
                facts.push(Fact::OwnedBy { rec, rd });
                facts.push(Fact::Activated { rd });
            }
            facts
        }
        ReplyRef::Err(3, _) => {
            facts = asked(history, count, last, rec);
            facts.push(Fact::Runnable { rec });
            facts
        }
        _ => asked(history, count, last, rec),
    }
}

/// What may deny that the RIPAS which it asks for is set, or isn't.
fn supposed_set(
    history: &History,
    count: u32,
    last: &LastReturn<'_>,
    rd: u64,
    rec: u64,
) -> Together {
    let mut facts = asked(history, count, last, rec);
    match last.reply {
        ReplyRef::Err(1, _) => {
            if let Some(fact) = wide_before(history, count, last) {
                facts.push(fact);
            }
            if let Some(fact) = asked_to(history, count, last.called, rec) {
                facts.push(fact);
            }
        }
        ReplyRef::Err(3, _) => facts.push(Fact::OwnedBy { rec, rd }),
        _ => {}
    }
    facts
}

/// What may deny together that the REC runs, or isn't ready.
pub(crate) fn supposed_idle(last: &LastReturn<'_>) -> Together {
    let mut facts = Together::new();
    if !matches!(last.reply, ReplyRef::Err(3, _)) {
        return facts;
    }
    match last.call {
        Call::RecEnter { rec } => {
            facts.push(Fact::Idle { rec });
            facts.push(Fact::Runnable { rec });
        }
        Call::RttSetRipas { rd, rec, .. } => {
            facts.push(Fact::Idle { rec });
            facts.push(Fact::OwnedBy { rec, rd });
        }
        Call::RecDestroy { rec } => facts.push(Fact::Idle { rec }),
        _ => {}
    }
    facts
}

/// What may deny together that a RIPAS is refused for what the call says, where its REC runs.
pub(crate) fn supposed_stopped(history: &History, count: u32, last: &LastReturn<'_>) -> Together {
    let mut facts = Together::new();
    let (Call::RttSetRipas { rd, .. }, ReplyRef::Err(1, _)) = (last.call, last.reply) else {
        return facts;
    };
    if let Some(fact) = supposed_running(history, count, last) {
        facts.push(fact);
        facts.push(Fact::Tagged {
            granule: rd,
            tag: Tag::Rd,
        });
    }
    facts
}

/// What may deny together that it is, where its REC may be entered meanwhile: then it is refused for that, and else the REC asks for those pages.
pub(crate) fn supposed_pages(history: &History, count: u32, last: &LastReturn<'_>) -> Together {
    let mut facts = Together::new();
    let (Call::RttSetRipas { rd, rec, base, .. }, ReplyRef::Err(1, _)) = (last.call, last.reply)
    else {
        return facts;
    };
    if let Some(fact) = asked_to(history, count, last.called, rec) {
        facts.push(fact);
        facts.push(Fact::RunsOrAsksWithin {
            rec,
            least: base,
            most: base,
        });
        facts.push(Fact::Tagged {
            granule: rd,
            tag: Tag::Rd,
        });
    }
    facts
}

/// That the REC runs which the call needs idle, as the latest call says that entered it.
pub(crate) fn supposed_running(
    history: &History,
    count: u32,
    last: &LastReturn<'_>,
) -> Option<Fact> {
    let (Call::RecEnter { rec } | Call::RecDestroy { rec } | Call::RttSetRipas { rec, .. }) =
        last.call
    else {
        return None;
    };
    let entry = entered_before(history, count, last.called, rec)?;
    Some(Fact::RunsOn {
        rec,
        cpu: entry.cpu,
    })
}

/// That it runs or asks for something from where calls may have left it, where it is entered or set as if it asked from elsewhere on.
pub(crate) fn supposed_asking(
    history: &History,
    count: u32,
    last: &LastReturn<'_>,
) -> Option<Fact> {
    let (Call::RecEnter { rec } | Call::RttSetRipas { rec, .. }) = last.call else {
        return None;
    };
    let least = asked_or_leaving(history, count, last.called, rec)?;
    let supposed = Fact::RunsOrAsksWithin {
        rec,
        least,
        most: least,
    };
    let maker = maker_before(history, count, last.called, supposed)?;
    let most = set_up_to(history, count, maker, rec, least);
    Some(Fact::RunsOrAsksWithin { rec, least, most })
}

/// From where on the REC asks for something, or does as it leaves where it runs.
fn asked_or_leaving(history: &History, count: u32, place: u32, rec: u64) -> Option<u64> {
    if let Some(Fact::AsksFrom { base, .. }) = asked_from(history, count, place, rec) {
        return Some(base);
    }
    let entry = entered_before(history, count, place, rec)?;
    match asked_leaving(history, count, rec, entry)? {
        ExitReason::RipasChange { base, .. } => Some(base),
        _ => None,
    }
}

/// Up to where calls may have set what the REC asks for from the address on, that didn't return before one at a place was made.
fn set_up_to(history: &History, count: u32, maker: u32, rec: u64, least: u64) -> u64 {
    let mut most = least;
    if count as usize > history.len() {
        return most;
    }
    for at in open_from(history, maker)..count {
        let Some(call) = call_at(history, count, at) else {
            continue;
        };
        match call.call {
            Call::RttSetRipas {
                rec: other,
                base,
                top,
                ..
            } if other == rec && base >= least && !call.is_refused() => most = max(most, top),
            _ => {}
        }
    }
    most
}

/// From where on it asks for something, if a call says it.
fn asked(history: &History, count: u32, last: &LastReturn<'_>, rec: u64) -> Together {
    let mut facts = Together::new();
    if let Some(fact) = asked_from(history, count, last.called, rec) {
        facts.push(fact);
    }
    facts
}
