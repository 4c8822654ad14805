//! Which facts may deny a reply, and which call made each. What is found isn't promised: it is checked.

use crate::denying::denies;
use crate::given_back::freed;
use crate::held::is_made_by;
use crate::last_return::LastReturn;
use crate::latest::{concerns, done_at, function_at, gives_page, may_make};
use crate::making::{tags, takes_part};
use crate::together::Together;
use command_words::{Way, named, way_of, words_allow};
use history::History;
use rmi_view::ReplyRef;
use rmm_spec::{Call, FunctionId, Tag};
use verdict_laws::Fact;

/// The tags that calls give to granules by name.
const TAGS: [Tag; 5] = [
    Tag::Undelegated,
    Tag::Delegated,
    Tag::Rd,
    Tag::Rec,
    Tag::Data,
];

/// How many bits a realm's addresses may have.
const WIDTHS: [u64; 2] = [0x27, 0x30];

/// What a reply may deny of an entry, where it may.
pub(crate) fn supposed_entry(last: &LastReturn<'_>) -> Option<Fact> {
    match last.call {
        Call::DataCreateUnknown { rd, ipa, .. } | Call::DataDestroy { rd, ipa } => {
            Some(Fact::Unassigned { rd, ipa })
        }
        Call::DataCreate { rd, ipa, .. } => Some(Fact::UnassignedRam { rd, ipa }),
        Call::RttInitRipas { rd, base, .. } => Some(Fact::Unassigned { rd, ipa: base }),
        Call::RttReadEntry { rd, ipa, .. } => Some(Fact::Unassigned { rd, ipa }),
        _ => None,
    }
}

/// The page of an entry that the reply denies, as the latest call says that gave it.
pub(crate) fn supposed_page(history: &History, count: u32, last: &LastReturn<'_>) -> Option<Fact> {
    for back in 1..last.called.saturating_add(1) {
        let at = last.called.saturating_sub(back);
        if let Some(fact) = page_given(history, count, last.called, at) {
            if denies(fact, &last.call, last.reply) {
                return Some(fact);
            }
        }
    }
    None
}

/// That an entry has a page, where the call that is made at one place gives it and returned before another.
fn page_given(history: &History, count: u32, place: u32, at: u32) -> Option<Fact> {
    if !gives_page(function_at(history, at)?) {
        return None;
    }
    match done_at(history, count, place, at)?.call {
        Call::DataCreate {
            rd,
            granule,
            ipa,
            ..
        }
        | Call::DataCreateUnknown { rd, granule, ipa } => Some(Fact::Assigned {
            rd,
            ipa,
            page: granule,
        }),
        _ => None,
    }
}

/// What a reply may deny of a realm or of its tables.
pub(crate) fn supposed(history: &History, count: u32, last: &LastReturn<'_>) -> Option<Fact> {
    match last.reply {
        ReplyRef::Ok(words) => supposed_done(history, count, last, words),
        ReplyRef::Err(1, _) => wide_before(history, count, last),
        ReplyRef::Err(2, _) => Some(Fact::NewRealm {
            rd: realm_of(&last.call)?,
        }),
        ReplyRef::Err(4, index) if words_allow(&last.call) => {
            covered_below(history, count, last, way_of(&last.call)?, index)
        }
        _ => None,
    }
}

/// What may deny that a call is carried out which needs its realm new, or that it reports an entry above a table.
fn supposed_done(
    history: &History,
    count: u32,
    last: &LastReturn<'_>,
    words: &[u64],
) -> Option<Fact> {
    if !matches!(last.call, Call::RttReadEntry { .. }) {
        return Some(Fact::Activated {
            rd: realm_of(&last.call)?,
        });
    }
    if !words_allow(&last.call) {
        return None;
    }
    let above = u8::try_from(*words.first()?).ok()?;
    covered_below(history, count, last, way_of(&last.call)?, above)
}

/// What may deny together that a call is refused for what it says and names.
pub(crate) fn supposed_together(history: &History, count: u32, last: &LastReturn<'_>) -> Together {
    let mut facts = Together::new();
    if !matches!(last.reply, ReplyRef::Err(1, _)) {
        return facts;
    }
    for name in named(&last.call).as_slice() {
        let fact = granule_before(history, count, last.called, name.granule);
        facts.push(fact);
        if let Fact::PartOf { owner, .. } = fact {
            facts.push(granule_before(history, count, last.called, owner));
        }
    }
    if let Some(fact) = wide_before(history, count, last) {
        facts.push(fact);
    }
    if let Call::RealmCreate { rd, vmid, .. } = last.call {
        let owner = owner_before(history, count, last.called, vmid).unwrap_or(rd);
        facts.push(Fact::SoleVmid { rd: owner, vmid });
        facts.push(granule_before(history, count, last.called, owner));
    }
    facts
}

/// The realm to which the latest call gave the VMID that returned before a place.
fn owner_before(history: &History, count: u32, place: u32, vmid: u64) -> Option<u64> {
    for back in 1..place.saturating_add(1) {
        let at = place.saturating_sub(back);
        if let Some(rd) = owner_at(history, count, place, at, vmid) {
            return Some(rd);
        }
    }
    None
}

/// The realm to which the call that is made at one place gave the VMID, if that returned before another.
fn owner_at(history: &History, count: u32, place: u32, at: u32, vmid: u64) -> Option<u64> {
    if !matches!(function_at(history, at), Some(FunctionId::RealmCreate)) {
        return None;
    }
    match done_at(history, count, place, at)?.call {
        Call::RealmCreate {
            rd,
            vmid: its_vmid,
            ..
        } if vmid == its_vmid => Some(rd),
        _ => None,
    }
}

/// How many bits the addresses have of the realm in whose tables the call walks, as the latest call says that made it.
pub(crate) fn wide_before(history: &History, count: u32, last: &LastReturn<'_>) -> Option<Fact> {
    if !words_allow(&last.call) {
        return None;
    }
    let rd = way_of(&last.call)?.rd;
    for width in WIDTHS {
        let fact = Fact::Wide { rd, width };
        if maker_before(history, count, last.called, fact).is_some() {
            return Some(fact);
        }
    }
    None
}

/// That a table covers the address to which the call walks, below a level: the lowest that was made.
fn covered_below(
    history: &History,
    count: u32,
    last: &LastReturn<'_>,
    way: Way,
    above: u8,
) -> Option<Fact> {
    for level in (above.saturating_add(1)..way.max.saturating_add(1)).rev() {
        let fact = Fact::Covered {
            rd: way.rd,
            level,
            ipa: way.ipa,
        };
        if maker_before(history, count, last.called, fact).is_some() {
            return Some(fact);
        }
    }
    None
}

/// The realm that a call names which is refused where that isn't new.
fn realm_of(call: &Call) -> Option<u64> {
    match call {
        Call::DataCreate { rd, .. }
        | Call::RealmActivate { rd }
        | Call::RecCreate { rd, .. }
        | Call::RttInitRipas { rd, .. } => Some(*rd),
        _ => None,
    }
}

/// The tag of a granule that the reply denies, as the calls before say.
pub(crate) fn supposed_tag(history: &History, count: u32, last: &LastReturn<'_>) -> Option<Fact> {
    for name in named(&last.call).as_slice() {
        let fact = granule_before(history, count, last.called, name.granule);
        if denies(fact, &last.call, last.reply) {
            return Some(fact);
        }
    }
    let granule = freed(&last.call, last.reply)?;
    Some(granule_before(history, count, last.called, granule))
}

/// What the calls before a place say of a granule: its tag, or whose part it is.
fn granule_before(history: &History, count: u32, place: u32, granule: u64) -> Fact {
    for back in 1..place.saturating_add(1) {
        if let Some(fact) = granule_at(history, count, place, place.saturating_sub(back), granule) {
            return fact;
        }
    }
    Fact::Tagged {
        granule,
        tag: Tag::Undelegated,
    }
}

/// What the call says of it that is made at one place, where it returned before another.
fn granule_at(history: &History, count: u32, place: u32, at: u32, granule: u64) -> Option<Fact> {
    if !concerns(history, at, granule) {
        return None;
    }
    let done = done_at(history, count, place, at)?;
    for tag in TAGS {
        if tags(&done.call, done.reply, granule, tag) {
            return Some(Fact::Tagged { granule, tag });
        }
    }
    match done.call {
        Call::RealmCreate { rd: owner, .. } | Call::RecCreate { rec: owner, .. }
            if takes_part(&done.call, granule, owner) => { Some(Fact::PartOf { granule, owner }) }
        _ => None,
    }
}

/// The place of the latest call that makes the fact, and returned before another.
pub(crate) fn maker_before(history: &History, count: u32, place: u32, fact: Fact) -> Option<u32> {
    for back in 1..place.saturating_add(1) {
        let at = place.saturating_sub(back);
        if is_made_at(history, count, place, fact, at) {
            return Some(at);
        }
    }
    None
}

/// Whether the call that is made at one place makes the fact, and returned before another.
fn is_made_at(history: &History, count: u32, place: u32, fact: Fact, at: u32) -> bool {
    match function_at(history, at) {
        Some(function) if may_make(fact, function) => match done_at(history, count, place, at) {
            Some(done) => is_made_by(history, count, fact, &done),
            None => false,
        },
        _ => false,
    }
}
