//! Which replies facts deny, one alone or several together.

ghost use Rattle.std.specs.Prelude.{◌≡◌, nat_lt, true, slice_index_or, IsTrue};
ghost use Rattle.rmi_view.specs.Seen.{reply_seen};
ghost use Rattle.rmm_spec.specs.Step.Terms.{way_of};
ghost use Rattle.verdict_laws.specs.Denying as laws;
ghost use Rattle.verdict_laws.specs.declared.facts.Fact.TheVariants.{Assigned, Tagged};

use crate::call_at::shows_names;
use crate::denying_recs::{asks_outside, needs_idle};
use crate::given_back::freed;
use crate::giving::{are_within, give_tags};
use crate::giving_recs::{are_ready, asks_pages, enters_run, give_other_ripas};
use crate::making::{creates_page, frees_entry, is_one_entry, is_one_table};
use command_words::{Name, is_tag, named, way_of, words_allow};
use memory_map::Config;
use rmi_view::ReplyRef;
use rmm_spec::{Call, Tag};
use verdict_laws::{Fact, Standing};

/// Whether the reply isn't given where all the facts hold, on a machine of that size.
pub(crate) fn deny(config: &Config, facts: &[Fact], call: &Call, reply: ReplyRef<'_>) -> bool
    ensures { IsTrue result → laws.deny config.now.granules facts.now call.now (reply_seen reply.entry) ≡ true }
{
    for fact in facts {
        if denies(*fact, call, reply) {
            return true;
        }
    }
    match reply {
        ReplyRef::Err(1, _) => {
            words_allow(call)
                && give_tags(config, facts, named(call).as_slice())
                && (are_within(facts, call) || asks_pages(facts, call))
        }
        ReplyRef::Err(2, 0) => enters_run(facts, call),
        ReplyRef::Err(3, _) => are_ready(facts, call),
        _ => false,
    }
}

/// Whether the reply isn't given where the fact holds.
pub(crate) fn denies(fact: Fact, call: &Call, reply: ReplyRef<'_>) -> bool
    ensures { IsTrue result → laws.denies fact call.now (reply_seen reply.entry) ≡ true }
{
    match fact {
        Fact::NewRealm { rd } => matches!(reply, ReplyRef::Err(2, _)) && needs_new(call, rd),
        Fact::Tagged { granule, tag } => denies_tag(call, reply, granule, tag),
        Fact::Covered { rd, level, ipa } => {
            is_above(call, reply, level) && goes_to(call, rd, level, ipa)
        }
        Fact::Wide { rd, width } => {
            matches!(reply, ReplyRef::Err(1, _)) && words_allow(call) && lies_in(call, rd, width)
        }
        Fact::SoleVmid { .. } | Fact::PartOf { .. } => false,
        Fact::Unassigned { rd, ipa } => match reply {
            ReplyRef::Ok(_) => {
                frees_entry(call, rd, ipa)
                    || reads_entry(call, rd, ipa) && is_other_entry(0, 0, reply)
            }
            ReplyRef::Err(4, _) => needs_free(call, rd, ipa),
            _ => false,
        },
        Fact::UnassignedRam { rd, ipa } => {
            matches!(reply, ReplyRef::Err(4, _)) && creates_page(call, rd, ipa)
        }
        Fact::Assigned { rd, ipa, page } => denies_page(call, reply, rd, ipa, page),
        Fact::HasRipas { rd, ipa, ripas } => {
            matches!(reply, ReplyRef::Ok(_))
                && reads_entry(call, rd, ipa)
                && !is_reported(3, ripas, reply)
        }
        Fact::Activated { rd } => matches!(reply, ReplyRef::Ok(_)) && needs_new(call, rd),
        Fact::AsksFrom { rec, base } => {
            matches!(reply, ReplyRef::Ok(_)) && asks_outside(call, reply, rec, base, base)
        }
        Fact::RunsOrAsksWithin { rec, least, most } => {
            matches!(reply, ReplyRef::Ok(_)) && asks_outside(call, reply, rec, least, most)
        }
        Fact::RunsOn { rec, .. } => matches!(reply, ReplyRef::Ok(_)) && needs_idle(call, rec),
        Fact::OwnedBy { .. }
        | Fact::Runnable { .. }
        | Fact::Idle { .. }
        | Fact::RunsOrAsksTo { .. } => false,
    }
}

/// Whether the reply says that a table of the level is missing or an entry above it in the way, or reports an entry above it.
fn is_above(call: &Call, reply: ReplyRef<'_>, level: u8) -> bool
    ensures { result ≡ laws.is_above call.now (reply_seen reply.entry) level }
{
    match reply {
        ReplyRef::Err(4, index) => index < level,
        ReplyRef::Ok(words) => reads(call) && is_word_below(words, level),
        _ => false,
    }
}

/// Whether the first word is below the level, or 0 is where there is none.
fn is_word_below(words: &[u64], level: u8) -> bool
    ensures { result ≡ nat_lt (slice_index_or words.now 0 0) level }
{
    match words.first() {
        Some(word) => *word < u64::from(level),
        None => level > 0,
    }
}

#[tactic(auto, unfolding(verdict_laws::specs::Denying::reads))]
fn reads(call: &Call) -> bool
    ensures { result ≡ laws.reads call.now }
{
    matches!(call, Call::RttReadEntry { .. })
}

/// Whether the call is refused where the realm isn't new, and by no other row on the realm.
#[tactic(auto, unfolding(verdict_laws::specs::Denying::needs_new))]
fn needs_new(call: &Call, rd: u64) -> bool
    ensures { result ≡ laws.needs_new call.now rd }
{
    match call {
        Call::DataCreate { rd: other, .. }
        | Call::RealmActivate { rd: other }
        | Call::RecCreate { rd: other, .. }
        | Call::RttInitRipas { rd: other, .. } => rd == *other,
        _ => false,
    }
}

/// Whether the call names its realm alone, and its addresses are protected ones of realms so wide.
#[tactic(auto, unfolding(verdict_laws::specs::Denying::lies_in))]
fn lies_in(call: &Call, rd: u64, width: u64) -> bool
    ensures { IsTrue result → laws.lies_in call.now rd width ≡ true }
{
    if width == 0 || width > 64 {
        return false;
    }
    let half = 1u64 << (width - 1);
    match call {
        Call::DataDestroy { rd: other, ipa } => rd == *other && *ipa < half,
        Call::RttInitRipas { rd: other, top, .. } => rd == *other && *top <= half,
        _ => false,
    }
}

/// Whether the call is refused where the address's entry isn't unassigned, and by no other row on its table.
#[tactic(auto, unfolding(verdict_laws::specs::Denying::needs_free))]
fn needs_free(call: &Call, rd: u64, ipa: u64) -> bool
    ensures { result ≡ laws.needs_free call.now rd ipa }
{
    match call {
        Call::DataCreateUnknown {
            rd: other,
            ipa: at,
            ..
        }
        | Call::RttInitRipas {
            rd: other,
            base: at,
            ..
        } => rd == *other && is_one_entry(ipa, *at),
        _ => false,
    }
}

/// Whether the call reports the address's entry of the last level, if that is there.
#[tactic(auto, unfolding(verdict_laws::specs::Denying::reads_entry))]
fn reads_entry(call: &Call, rd: u64, ipa: u64) -> bool
    ensures { result ≡ laws.reads_entry call.now rd ipa }
{
    match call {
        Call::RttReadEntry {
            rd: other,
            ipa: at,
            level,
        } => rd == *other && *level == 3 && is_one_entry(ipa, *at),
        _ => false,
    }
}

/// Whether an entry is reported that isn't of the last level, or has another state or address.
fn is_other_entry(state: u64, at: u64, reply: ReplyRef<'_>) -> bool
    ensures { result ≡ laws.is_other_entry state at (reply_seen reply.entry) }
{
    !(is_reported(0, 3, reply) && is_reported(1, state, reply) && is_reported(2, at, reply))
}

/// Whether the word is replied there, or 0 where there is none.
fn is_reported(place: usize, word: u64, reply: ReplyRef<'_>) -> bool
    ensures { result ≡ laws.is_reported place word (reply_seen reply.entry) }
{
    match reply {
        ReplyRef::Ok(words) => match words.get(place) {
            Some(found) => *found == word,
            None => word == 0,
        },
        _ => false,
    }
}

/// Whether such a reply isn't given inside of a REC where all the facts hold.
#[tactic(auto, unfolding(verdict_laws::specs::Denying::deny_inside))]
pub(crate) fn deny_inside(
    facts: &[Fact],
    standing: Standing,
    call: &Call,
    reply: ReplyRef<'_>,
) -> bool
    ensures { result ≡ laws.deny_inside facts.now standing call.now (reply_seen reply.entry) }
{
    match standing {
        Standing::Inside { rec, .. } => match call {
            Call::IpaStateGet { ipa } => {
                matches!(reply, ReplyRef::Ok(_)) && give_other_ripas(facts, rec, *ipa, reply)
            }
            _ => false,
        },
        Standing::Outside => false,
    }
}

/// Whether the reply shows that the granule has another tag.
fn denies_tag(call: &Call, reply: ReplyRef<'_>, granule: u64, tag: Tag) -> bool
    ensures { IsTrue result → laws.denies (Tagged granule tag) call.now (reply_seen reply.entry) ≡ true }
{
    let is_page = is_tag(tag, Tag::Data) || is_tag(tag, Tag::Rtt);
    shows_names(reply) && needs_other(named(call).as_slice(), granule, tag)
        || freed(call, reply) == Some(granule) && !is_page
}

/// Whether the reply shows that the page is none, that it isn't the one that is taken back from its address or read there, or that none was there.
fn denies_page(call: &Call, reply: ReplyRef<'_>, rd: u64, ipa: u64, page: u64) -> bool
    ensures { IsTrue result → laws.denies (Assigned rd ipa page) call.now (reply_seen reply.entry) ≡ true }
{
    if shows_names(reply) && needs_other(named(call).as_slice(), page, Tag::Data) {
        return true;
    }
    if needs_free(call, rd, ipa) || creates_page(call, rd, ipa) {
        return matches!(reply, ReplyRef::Ok(_));
    }
    if reads_entry(call, rd, ipa) {
        return matches!(reply, ReplyRef::Ok(_)) && is_other_entry(1, page, reply);
    }
    frees_entry(call, rd, ipa)
        && match reply {
            ReplyRef::Ok(_) => freed(call, reply) != Some(page),
            ReplyRef::Err(status, _) => status == 4,
            ReplyRef::Misplaced => false,
        }
}

/// Whether one of these needs another tag of the granule.
fn needs_other(names: &[Name], granule: u64, tag: Tag) -> bool
    ensures { result ≡ laws.needs_other names.now granule tag }
{
    names
        .iter()
        .any(|name| name.granule == granule && !is_tag(name.tag, tag))
}

/// Whether the call's walk for the same table of the realm goes as far as its level.
fn goes_to(call: &Call, rd: u64, level: u8, ipa: u64) -> bool
    ensures { IsTrue result → laws.goes_to (way_of call.now) rd level ipa ≡ true }
{
    if !words_allow(call) {
        return false;
    }
    match way_of(call) {
        Some(way) => rd == way.rd && level <= way.max && is_one_table(level, ipa, way.ipa),
        None => false,
    }
}
