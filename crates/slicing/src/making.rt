//! What calls make of facts.

ghost use Rattle.std.specs.Prelude.{◌≡◌, ◌^◌, ◌&&◌, nat_lt};
ghost use Rattle.rmi_view.specs.Seen.{reply_seen};
ghost use Rattle.verdict_laws.specs.Facts as laws;

use crate::given_back::leaves_unused;
use crate::making_recs::{enters, makes_owned, makes_runnable, moves_request};
use crate::replying::SMALLEST_HALF;
use command_words::is_tag;
use memory_map::{entry_number, table_number};
use rmi_view::ReplyRef;
use rmm_spec::{Call, Tag};
use verdict_laws::Fact;

/// How many bytes of addresses a table of the last level covers.
const LAST_TABLE_BYTES: u64 = 0x20_0000;

/// Whether the fact holds before the first call.
pub(crate) fn begins(fact: Fact) -> bool
    ensures { result ≡ laws.begins fact }
{
    match fact {
        Fact::NewRealm { .. } | Fact::SoleVmid { .. } => true,
        Fact::Tagged { tag, .. } => is_tag(Tag::Undelegated, tag),
        Fact::Covered { .. }
        | Fact::Wide { .. }
        | Fact::PartOf { .. }
        | Fact::Unassigned { .. }
        | Fact::UnassignedRam { .. }
        | Fact::Assigned { .. }
        | Fact::HasRipas { .. }
        | Fact::Activated { .. }
        | Fact::OwnedBy { .. }
        | Fact::Runnable { .. }
        | Fact::Idle { .. }
        | Fact::RunsOn { .. }
        | Fact::AsksFrom { .. }
        | Fact::RunsOrAsksWithin { .. }
        | Fact::RunsOrAsksTo { .. } => false,
    }
}

/// Whether the CPU's call makes the fact, where it is carried out with that reply.
pub(crate) fn makes(fact: Fact, cpu: u8, call: &Call, reply: ReplyRef<'_>) -> bool
    ensures { result ≡ laws.makes fact cpu call.now (reply_seen reply.entry) }
{
    match fact {
        Fact::NewRealm { rd } => makes_realm(call, rd),
        Fact::Tagged { granule, tag } => tags(call, reply, granule, tag),
        Fact::Covered { rd, level, ipa } => makes_table(call, rd, level, ipa),
        Fact::Wide { rd, width } => makes_wide(call, rd, width),
        Fact::SoleVmid { rd, vmid } => makes_vmid(call, rd, vmid),
        Fact::PartOf { granule, owner } => takes_part(call, granule, owner),
        Fact::Unassigned { rd, ipa } => frees_entry(call, rd, ipa) || begins_entry(call, rd, ipa),
        Fact::UnassignedRam { rd, ipa } => sets_ram(call, reply, rd, ipa),
        Fact::Assigned { rd, ipa, page } => gives_entry(call, rd, ipa, page),
        Fact::HasRipas { rd, ipa, ripas } => {
            ripas == 1 && (sets_ram(call, reply, rd, ipa) || creates_page(call, rd, ipa))
        }
        Fact::Activated { rd } => activates(call, rd),
        Fact::OwnedBy { rec, rd } => makes_owned(call, rec, rd),
        Fact::Runnable { rec } => makes_runnable(call, rec),
        Fact::Idle { rec } => makes_rec(call, rec),
        Fact::RunsOn { rec, cpu: at } => at == cpu && enters(call, rec),
        Fact::AsksFrom { rec, base } => moves_request(call, reply, rec, base),
        Fact::RunsOrAsksWithin { rec, least, most } => {
            enters(call, rec) || (moves_request(call, reply, rec, least) && least <= most)
        }
        Fact::RunsOrAsksTo { rec, .. } => enters(call, rec),
    }
}

/// Whether DATA_CREATE_UNKNOWN gives the address a page.
#[tactic(auto, unfolding(verdict_laws::specs::Facts::creates_unknown))]
pub(crate) fn creates_unknown(call: &Call, rd: u64, ipa: u64) -> bool
    ensures { result ≡ laws.creates_unknown call.now rd ipa }
{
    match call {
        Call::DataCreateUnknown {
            rd: other,
            ipa: at,
            ..
        } => rd == *other && is_one_entry(ipa, *at),
        _ => false,
    }
}

/// Whether DATA_CREATE gives the address a page.
#[tactic(auto, unfolding(verdict_laws::specs::Facts::creates_page))]
pub(crate) fn creates_page(call: &Call, rd: u64, ipa: u64) -> bool
    ensures { result ≡ laws.creates_page call.now rd ipa }
{
    match call {
        Call::DataCreate {
            rd: other,
            ipa: at,
            ..
        } => rd == *other && is_one_entry(ipa, *at),
        _ => false,
    }
}

#[tactic(auto, unfolding(verdict_laws::specs::Facts::activates))]
fn activates(call: &Call, rd: u64) -> bool
    ensures { result ≡ laws.activates call.now rd }
{
    match call {
        Call::RealmActivate { rd: other } => rd == *other,
        _ => false,
    }
}

/// Whether the call, carried out with that reply, leaves the granule with the tag.
pub(crate) fn tags(call: &Call, reply: ReplyRef<'_>, granule: u64, tag: Tag) -> bool
    ensures { result ≡ laws.tags call.now (reply_seen reply.entry) granule tag }
{
    match tag {
        Tag::Undelegated => leaves_unused(call, reply, granule, false),
        Tag::Delegated => leaves_unused(call, reply, granule, true),
        Tag::Rd => makes_realm(call, granule),
        Tag::Rec => makes_rec(call, granule),
        Tag::Data => gives_page(call, granule),
        Tag::RecAux | Tag::Rtt => false,
    }
}

#[tactic(auto, unfolding(verdict_laws::specs::Facts::makes_realm))]
fn makes_realm(call: &Call, granule: u64) -> bool
    ensures { result ≡ laws.makes_realm call.now granule }
{
    match call {
        Call::RealmCreate { rd, .. } => *rd == granule,
        _ => false,
    }
}

#[tactic(auto, unfolding(verdict_laws::specs::Facts::makes_rec))]
fn makes_rec(call: &Call, granule: u64) -> bool
    ensures { result ≡ laws.makes_rec call.now granule }
{
    match call {
        Call::RecCreate { rec, .. } => *rec == granule,
        _ => false,
    }
}

#[tactic(auto, unfolding(verdict_laws::specs::Facts::gives_page))]
fn gives_page(call: &Call, granule: u64) -> bool
    ensures { result ≡ laws.gives_page call.now granule }
{
    match call {
        Call::DataCreate { granule: page, .. } | Call::DataCreateUnknown { granule: page, .. } => {
            *page == granule
        }
        _ => false,
    }
}

#[tactic(auto, unfolding(verdict_laws::specs::Facts::makes_table))]
fn makes_table(call: &Call, rd: u64, level: u8, ipa: u64) -> bool
    ensures { result ≡ laws.makes_table call.now rd level ipa }
{
    match call {
        Call::RttCreate {
            rd: other,
            ipa: at,
            level: its_level,
            ..
        } => rd == *other && u64::from(level) == *its_level && is_one_table(level, ipa, *at),
        _ => false,
    }
}

#[tactic(auto, unfolding(verdict_laws::specs::Facts::makes_wide))]
fn makes_wide(call: &Call, rd: u64, width: u64) -> bool
    ensures { result ≡ laws.makes_wide call.now rd width }
{
    match call {
        Call::RealmCreate {
            rd: other,
            width: its_width,
            ..
        } => rd == *other && width == *its_width,
        _ => false,
    }
}

#[tactic(auto, unfolding(verdict_laws::specs::Facts::makes_vmid))]
fn makes_vmid(call: &Call, rd: u64, vmid: u64) -> bool
    ensures { result ≡ laws.makes_vmid call.now rd vmid }
{
    match call {
        Call::RealmCreate {
            rd: other,
            vmid: its_vmid,
            ..
        } => rd == *other && vmid == *its_vmid,
        _ => false,
    }
}

/// Whether the call makes the owner of the granule.
#[tactic(auto, unfolding(verdict_laws::specs::Facts::takes_part))]
pub(crate) fn takes_part(call: &Call, granule: u64, owner: u64) -> bool
    ensures { result ≡ laws.takes_part call.now granule owner }
{
    match call {
        Call::RealmCreate { rd, root, .. } => owner == *rd && *root == granule,
        Call::RecCreate {
            rec,
            aux0,
            aux1,
            ..
        } => owner == *rec && (*aux0 == granule || *aux1 == granule),
        _ => false,
    }
}

/// Whether the call makes the table of the last level of an address which is protected in each realm.
fn begins_entry(call: &Call, rd: u64, ipa: u64) -> bool
    ensures { result ≡ (laws.makes_table call.now rd 3 ipa && nat_lt ipa (2 ^ 38)) }
{
    makes_table(call, rd, 3, ipa) && ipa < SMALLEST_HALF
}

/// Whether the call, carried out with that reply, makes the address RAM by an entry of the last level.
#[tactic(auto, unfolding(verdict_laws::specs::Facts::sets_ram))]
fn sets_ram(call: &Call, reply: ReplyRef<'_>, rd: u64, ipa: u64) -> bool
    ensures { result ≡ laws.sets_ram call.now (reply_seen reply.entry) rd ipa }
{
    match call {
        Call::RttInitRipas {
            rd: other,
            base,
            ..
        } => rd == *other && *base <= ipa && ends_past(*base, ipa, reply),
        _ => false,
    }
}

/// Whether the reply has an end past the address, and not as far from the base as whole tables of the last level.
#[tactic(auto, unfolding(rmm_spec::specs::Walk::table_size))]
pub(crate) fn ends_past(base: u64, ipa: u64, reply: ReplyRef<'_>) -> bool
    ensures { result ≡ laws.is_told_past base ipa (reply_seen reply.entry) }
{
    match reply {
        ReplyRef::Ok([top]) => ipa < *top && top.saturating_sub(base) % LAST_TABLE_BYTES != 0,
        _ => false,
    }
}

/// Whether the call gives the page to the address.
#[tactic(auto, unfolding(verdict_laws::specs::Facts::gives_entry))]
fn gives_entry(call: &Call, rd: u64, ipa: u64, page: u64) -> bool
    ensures { result ≡ laws.gives_entry call.now rd ipa page }
{
    match call {
        Call::DataCreate {
            rd: other,
            granule,
            ipa: at,
            ..
        }
        | Call::DataCreateUnknown {
            rd: other,
            granule,
            ipa: at,
        } => rd == *other && is_one_entry(ipa, *at) && page == *granule,
        _ => false,
    }
}

/// Whether the call takes the page at the address back.
#[tactic(auto, unfolding(verdict_laws::specs::Facts::frees_entry))]
pub(crate) fn frees_entry(call: &Call, rd: u64, ipa: u64) -> bool
    ensures { result ≡ laws.frees_entry call.now rd ipa }
{
    match call {
        Call::DataDestroy { rd: other, ipa: at } => rd == *other && is_one_entry(ipa, *at),
        _ => false,
    }
}

/// Whether the two addresses have one entry of the last level.
pub(crate) fn is_one_entry(ipa: u64, other: u64) -> bool
    ensures { result ≡ laws.is_one_entry ipa other }
{
    entry_number(3, ipa) == entry_number(3, other)
}

/// Whether the two addresses lie in one table of the level.
pub(crate) fn is_one_table(level: u8, ipa: u64, other: u64) -> bool
    ensures { result ≡ laws.is_one_table level ipa other }
{
    table_number(level, ipa) == table_number(level, other)
}
