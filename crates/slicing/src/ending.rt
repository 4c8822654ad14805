//! Which calls may end facts.

ghost use Rattle.std.specs.Prelude.{◌≡◌, ◌==◌, ℕ, false, if◌then◌else◌, IsTrue};
ghost use Rattle.rmm_spec.specs.declared.reply.Reply.{Reply};
ghost use Rattle.slicing.specs.Facts.{Keeps};
ghost use Rattle.verdict_laws.specs.Separate.{is_freed};
ghost use Rattle.verdict_laws.specs.Facts as laws;
ghost use Rattle.verdict_laws.specs.Slices as slices;
ghost use Rattle.verdict_laws.specs.declared.facts.Fact.TheVariants.{Tagged};

use crate::kinds::changeable;
use crate::making::{creates_page, creates_unknown, frees_entry, is_one_entry, is_one_table};
use crate::making_recs::{enters, is_within};
use command_words::{Name, is_tag};
use memory_map::entry_number;
use rmm_spec::{Call, Tag};
use verdict_laws::Fact;

/// Whether the call doesn't end the fact, whichever CPU makes it and whatever it is replied.
pub(crate) fn keeps(fact: Fact, call: &Call) -> bool
    ensures { IsTrue result → Keeps fact call.now }
{
    match fact {
        Fact::NewRealm { rd } => !may_activate(call, rd),
        Fact::Tagged { granule, tag } => keeps_tag(call, granule, tag),
        Fact::Covered { rd, level, ipa } => !may_uncover(call, rd, level, ipa),
        Fact::Wide { rd, .. } => !may_narrow(call, rd),
        Fact::SoleVmid { rd, vmid } => !may_share(call, rd, vmid),
        Fact::PartOf { granule, .. } => !may_take(call, granule, Tag::Delegated),
        Fact::Unassigned { rd, ipa } => !may_assign(call, rd, ipa),
        Fact::UnassignedRam { rd, ipa } => {
            !may_assign(call, rd, ipa)
                && !frees_entry(call, rd, ipa)
                && !may_set_ripas(call, rd, ipa)
        }
        Fact::Assigned { rd, ipa, .. } => {
            !may_reshape(call, rd, ipa) && !frees_entry(call, rd, ipa)
        }
        Fact::HasRipas { rd, ipa, ripas } => {
            !may_reshape(call, rd, ipa)
                && !may_change(call, rd, ipa, ripas)
                && !may_set_ripas(call, rd, ipa)
                && !may_init(call, rd)
        }
        Fact::Activated { rd } => !may_narrow(call, rd),
        Fact::OwnedBy { rec, .. } => !destroys(call, rec),
        Fact::Runnable { rec } => !destroys(call, rec) && !turns_off(call),
        Fact::RunsOn { .. } => !exits(call),
        Fact::AsksFrom { rec, base } => {
            !destroys(call, rec) && !enters(call, rec) && !sets_from(call, rec, base)
        }
        Fact::RunsOrAsksWithin { rec, least, most } => {
            !destroys(call, rec) && !exits(call) && !sets_past(call, rec, least, most)
        }
        Fact::Idle { rec } => !destroys(call, rec) && !enters(call, rec),
        Fact::RunsOrAsksTo { rec, .. } => !destroys(call, rec) && !exits(call),
    }
}

#[tactic(auto, unfolding(verdict_laws::specs::Facts::exits))]
fn exits(call: &Call) -> bool
    ensures { result ≡ laws.exits call.now }
{
    matches!(call, Call::Exit)
}

#[tactic(auto, unfolding(verdict_laws::specs::Facts::sets_from))]
fn sets_from(call: &Call, rec: u64, base: u64) -> bool
    ensures { result ≡ laws.sets_from call.now rec base }
{
    match call {
        Call::RttSetRipas {
            rec: other,
            base: from,
            ..
        } => rec == *other && base == *from,
        _ => false,
    }
}

/// Whether the call sets a part of what the REC asks for, from one of these addresses on, and may go past them.
#[tactic(auto, unfolding(verdict_laws::specs::Facts::sets_past))]
fn sets_past(call: &Call, rec: u64, least: u64, most: u64) -> bool
    ensures { result ≡ laws.sets_past call.now rec least most }
{
    match call {
        Call::RttSetRipas {
            rec: other,
            base,
            top,
            ..
        } => rec == *other && is_within(least, most, *base) && *top > most,
        _ => false,
    }
}

#[tactic(auto, unfolding(verdict_laws::specs::Facts::turns_off))]
fn turns_off(call: &Call) -> bool
    ensures { result ≡ laws.turns_off call.now }
{
    matches!(call, Call::CpuOff)
}

#[tactic(auto, unfolding(verdict_laws::specs::Facts::may_activate))]
fn may_activate(call: &Call, rd: u64) -> bool
    ensures { result ≡ laws.may_activate call.now rd }
{
    match call {
        Call::RealmActivate { rd: other } => rd == *other,
        Call::SystemOff => true,
        _ => false,
    }
}

#[tactic(auto, unfolding(verdict_laws::specs::Facts::may_uncover))]
fn may_uncover(call: &Call, rd: u64, level: u8, ipa: u64) -> bool
    ensures { result ≡ laws.may_uncover call.now rd level ipa }
{
    match call {
        Call::RttRemove {
            rd: other,
            ipa: at,
            level: its_level,
            ..
        } => rd == *other && u64::from(level) == *its_level && is_one_table(level, ipa, *at),
        Call::RealmDestroy { rd: other } => rd == *other,
        _ => false,
    }
}

#[tactic(auto, unfolding(verdict_laws::specs::Facts::may_narrow))]
fn may_narrow(call: &Call, rd: u64) -> bool
    ensures { result ≡ laws.may_narrow call.now rd }
{
    match call {
        Call::RealmCreate { rd: other, .. } | Call::RealmDestroy { rd: other } => rd == *other,
        _ => false,
    }
}

#[tactic(auto, unfolding(verdict_laws::specs::Facts::may_share))]
fn may_share(call: &Call, rd: u64, vmid: u64) -> bool
    ensures { result ≡ laws.may_share call.now rd vmid }
{
    match call {
        Call::RealmCreate {
            rd: other,
            vmid: its_vmid,
            ..
        } => vmid == *its_vmid && rd != *other,
        _ => false,
    }
}

#[tactic(auto, unfolding(verdict_laws::specs::Facts::may_reshape))]
pub(crate) fn may_reshape(call: &Call, rd: u64, ipa: u64) -> bool
    ensures { result ≡ laws.may_reshape call.now rd ipa }
{
    match call {
        Call::RttMapUnprotected {
            rd: other,
            ipa: at,
            ..
        }
        | Call::RttUnmapUnprotected { rd: other, ipa: at } => rd == *other
            && is_one_entry(ipa, *at),
        Call::RttCreate {
            rd: other,
            ipa: at,
            level,
            ..
        }
        | Call::RttRemove {
            rd: other,
            ipa: at,
            level,
            ..
        } => rd == *other && *level == 3 && is_one_table(3, ipa, *at),
        Call::RealmDestroy { rd: other } => rd == *other,
        _ => false,
    }
}

/// Whether the call may put another entry in place of the address's, but for one whose page it takes back.
fn may_assign(call: &Call, rd: u64, ipa: u64) -> bool
    ensures { result ≡ laws.may_assign call.now rd ipa }
{
    may_reshape(call, rd, ipa) || creates_page(call, rd, ipa) || creates_unknown(call, rd, ipa)
}

/// Whether the call may change the RIPAS, by its number, as a page comes or goes.
fn may_change(call: &Call, rd: u64, ipa: u64, ripas: u64) -> bool
    ensures { result ≡ (if ripas == 1 then laws.frees_entry call.now rd ipa else laws.creates_page call.now rd ipa) }
{
    if ripas == 1 {
        frees_entry(call, rd, ipa)
    } else {
        creates_page(call, rd, ipa)
    }
}

#[tactic(auto, unfolding(verdict_laws::specs::Facts::may_set_ripas))]
fn may_set_ripas(call: &Call, rd: u64, ipa: u64) -> bool
    ensures { result ≡ laws.may_set_ripas call.now rd ipa }
{
    match call {
        Call::RttSetRipas {
            rd: other,
            base,
            top,
            ..
        } => rd == *other && entry_number(3, *base) <= entry_number(3, ipa) && ipa < *top,
        _ => false,
    }
}

#[tactic(auto, unfolding(verdict_laws::specs::Facts::may_init))]
fn may_init(call: &Call, rd: u64) -> bool
    ensures { result ≡ laws.may_init call.now rd }
{
    match call {
        Call::RttInitRipas { rd: other, .. } => rd == *other,
        _ => false,
    }
}

/// Whether the granule keeps the tag, whatever the call is replied.
fn keeps_tag(call: &Call, granule: u64, tag: Tag) -> bool
    ensures { IsTrue result → Keeps (Tagged granule tag) call.now }
{
    match tag {
        Tag::Undelegated | Tag::Delegated => !may_take(call, granule, tag),
        Tag::Rd | Tag::Rec => !destroys(call, granule),
        Tag::Data => !frees_some(call),
        Tag::RecAux | Tag::Rtt => false,
    }
}

/// Whether the call may give back a granule that it doesn't name.
pub(crate) fn frees_some(call: &Call) -> bool
    ensures { result ≡ false → (given : Reply) (granule : ℕ) → is_freed call.now given granule ≡ false }
{
    matches!(call, Call::DataDestroy { .. } | Call::RttRemove { .. })
}

/// Whether the call may take the tag off the granule, which it names.
fn may_take(call: &Call, granule: u64, tag: Tag) -> bool
    ensures { result ≡ laws.needs (slices.changeable call.now) granule tag }
{
    needs(changeable(call).as_slice(), granule, tag)
}

/// Whether one of these needs the tag of the granule.
fn needs(names: &[Name], granule: u64, tag: Tag) -> bool
    ensures { result ≡ laws.needs (names.now) granule tag }
{
    names
        .iter()
        .any(|name| name.granule == granule && is_tag(name.tag, tag))
}

#[tactic(auto, unfolding(verdict_laws::specs::Facts::destroys))]
fn destroys(call: &Call, granule: u64) -> bool
    ensures { result ≡ laws.destroys call.now granule }
{
    match call {
        Call::RealmDestroy { rd } => *rd == granule,
        Call::RecDestroy { rec } => *rec == granule,
        _ => false,
    }
}
