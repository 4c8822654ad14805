//! What a command says by itself.

ghost use Rattle.std.specs.Prelude.{◌≡◌, ℕ, ◌∷◌, List, [], IsTrue, option_map};
ghost use Rattle.rmm_spec.specs.declared.tag.Tag.TheVariants as tag;
ghost use Rattle.rmm_spec.specs.Call.{call_from};
ghost use Rattle.rmm_spec.specs.Rows.{all_allowed};
ghost use Rattle.rmm_spec.specs.Step.Terms as spec;
ghost use Rattle.rmi_view.specs.Callers.{class_from};
ghost use Rattle.command_words.specs.Names.{names_of};
ghost use Rattle.command_words.specs.Ways.{way_seen};

use crate::name_list::{Name, Names};
use crate::names::{four, needed, none, one, three, two};
use crate::words::{are_apart, is_aligned, is_host_page, is_space, is_width};
use memory_map::is_page;
use rmi_view::{Caller, caller_of};
use rmm_spec::{Call, FunctionId, Tag};

/// Who gives a command, whether its words allow it, whatever the state, and which granules it names.
#[derive(Clone, Copy)]
pub struct Terms {
    pub caller: Caller,
    pub allowed: bool,
    pub names: Names,
}

// What a command's words say, whoever gives it.
#[derive(Clone, Copy)]
struct Said {
    allowed: bool,
    names: Names,
}

#[inline(always)]
fn by_host(allowed: bool, names: Names) -> Said
    ensures allowed { result.allowed ≡ allowed }
    ensures names { names_of result.names ≡ names_of names }
{
    Said { allowed, names }
}

// What names nothing: a realm's call, or Exit.
#[inline(always)]
fn of_words(allowed: bool) -> Said
    ensures allowed { result.allowed ≡ allowed }
    ensures names { names_of result.names ≡ [] }
{
    Said {
        allowed,
        names: none(),
    }
}

// A host's command that names its realm, and nothing else.
#[inline(always)]
fn on_realm(rd: u64, allowed: bool) -> Said
    ensures allowed { result.allowed ≡ allowed }
    ensures names { names_of result.names ≡ spec.needed rd tag.Rd ∷ [] }
{
    by_host(allowed, one(needed(rd, Tag::Rd)))
}

// Whether a command's words allow it, and what it names.
#[inline(always)]
#[tactic(auto, unfolding(rmm_spec::specs::Step::Terms::words_of, rmm_spec::specs::Step::Terms::named))]
fn said_of(call: &Call) -> Said
    ensures allowed { result.allowed ≡ all_allowed (spec.words_of call.now) }
    ensures names { names_of result.names ≡ spec.named call.now }
{
    match *call {
        Call::GranuleDelegate { granule } => by_host(true, one(needed(granule, Tag::Undelegated))),
        Call::GranuleUndelegate { granule } => by_host(true, one(needed(granule, Tag::Delegated))),
        Call::DataCreate {
            rd,
            granule,
            ipa,
            source,
            flags,
            ..
        } => by_host(
            flags <= 1 && is_page(ipa),
            three(
                needed(rd, Tag::Rd),
                needed(granule, Tag::Delegated),
                needed(source, Tag::Undelegated),
            ),
        ),
        Call::DataCreateUnknown { rd, granule, ipa } => by_host(
            is_page(ipa),
            two(needed(rd, Tag::Rd), needed(granule, Tag::Delegated)),
        ),
        Call::DataDestroy { rd, ipa } => on_realm(rd, is_page(ipa)),
        Call::RealmActivate { rd } => on_realm(rd, true),
        Call::RealmCreate {
            rd,
            root,
            width,
            level,
            vmid,
            ..
        } => by_host(
            rd != root && is_width(width) && is_space(width, level) && vmid <= 0xff,
            two(needed(rd, Tag::Delegated), needed(root, Tag::Delegated)),
        ),
        Call::RealmDestroy { rd } => on_realm(rd, true),
        Call::RecCreate {
            rd,
            rec,
            flags,
            aux0,
            aux1,
            ..
        } => by_host(
            are_apart(rec, aux0, aux1) && flags <= 1,
            four(
                needed(rd, Tag::Rd),
                needed(rec, Tag::Delegated),
                needed(aux0, Tag::Delegated),
                needed(aux1, Tag::Delegated),
            ),
        ),
        Call::RecDestroy { rec } | Call::RecEnter { rec } => by_host(
            true,
            one(needed(rec, Tag::Rec)),
        ),
        Call::RttCreate {
            rd,
            rtt,
            ipa,
            level,
        } => by_host(
            level <= 3 && is_aligned(ipa, (level as u8).saturating_sub(1)),
            two(needed(rd, Tag::Rd), needed(rtt, Tag::Delegated)),
        ),
        Call::RttRemove { rd, ipa, level, .. } => on_realm(
            rd,
            level <= 3 && is_aligned(ipa, (level as u8).saturating_sub(1)),
        ),
        Call::RttMapUnprotected { rd, ipa, page } => on_realm(
            rd,
            is_page(ipa) && is_host_page(page),
        ),
        Call::RttReadEntry { rd, ipa, level } => on_realm(
            rd,
            level <= 3 && is_aligned(ipa, level as u8),
        ),
        Call::RttUnmapUnprotected { rd, ipa } => on_realm(rd, is_page(ipa)),
        Call::RttInitRipas { rd, base, top } => on_realm(
            rd,
            is_page(base) && is_page(top) && base < top,
        ),
        Call::RttSetRipas { rd, rec, .. } => by_host(
            true,
            two(needed(rd, Tag::Rd), needed(rec, Tag::Rec)),
        ),
        Call::MeasurementRead { index } => of_words(index <= 4),
        Call::MeasurementExtend { index, size, .. } => of_words(
            1 <= index && index <= 4 && 1 <= size && size <= 0x40,
        ),
        Call::IpaStateSet { base, top, ripas } => of_words(
            is_page(base) && is_page(top) && base < top && ripas <= 1,
        ),
        Call::IpaStateGet { ipa } => of_words(is_page(ipa)),
        Call::HostCall { imm } => of_words(imm < 0x10000),
        Call::RealmConfig | Call::CpuOff | Call::SystemOff | Call::Exit => of_words(true),
    }
}

/// What a command says.
#[inline(always)]
pub fn terms_of(call: &Call) -> Terms
    ensures caller { class_from result.caller ≡ spec.class_of call.now }
    ensures allowed { result.allowed ≡ all_allowed (spec.words_of call.now) }
    ensures names { names_of result.names ≡ spec.named call.now }
{
    let Said { allowed, names } = said_of(call);
    Terms {
        caller: caller_of(call),
        allowed,
        names,
    }
}

/// Who gives a function's commands, whatever their words.
pub fn caller_for(function: FunctionId) -> Caller
    ensures { (words : List ℕ) → class_from result ≡ spec.class_of (call_from function words) }
{
    caller_of(&Call::of(function, &[]))
}

/// Whether a command's words allow it, whatever the state.
pub fn words_allow(call: &Call) -> bool
    ensures { result ≡ all_allowed (spec.words_of call.now) }
{
    said_of(call).allowed
}

/// What a command names outside of RECs. A realm call names nothing.
pub fn named(call: &Call) -> Names
    ensures { names_of result ≡ spec.named call.now }
{
    said_of(call).names
}

/// A walk in the tables of a realm, for an address, down to a level.
#[derive(Clone, Copy)]
pub struct Way {
    pub rd: u64,
    pub ipa: u64,
    pub max: u8,
}

/// Where a host's command walks, if it does. Its words are allowed, so the level is one that tables have.
#[tactic(auto, unfolding(rmm_spec::specs::Step::Terms::way_of, rmm_spec::specs::Step::Terms::words_of))]
pub fn way_of(call: &Call) -> Option<Way>
    requires { IsTrue (all_allowed (spec.words_of call.now)) }
    ensures { option_map way_seen result ≡ spec.way_of call.now }
{
    match *call {
        Call::RttCreate { rd, ipa, level, .. } | Call::RttRemove { rd, ipa, level, .. } => Some(
            Way {
                rd,
                ipa,
                max: (level as u8).saturating_sub(1),
            },
        ),
        Call::RttReadEntry { rd, ipa, level } => Some(Way {
            rd,
            ipa,
            max: level as u8,
        }),
        Call::DataCreate { rd, ipa, .. }
        | Call::DataCreateUnknown { rd, ipa, .. }
        | Call::DataDestroy { rd, ipa }
        | Call::RttMapUnprotected { rd, ipa, .. }
        | Call::RttUnmapUnprotected { rd, ipa }
        | Call::RttInitRipas { rd, base: ipa, .. }
        | Call::RttSetRipas { rd, base: ipa, .. } => Some(Way { rd, ipa, max: 3 }),
        _ => None,
    }
}
