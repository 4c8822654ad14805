//! What facts give together to a call that is refused with ERROR_INPUT: tags, VMIDs and halves of address spaces.

ghost use Rattle.std.specs.Prelude.{◌≡◌, ◌-◌, ◌^◌, ◌<◌, true, IsTrue};
ghost use Rattle.std.specs.List.{list_all, list_any};
ghost use Rattle.verdict_laws.specs.Denying as laws;

use command_words::{Name, is_tag};
use memory_map::{Config, granule_at};
use rmm_spec::{Call, Tag};
use verdict_laws::Fact;

/// Whether these are granules, and the facts say that each has the tag which a call needs.
pub(crate) fn give_tags(config: &Config, facts: &[Fact], names: &[Name]) -> bool
    ensures { result ≡ list_all (laws.give_tag config.now.granules facts.now) names.now }
{
    names.iter().all(|name| give_tag(config, facts, name))
}

/// Whether it is a granule, and one of the facts says so of it.
fn give_tag(config: &Config, facts: &[Fact], name: &Name) -> bool
    ensures { result ≡ laws.give_tag config.now.granules facts.now name.now }
{
    granule_at(config, name.granule).is_some() && have_tag(facts, name)
}

/// Whether one of the facts says that the granule has the tag which a call needs.
fn have_tag(facts: &[Fact], name: &Name) -> bool
    ensures { result ≡ list_any (laws.gives_tag facts.now name.now) facts.now }
{
    facts.iter().any(|fact| gives_tag(facts, name, *fact))
}

/// Whether the fact says so, by itself or of a part whose owner isn't there.
fn gives_tag(facts: &[Fact], name: &Name, fact: Fact) -> bool
    ensures { result ≡ laws.gives_tag facts.now name.now fact }
{
    match fact {
        Fact::Tagged { granule, tag } => name.granule == granule && is_tag(name.tag, tag),
        Fact::Wide { rd, .. } => name.granule == rd && is_tag(name.tag, Tag::Rd),
        Fact::PartOf { granule, owner } => {
            name.granule == granule
                && is_tag(name.tag, Tag::Delegated)
                && give_no_owner(facts, owner)
        }
        Fact::Idle { rec }
        | Fact::RunsOn { rec, .. }
        | Fact::AsksFrom { rec, .. }
        | Fact::RunsOrAsksWithin { rec, .. } => name.granule == rec && is_tag(name.tag, Tag::Rec),
        _ => false,
    }
}

/// Whether one of the facts says that neither a realm nor a REC is at the address.
fn give_no_owner(facts: &[Fact], owner: u64) -> bool
    ensures { result ≡ list_any (laws.gives_no_owner owner) facts.now }
{
    facts.iter().any(|fact| gives_no_owner(owner, *fact))
}

fn gives_no_owner(owner: u64, fact: Fact) -> bool
    ensures { result ≡ laws.gives_no_owner owner fact }
{
    match fact {
        Fact::Tagged { granule, tag } => {
            owner == granule && !is_tag(tag, Tag::Rd) && !is_tag(tag, Tag::Rec)
        }
        _ => false,
    }
}

/// Whether no row after those on words and tags refuses the call with ERROR_INPUT where the facts hold.
#[tactic(auto, unfolding(verdict_laws::specs::Denying::are_within))]
pub(crate) fn are_within(facts: &[Fact], call: &Call) -> bool
    ensures { IsTrue result → laws.are_within facts.now call.now ≡ true }
{
    match call {
        Call::GranuleDelegate { .. }
        | Call::GranuleUndelegate { .. }
        | Call::RealmActivate { .. }
        | Call::RealmDestroy { .. }
        | Call::RecDestroy { .. }
        | Call::RecEnter { .. } => true,
        Call::RealmCreate { vmid, algo, .. } => *algo == 0 && give_vmid(facts, *vmid),
        Call::DataCreate { rd, ipa, .. } | Call::DataCreateUnknown { rd, ipa, .. } => {
            give_half(facts, *rd, *ipa)
        }
        Call::RttCreate { rd, ipa, level, .. } | Call::RttRemove { rd, ipa, level, .. } => {
            *level >= 2 && give_half(facts, *rd, *ipa)
        }
        Call::RttReadEntry { rd, ipa, level } => *level >= 1 && give_half(facts, *rd, *ipa),
        _ => false,
    }
}

/// Whether the facts say that no realm has the VMID.
fn give_vmid(facts: &[Fact], vmid: u64) -> bool
    ensures { result ≡ laws.give_vmid facts.now vmid }
{
    facts.iter().any(|fact| gives_vmid(facts, vmid, *fact))
}

/// Whether the fact says that no realm has it but one that isn't there, as one of the facts says.
fn gives_vmid(facts: &[Fact], vmid: u64, fact: Fact) -> bool
    ensures { result ≡ laws.gives_vmid facts.now vmid fact }
{
    match fact {
        Fact::SoleVmid { rd, vmid: its_vmid } => vmid == its_vmid && give_none(facts, rd),
        _ => false,
    }
}

/// Whether one of the facts says that no realm is at the address.
fn give_none(facts: &[Fact], rd: u64) -> bool
    ensures { result ≡ list_any (laws.gives_none rd) facts.now }
{
    facts.iter().any(|fact| gives_none(rd, *fact))
}

fn gives_none(rd: u64, fact: Fact) -> bool
    ensures { result ≡ laws.gives_none rd fact }
{
    match fact {
        Fact::Tagged { granule, tag } => rd == granule && !is_tag(tag, Tag::Rd),
        _ => false,
    }
}

/// Whether one of the facts says that the address lies in the realm's protected half.
fn give_half(facts: &[Fact], rd: u64, ipa: u64) -> bool
    ensures { IsTrue result → laws.give_half facts.now rd ipa ≡ true }
{
    for fact in facts {
        if gives_half(*fact, rd, ipa) {
            return true;
        }
    }
    false
}

fn gives_half(fact: Fact, rd: u64, ipa: u64) -> bool
    ensures { IsTrue result → laws.gives_half rd ipa fact ≡ true }
{
    match fact {
        Fact::Wide { rd: other, width } => rd == other && is_in_half(width, ipa),
        _ => false,
    }
}

/// Whether the address lies in the lower half of those with so many bits.
fn is_in_half(width: u64, ipa: u64) -> bool
    ensures { IsTrue result → ipa < 2 ^ (width - 1) }
{
    0 < width && width <= 64 && ipa < 1u64 << (width - 1)
}
