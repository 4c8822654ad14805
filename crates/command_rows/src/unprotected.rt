//! The commands that map the host's pages into the unprotected half of a realm's address space, and unmap them.

ghost use Rattle.std.specs.Prelude.{◌≡◌, None};
ghost use Rattle.rmm_spec.specs.declared.change.Change.TheVariants as change;
ghost use Rattle.rmm_spec.specs.declared.change.EntryChange.TheVariants.{Replaced};
ghost use Rattle.rmm_spec.specs.Walk.{entry_number};
ghost use Rattle.rmm_spec.specs.Step.Unprotected as spec;

use crate::reply::done;
use crate::sight::Sight;
use command_words::{is_host_page, is_page};
use memory_map::{entry_number, is_assigned_ns, is_unassigned_ns};
use realm_desc::Realm;
use rmm_spec::{Accepted, Change, Condition, Entry, EntryChange, Refusal};

#[tactic(auto, unfolding(rmm_spec::specs::Step::Unprotected::rtt_map_unprotected, rmm_spec::specs::Step::Terms::words_of, rmm_spec::specs::Step::Terms::named, rmm_spec::specs::Lookup::realm_at))]
#[inline(never)]
pub(crate) fn rtt_map_unprotected<S: Sight>(
    sight: &S,
    rd: u64,
    ipa: u64,
    page: u64,
) -> Result<Accepted, Refusal>
    ensures { result ≡ spec.rtt_map_unprotected (S.state sight.now) rd ipa page }
{
    if !is_page(ipa) {
        return Err(Refusal::Input(Condition::IpaAlign));
    }
    if !is_host_page(page) {
        return Err(Refusal::Input(Condition::OwnPage));
    }
    let Some(realm) = sight.realm(rd) else {
        return Err(Refusal::Input(Condition::GranState));
    };
    if !is_upper(&realm, ipa) {
        return Err(Refusal::Input(Condition::IpaBound));
    }
    let end = sight.walk(rd, ipa, 3);
    if end.level != 3 {
        return Err(Refusal::Rtt(Condition::RttWalk, end.level));
    }
    if !is_unassigned_ns(end.entry) {
        return Err(Refusal::Rtt(Condition::RtteState, 3));
    }
    Ok(done(host_entry(rd, ipa, Entry::AssignedNs(page))))
}

#[tactic(auto, unfolding(rmm_spec::specs::Step::Unprotected::rtt_unmap_unprotected, rmm_spec::specs::Step::Terms::words_of, rmm_spec::specs::Step::Terms::named, rmm_spec::specs::Lookup::realm_at))]
#[inline(never)]
pub(crate) fn rtt_unmap_unprotected<S: Sight>(
    sight: &S,
    rd: u64,
    ipa: u64,
) -> Result<Accepted, Refusal>
    ensures { result ≡ spec.rtt_unmap_unprotected (S.state sight.now) rd ipa }
{
    if !is_page(ipa) {
        return Err(Refusal::Input(Condition::IpaAlign));
    }
    let Some(realm) = sight.realm(rd) else {
        return Err(Refusal::Input(Condition::GranState));
    };
    if !is_upper(&realm, ipa) {
        return Err(Refusal::Input(Condition::IpaBound));
    }
    let end = sight.walk(rd, ipa, 3);
    if end.level != 3 {
        return Err(Refusal::Rtt(Condition::RttWalk, end.level));
    }
    if !is_assigned_ns(end.entry) {
        return Err(Refusal::Rtt(Condition::RtteState, 3));
    }
    Ok(done(host_entry(rd, ipa, Entry::UnassignedNs)))
}

// Whether an address lies in the upper half of the realm's address space.
fn is_upper(realm: &Realm, ipa: u64) -> bool
    ensures { result ≡ spec.is_upper realm.now ipa }
{
    realm.protected_end() <= ipa && ipa < realm.space_end()
}

// An entry of the host's half is replaced, and nothing goes with it.
fn host_entry(rd: u64, ipa: u64, entry: Entry) -> Change
    ensures { result ≡ change.EntriesChanged rd 3 (Replaced (entry_number 3 ipa) entry) None None None }
{
    let number = entry_number(3, ipa);
    Change::EntriesChanged {
        rd,
        level: 3,
        entries: EntryChange::Replaced { number, entry },
        page: None,
        realm: None,
        rec: None,
    }
}
