//! The commands that make a granule a page of a realm's protected memory, and take it back.

ghost use Rattle.std.specs.Prelude.{◌≡◌, Some, None};
ghost use Rattle.rmm_spec.specs.declared.change.Change.TheVariants.{EntriesChanged};
ghost use Rattle.rmm_spec.specs.declared.change.RealmUpdate.TheVariants.{PageMeasured};
ghost use Rattle.rmm_spec.specs.declared.entry.Entry.TheVariants.{Assigned};
ghost use Rattle.rmm_spec.specs.declared.tag.Ripas.TheVariants.{Ram};
ghost use Rattle.rmm_spec.specs.declared.tag.Tag.TheVariants as tag;
ghost use Rattle.rmm_spec.specs.Step.Data as spec;

use crate::reply::{done, done_with};
use crate::sight::Sight;
use command_words::is_page;
use memory_map::{entry_address, entry_number, entry_ripas, is_assigned, is_ram, is_unassigned};
use rmm_spec::{
    Accepted, Change, Condition, Entry, EntryChange, RealmChange, RealmUpdate, Refusal, Ripas, Tag,
    TagChange,
};

/// The words of DATA_CREATE. The digest is that of the page's content.
#[derive(Clone, Copy)]
pub(crate) struct DataCreate {
    pub(crate) rd: u64,
    pub(crate) granule: u64,
    pub(crate) ipa: u64,
    pub(crate) source: u64,
    pub(crate) flags: u64,
    pub(crate) digest: [u64; 4],
}

#[tactic(auto, unfolding(rmm_spec::specs::Step::Data::data_create, rmm_spec::specs::Step::Terms::words_of, rmm_spec::specs::Step::Terms::named, rmm_spec::specs::Lookup::realm_at))]
#[inline(never)]
pub(crate) fn data_create<S: Sight>(sight: &S, call: DataCreate) -> Result<Accepted, Refusal>
    ensures { result ≡ spec.data_create (S.state sight.now) call.rd call.granule call.ipa call.source call.flags call.digest }
{
    if call.flags > 1 {
        return Err(Refusal::Input(Condition::OwnFlags));
    }
    if !is_page(call.ipa) {
        return Err(Refusal::Input(Condition::IpaAlign));
    }
    let Some(realm) = sight.realm(call.rd) else {
        return Err(Refusal::Input(Condition::GranState));
    };
    if !sight.has_tag(call.granule, Tag::Delegated) {
        return Err(Refusal::Input(Condition::GranState));
    }
    if !sight.has_tag(call.source, Tag::Undelegated) {
        return Err(Refusal::Input(Condition::GranState));
    }
    if call.ipa >= realm.protected_end() {
        return Err(Refusal::Input(Condition::IpaBound));
    }
    if !realm.is_new() {
        return Err(Refusal::Realm(Condition::RealmState, 0));
    }
    let end = sight.walk(call.rd, call.ipa, 3);
    if end.level != 3 {
        return Err(Refusal::Rtt(Condition::RttWalk, end.level));
    }
    if !is_unassigned(end.entry) {
        return Err(Refusal::Rtt(Condition::RtteState, 3));
    }
    if !is_ram(entry_ripas(end.entry)) {
        return Err(Refusal::Rtt(Condition::RtteRipas, 3));
    }
    Ok(done(page_measured(call)))
}

// A page is entered with its content, which the realm's measurement takes in.
#[inline(always)]
fn page_measured(call: DataCreate) -> Change
    ensures { result ≡ EntriesChanged call.rd 3 (spec.page_entry call.ipa (Assigned Ram call.granule))
        (Some (record { granule = call.granule; tag = tag.Data }))
        (Some (record { rd = call.rd; update = PageMeasured call.ipa call.flags call.digest })) None }
{
    let (ipa, flags, digest) = (call.ipa, call.flags, call.digest);
    let update = RealmUpdate::PageMeasured { ipa, flags, digest };
    Change::EntriesChanged {
        rd: call.rd,
        level: 3,
        entries: page_entry(ipa, Entry::Assigned(Ripas::Ram, call.granule)),
        page: Some(TagChange {
            granule: call.granule,
            tag: Tag::Data,
        }),
        realm: Some(RealmChange {
            rd: call.rd,
            update,
        }),
        rec: None,
    }
}

#[tactic(auto, unfolding(rmm_spec::specs::Step::Data::data_create_unknown, rmm_spec::specs::Step::Terms::words_of, rmm_spec::specs::Step::Terms::named, rmm_spec::specs::Lookup::realm_at))]
#[inline(never)]
pub(crate) fn data_create_unknown<S: Sight>(
    sight: &S,
    rd: u64,
    granule: u64,
    ipa: u64,
) -> Result<Accepted, Refusal>
    ensures { result ≡ spec.data_create_unknown (S.state sight.now) rd granule ipa }
{
    if !is_page(ipa) {
        return Err(Refusal::Input(Condition::IpaAlign));
    }
    let Some(realm) = sight.realm(rd) else {
        return Err(Refusal::Input(Condition::GranState));
    };
    if !sight.has_tag(granule, Tag::Delegated) {
        return Err(Refusal::Input(Condition::GranState));
    }
    if ipa >= realm.protected_end() {
        return Err(Refusal::Input(Condition::IpaBound));
    }
    let end = sight.walk(rd, ipa, 3);
    if end.level != 3 {
        return Err(Refusal::Rtt(Condition::RttWalk, end.level));
    }
    if !is_unassigned(end.entry) {
        return Err(Refusal::Rtt(Condition::RtteState, 3));
    }
    Ok(done(Change::EntriesChanged {
        rd,
        level: 3,
        entries: page_entry(ipa, Entry::Assigned(entry_ripas(end.entry), granule)),
        page: Some(TagChange {
            granule,
            tag: Tag::Data,
        }),
        realm: None,
        rec: None,
    }))
}

#[tactic(auto, unfolding(rmm_spec::specs::Step::Data::data_destroy, rmm_spec::specs::Step::Terms::words_of, rmm_spec::specs::Step::Terms::named, rmm_spec::specs::Lookup::realm_at))]
#[inline(never)]
pub(crate) fn data_destroy<S: Sight>(sight: &S, rd: u64, ipa: u64) -> Result<Accepted, Refusal>
    ensures { result ≡ spec.data_destroy (S.state sight.now) rd ipa }
{
    if !is_page(ipa) {
        return Err(Refusal::Input(Condition::IpaAlign));
    }
    let Some(realm) = sight.realm(rd) else {
        return Err(Refusal::Input(Condition::GranState));
    };
    if ipa >= realm.protected_end() {
        return Err(Refusal::Input(Condition::IpaBound));
    }
    let end = sight.walk(rd, ipa, 3);
    if end.level != 3 {
        return Err(Refusal::Rtt(Condition::RttWalk, end.level));
    }
    if !is_assigned(end.entry) {
        return Err(Refusal::Rtt(Condition::RtteState, 3));
    }
    let granule = entry_address(end.entry);
    let ripas = ripas_after_data(entry_ripas(end.entry));
    Ok(done_with(
        granule,
        Change::EntriesChanged {
            rd,
            level: 3,
            entries: page_entry(ipa, Entry::Unassigned(ripas)),
            page: Some(TagChange {
                granule,
                tag: Tag::Delegated,
            }),
            realm: None,
            rec: None,
        },
    ))
}

// The entry of a page is replaced.
fn page_entry(ipa: u64, entry: Entry) -> EntryChange
    ensures { result ≡ spec.page_entry ipa entry }
{
    let number = entry_number(3, ipa);
    EntryChange::Replaced { number, entry }
}

// The RIPAS of a page that was taken back: what was memory is lost.
fn ripas_after_data(ripas: Ripas) -> Ripas
    ensures { result ≡ spec.ripas_after_data ripas }
{
    match ripas {
        Ripas::Ram | Ripas::Destroyed => Ripas::Destroyed,
        Ripas::Empty => Ripas::Empty,
    }
}
