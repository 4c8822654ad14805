//! The commands that put tables in, take them out and read their entries.

ghost use Rattle.std.specs.Prelude.{◌≡◌, ◌<◌, ◌^◌};
ghost use Rattle.rmm_spec.specs.Step.Table as spec;

use crate::reply::{done, done_with, told};
use crate::sight::Sight;
use command_words::is_aligned;
use memory_map::{entry_address, entry_ripas, entry_state, is_table, ripas_number, table_number};
use realm_desc::Realm;
use rmm_spec::{Accepted, Change, Condition, Entry, EntryTest, Refusal, Removal, Ripas, Tag};

#[tactic(auto, unfolding(rmm_spec::specs::Step::Table::rtt_create, rmm_spec::specs::Step::Terms::words_of, rmm_spec::specs::Step::Terms::named, rmm_spec::specs::Lookup::realm_at))]
#[inline(never)]
pub(crate) fn rtt_create<S: Sight>(
    sight: &S,
    rd: u64,
    rtt: u64,
    ipa: u64,
    level: u64,
) -> Result<Accepted, Refusal>
    ensures { result ≡ spec.rtt_create (S.state sight.now) rd rtt ipa level }
{
    if level > 3 {
        return Err(Refusal::Input(Condition::LevelBound));
    }
    let level = level as u8;
    let above = level.saturating_sub(1);
    if !is_aligned(ipa, above) {
        return Err(Refusal::Input(Condition::IpaAlign));
    }
    let Some(realm) = sight.realm(rd) else {
        return Err(Refusal::Input(Condition::GranState));
    };
    if !sight.has_tag(rtt, Tag::Delegated) {
        return Err(Refusal::Input(Condition::GranState));
    }
    if realm.start_level() >= level {
        return Err(Refusal::Input(Condition::LevelBound));
    }
    if ipa >= realm.space_end() {
        return Err(Refusal::Input(Condition::IpaBound));
    }
    let end = sight.walk(rd, ipa, above);
    if end.level != above {
        return Err(Refusal::Rtt(Condition::RttWalk, end.level));
    }
    if is_table(end.entry) {
        return Err(Refusal::Rtt(Condition::RtteState, above));
    }
    let number = table_number(level, ipa);
    Ok(done(Change::TableMade {
        rd,
        level,
        number,
        rtt,
        entry: end.entry,
    }))
}

#[tactic(auto, unfolding(rmm_spec::specs::Step::Table::rtt_remove, rmm_spec::specs::Step::Terms::words_of, rmm_spec::specs::Step::Terms::named, rmm_spec::specs::Lookup::realm_at))]
#[inline(never)]
pub(crate) fn rtt_remove<S: Sight>(
    sight: &S,
    removal: Removal,
    rd: u64,
    ipa: u64,
    level: u64,
) -> Result<Accepted, Refusal>
    ensures { result ≡ spec.rtt_remove (S.state sight.now) removal rd ipa level }
{
    if level > 3 {
        return Err(Refusal::Input(Condition::LevelBound));
    }
    let level = level as u8;
    let above = level.saturating_sub(1);
    if !is_aligned(ipa, above) {
        return Err(Refusal::Input(Condition::IpaAlign));
    }
    let Some(realm) = sight.realm(rd) else {
        return Err(Refusal::Input(Condition::GranState));
    };
    if realm.start_level() >= level {
        return Err(Refusal::Input(Condition::LevelBound));
    }
    if ipa >= realm.space_end() {
        return Err(Refusal::Input(Condition::IpaBound));
    }
    let end = sight.walk(rd, ipa, above);
    if end.level != above {
        return Err(Refusal::Rtt(Condition::RttWalk, end.level));
    }
    if !is_table(end.entry) {
        return Err(Refusal::Rtt(Condition::RtteState, end.level));
    }
    let number = table_number(level, ipa);
    let Some(ripas) = ripas_left(sight, removal, rd, level, number) else {
        return Err(Refusal::Rtt(left_condition(removal), level));
    };
    let rtt = entry_address(end.entry);
    let entry = entry_after_table(&realm, ipa, ripas);
    Ok(done_with(
        rtt,
        Change::TableDestroyed {
            rd,
            level,
            number,
            rtt,
            entry,
        },
    ))
}

#[tactic(auto, unfolding(rmm_spec::specs::Step::Table::rtt_read_entry, rmm_spec::specs::Step::Terms::words_of, rmm_spec::specs::Step::Terms::named, rmm_spec::specs::Lookup::realm_at))]
#[inline(never)]
pub(crate) fn rtt_read_entry<S: Sight>(
    sight: &S,
    rd: u64,
    ipa: u64,
    level: u64,
) -> Result<Accepted, Refusal>
    ensures { result ≡ spec.rtt_read_entry (S.state sight.now) rd ipa level }
{
    if level > 3 {
        return Err(Refusal::Input(Condition::LevelBound));
    }
    let level = level as u8;
    if !is_aligned(ipa, level) {
        return Err(Refusal::Input(Condition::IpaAlign));
    }
    let Some(realm) = sight.realm(rd) else {
        return Err(Refusal::Input(Condition::GranState));
    };
    if realm.start_level() > level {
        return Err(Refusal::Input(Condition::LevelBound));
    }
    if ipa >= realm.space_end() {
        return Err(Refusal::Input(Condition::IpaBound));
    }
    let end = sight.walk(rd, ipa, level);
    let level = u64::from(end.level);
    let ripas = ripas_number(entry_ripas(end.entry));
    Ok(told([
        level,
        entry_state(end.entry),
        entry_address(end.entry),
        ripas,
    ]))
}

// The RIPAS that a table leaves where it may be taken out.
#[tactic(auto, unfolding(rmm_spec::specs::Step::Table::ripas_left))]
fn ripas_left<S: Sight>(
    sight: &S,
    removal: Removal,
    rd: u64,
    level: u8,
    number: u64,
) -> Option<Ripas>
    requires { number < 2 ^ 52 }
    ensures { result ≡ spec.ripas_left removal (S.state sight.now) rd level number }
{
    match removal {
        Removal::Destroy if sight.has_entry(rd, level, number, EntryTest::Live) => None,
        Removal::Destroy => Some(Ripas::Destroyed),
        Removal::Fold => {
            let first = sight.entry_at(rd, level, 512 * number);
            if sight.has_entry(rd, level, number, EntryTest::Unlike(first)) {
                None
            } else {
                Some(entry_ripas(first))
            }
        }
    }
}

// What a table's entries are asked for.
fn left_condition(removal: Removal) -> Condition
    ensures { result ≡ spec.left_condition removal }
{
    match removal {
        Removal::Destroy => Condition::RttLive,
        Removal::Fold => Condition::OwnAlike,
    }
}

// What a stretch of addresses is where a table of it was taken out and left this RIPAS.
fn entry_after_table(realm: &Realm, ipa: u64, ripas: Ripas) -> Entry
    ensures { result ≡ spec.entry_after_table realm.now ipa ripas }
{
    if ipa < realm.protected_end() {
        Entry::Unassigned(ripas)
    } else {
        Entry::UnassignedNs
    }
}
