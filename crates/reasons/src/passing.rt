//! Whether a test passes on a machine, and whether what it is about is there.

ghost use Rattle.std.specs.Prelude.{◌≡◌, ◌+◌, ◌<◌, ◌≤◌, ◌&&◌, nat_le, not, unwrap_or, min, is_none, is_some};
ghost use Rattle.rmm_spec.specs.Lookup as look;
ghost use Rattle.rmm_spec.specs.Lookup.{has_tag, no_realm, no_rec, realm_at, rec_at};
ghost use Rattle.rmm_spec.specs.Step.Table.{ripas_left};
ghost use Rattle.rmm_spec.specs.Walk as tables;
ghost use Rattle.rmm_spec.specs.declared.tag.Tag.TheVariants as tag;
ghost use Rattle.spec_machine.specs.View.{state_of};
ghost use Rattle.reasons.specs.Tests as spec;

use crate::place::rec_inside;
use crate::test::{EntryKind, RealmTest, RecTest, Test, WalkTest, WordTest};
use command_rows::Sight;
use command_words::{algorithm_in, is_aligned, is_page, is_space, is_width};
use memory_map::{
    entry_ripas, entry_size, is_assigned, is_assigned_ns, is_ram, is_table, is_unassigned,
    is_unassigned_ns, table_number,
};
use realm_desc::{Realm, Rec};
use rmm_spec::{Entry, EntryTest, Removal, Tag, Walked};
use spec_machine::Machine;

/// Whether the test passes.
#[tactic(auto, unfolding(crate::specs::Tests::passes, rmm_spec::specs::Lookup::rec_at))]
pub fn passes(machine: &Machine, test: Test) -> bool
    ensures { result ≡ spec.passes (state_of machine.now) test }
{
    match test {
        Test::OfWord { word, asked, .. } => word_passes(word, asked),
        Test::Outside { cpu } => rec_inside(machine, cpu).is_none(),
        Test::Inside { cpu } => rec_inside(machine, cpu).is_some(),
        Test::Idle { rec } => is_idle(machine.rec(rec)),
        Test::Tagged { granule, tag } => machine.has_tag(granule, tag),
        Test::Hash { algo } => algorithm_in(machine.version(), algo).is_some(),
        Test::VmidFree { vmid } => !machine.is_vmid_used(vmid),
        Test::OfRealm { rd, asked } => realm_passes(machine, rd, asked),
        Test::OfRec { rec, asked } => rec_passes(machine.rec(rec), asked),
        Test::OfOwner { rec, asked } => realm_passes(machine, owner_of(machine, rec), asked),
        Test::NoRec { rd } => !has_rec(machine, rd),
        Test::NoLink { rd } => !has_link(machine, rd),
        Test::OfWalk {
            rd,
            ipa,
            level,
            asked,
        } => walk_passes(machine, rd, ipa, level, asked),
        Test::Removable {
            removal,
            rd,
            ipa,
            level,
        } => is_removable(machine, removal, rd, ipa, level),
    }
}

// What is asked of a word.
fn word_passes(word: u64, asked: WordTest) -> bool
    ensures { result ≡ spec.word_passes asked word }
{
    match asked {
        WordTest::AtMost(most) => word <= most,
        WordTest::Below(limit) => word < limit,
        WordTest::Between(least, most) => least <= word && word <= most,
        WordTest::Page => is_page(word),
        WordTest::Entry(level) => is_aligned(word, level.min(3) as u8),
        WordTest::Width => is_width(word),
        WordTest::RootOf(width) => is_space(width, word),
        WordTest::BelowWord { word: other, .. } => word < other,
        WordTest::Apart { word: other, .. } => other != word,
    }
}

// Whether a REC has no pending exit.
#[tactic(auto, unfolding(realm_desc::specs::View::rec_record))]
fn is_idle(rec: Option<Rec>) -> bool
    ensures { result ≡ is_none (unwrap_or rec no_rec).pending }
{
    match rec {
        Some(rec) => rec.can_call(),
        None => true,
    }
}

// Whether a REC is one of the realm, which is there.
fn has_rec(machine: &Machine, rd: u64) -> bool
    ensures { result ≡ (has_tag (state_of machine.now) rd tag.Rd && look.has_rec (state_of machine.now) rd) }
{
    machine.has_tag(rd, Tag::Rd) && machine.has_rec(rd)
}

// Whether the realm has a table below its root.
#[tactic(auto, unfolding(rmm_spec::specs::Lookup::realm_at, realm_desc::specs::View::realm_record))]
fn has_link(machine: &Machine, rd: u64) -> bool
    ensures { result ≡ tables.has_link (state_of machine.now) rd (realm_at (state_of machine.now) rd).start_level 0 }
{
    let level = match machine.realm(rd) {
        Some(realm) => realm.start_level(),
        None => 0,
    };
    machine.has_entry(rd, level, 0, EntryTest::Link)
}

// The realm of a REC.
#[tactic(auto, unfolding(rmm_spec::specs::Lookup::rec_at, realm_desc::specs::View::rec_record))]
fn owner_of(machine: &Machine, rec: u64) -> u64
    ensures { result ≡ (rec_at (state_of machine.now) rec).owner }
{
    match machine.rec(rec) {
        Some(rec) => rec.owner.address(),
        None => 0,
    }
}

#[tactic(auto, unfolding(rmm_spec::specs::Lookup::realm_at))]
fn realm_passes(machine: &Machine, rd: u64, asked: RealmTest) -> bool
    ensures { result ≡ spec.realm_passes asked (realm_at (state_of machine.now) rd) }
{
    match machine.realm(rd) {
        Some(realm) => is_met(&realm, asked),
        None => is_met_by_none(asked),
    }
}

// What is asked of a realm that is there.
#[tactic(auto, unfolding(realm_desc::specs::View::realm_record))]
fn is_met(realm: &Realm, asked: RealmTest) -> bool
    ensures { result ≡ spec.realm_passes asked realm.now }
{
    match asked {
        RealmTest::New => realm.is_new(),
        RealmTest::Begun => !realm.is_new(),
        RealmTest::On => !realm.is_system_off(),
        RealmTest::NextIndex(index) => realm.is_next_index(index),
        RealmTest::StartsAbove(level) => u64::from(realm.start_level()) < level,
        RealmTest::StartsBy(level) => u64::from(realm.start_level()) <= level,
        RealmTest::Within(ipa) => ipa < realm.space_end(),
        RealmTest::Protected(ipa) => ipa < realm.protected_end(),
        RealmTest::Unprotected(ipa) => realm.protected_end() <= ipa && ipa < realm.space_end(),
        RealmTest::EndsProtected(top) => top <= realm.protected_end(),
    }
}

// The same where none is.
fn is_met_by_none(asked: RealmTest) -> bool
    ensures { result ≡ spec.realm_passes asked no_realm }
{
    match asked {
        RealmTest::New | RealmTest::On | RealmTest::StartsBy(_) => true,
        RealmTest::Begun => false,
        RealmTest::NextIndex(index) => index == 0,
        RealmTest::StartsAbove(level) => 0 < level,
        RealmTest::Within(ipa) | RealmTest::Protected(ipa) => ipa < 1,
        RealmTest::Unprotected(ipa) => 1 <= ipa && ipa < 1,
        RealmTest::EndsProtected(top) => top <= 1,
    }
}

#[tactic(auto, unfolding(rmm_spec::specs::Lookup::rec_at))]
fn rec_passes(rec: Option<Rec>, asked: RecTest) -> bool
    ensures { result ≡ spec.rec_passes asked (unwrap_or rec no_rec) }
{
    match rec {
        Some(rec) => is_met_by_rec(&rec, asked),
        None => match asked {
            RecTest::Ready => true,
            RecTest::Runnable | RecTest::Requesting => false,
            RecTest::OwnedBy(rd) => rd == 0,
            RecTest::From(base) => base == 0,
            RecTest::By(top) => top <= 0,
        },
    }
}

// What is asked of a REC that is there.
#[tactic(auto, unfolding(realm_desc::specs::View::rec_record))]
fn is_met_by_rec(rec: &Rec, asked: RecTest) -> bool
    ensures { result ≡ spec.rec_passes asked rec.now }
{
    match asked {
        RecTest::Ready => rec.is_ready(),
        RecTest::Runnable => rec.is_runnable(),
        RecTest::OwnedBy(rd) => rec.owner.address() == rd,
        RecTest::Requesting => rec.request.is_some(),
        RecTest::From(base) => match rec.request {
            Some(request) => base == request.base,
            None => base == 0,
        },
        RecTest::By(top) => match rec.request {
            Some(request) => top <= request.top,
            None => top <= 0,
        },
    }
}

fn walk_passes(machine: &Machine, rd: u64, ipa: u64, level: u8, asked: WalkTest) -> bool
    ensures { result ≡ spec.walk_passes asked level (tables.walk (state_of machine.now) rd ipa (min level 3)) }
{
    let end = machine.walk(rd, ipa, level.min(3));
    ends_so(end, level, asked)
}

// What is asked of the end of a walk.
fn ends_so(end: Walked, level: u8, asked: WalkTest) -> bool
    requires { end.level ≤ 3 }
    ensures { result ≡ spec.walk_passes asked level end }
{
    match asked {
        WalkTest::Reaches => end.level == level,
        WalkTest::Is(kind) => is_kind(kind, end.entry),
        WalkTest::NoTable => !is_table(end.entry),
        WalkTest::Ram => is_ram(entry_ripas(end.entry)),
        WalkTest::Begins(base) => is_aligned(base, end.level),
        WalkTest::EndsBy { base, top } => ends_by(entry_size(end.level), base, top),
    }
}

// Whether so many bytes from the base on end by the top.
#[tactic(auto, using(std::proofs::lemmas::Bool::Decides::nat_tests))]
fn ends_by(size: u64, base: u64, top: u64) -> bool
    requires { 0 < size }
    ensures { result ≡ nat_le (base + size) top }
{
    base < top && size <= top - base
}

fn is_kind(kind: EntryKind, entry: Entry) -> bool
    ensures { result ≡ spec.is_kind kind entry }
{
    match kind {
        EntryKind::Unassigned => is_unassigned(entry),
        EntryKind::Assigned => is_assigned(entry),
        EntryKind::UnassignedNs => is_unassigned_ns(entry),
        EntryKind::AssignedNs => is_assigned_ns(entry),
        EntryKind::Table => is_table(entry),
    }
}

// Whether the table of the level for the address can be taken out.
#[tactic(auto, unfolding(rmm_spec::specs::Step::Table::ripas_left))]
fn is_removable(machine: &Machine, removal: Removal, rd: u64, ipa: u64, level: u8) -> bool
    ensures { result ≡ is_some (ripas_left removal (state_of machine.now) rd level (tables.table_number level ipa)) }
{
    let number = table_number(level, ipa);
    match removal {
        Removal::Destroy => !machine.has_entry(rd, level, number, EntryTest::Live),
        Removal::Fold => {
            let first = machine.entry_at(rd, level, 512 * number);
            !machine.has_entry(rd, level, number, EntryTest::Unlike(first))
        }
    }
}

/// Whether the realm or the REC that the test is about is there.
#[tactic(auto, unfolding(crate::specs::Tests::stands))]
pub fn is_standing(machine: &Machine, test: Test) -> bool
    ensures { result ≡ spec.stands (state_of machine.now) test }
{
    match test {
        Test::OfWord { .. }
        | Test::Outside { .. }
        | Test::Inside { .. }
        | Test::Tagged { .. }
        | Test::Hash { .. }
        | Test::VmidFree { .. } => true,
        Test::Idle { rec } | Test::OfRec { rec, .. } | Test::OfOwner { rec, .. } => {
            machine.has_tag(rec, Tag::Rec)
        }
        Test::OfRealm { rd, .. }
        | Test::NoRec { rd }
        | Test::NoLink { rd }
        | Test::OfWalk { rd, .. }
        | Test::Removable { rd, .. } => machine.has_tag(rd, Tag::Rd),
    }
}
