//! What a test that fails reads of the state: the fact that a report has for it.

ghost use Rattle.std.specs.Prelude.{◌≡◌, ◌≤◌, ◌<◌, ◌/◌, ◌%◌, ◌^◌, [], Some, None, IfNone, IfSome, false, true, is_none, is_some, slice_get};
ghost use Rattle.reasons.specs.declared.test.Test.TheVariants as test;
ghost use Rattle.reasons.specs.declared.test.WalkTest.{WalkTest as WalkAsked};
ghost use Rattle.reasons.specs.Tests as tests;
ghost use Rattle.rmm_spec.specs.Lookup as look;
ghost use Rattle.rmm_spec.specs.Lookup.{has_tag, rec_at, realm_at};
ghost use Rattle.rmm_spec.specs.State.{State};
ghost use Rattle.rmm_spec.specs.Step.Table.{ripas_left};
ghost use Rattle.rmm_spec.specs.Walk as tables;
ghost use Rattle.reasons.specs.Report.{AddsOwners};
ghost use Rattle.spec_machine.specs.View.{state_of};
ghost use Rattle.explain.specs.Facts as spec;
ghost use Rattle.explain.specs.Facts.{IsEntryIn, IsFact, IsFound, IsRealmFact, IsRecFact, entry_seen};

use command_rows::Sight;
use memory_map::{
    GRANULE_BYTES, entry_address, entry_ripas, entry_size, entry_state, passes, ripas_number,
    table_number,
};
use reasons::{EntryRead, Fact, OwnerRow, RealmTest, RecTest, Test, WordTest, rec_inside};
use rmm_spec::{Entry, EntryTest, Removal, Tag, Version};
use spec_machine::Machine;

/// How many entries a table has.
const ENTRIES: u64 = 512;

/// The fact that a test which fails reads. Of the state it is told whose each granule is.
#[tactic(auto, unfolding(reasons::specs::Tests::passes))]
pub(crate) fn fact_of(machine: &Machine, owners: &[OwnerRow], test: Test) -> Fact
    requires owners { AddsOwners (state_of machine.now) [] owners.now }
    requires fails { tests.passes (state_of machine.now) test ≡ false }
    ensures { IsFact (state_of machine.now) test result }
{
    match test {
        Test::OfWord { index, word, asked } => Fact::Word { index, word, asked },
        Test::Hash { algo } => hash_fact(machine, algo),
        Test::Outside { cpu } | Test::Inside { cpu } => Fact::Place {
            cpu,
            rec: rec_inside(machine, cpu),
        },
        Test::Idle { rec } => pending_fact(machine, rec),
        Test::Tagged { granule, tag } => tag_fact(machine, owners, granule, tag),
        Test::VmidFree { vmid } => vmid_fact(machine, owners, vmid),
        Test::OfRealm { rd, asked } => realm_fact(machine, rd, asked),
        Test::OfRec { rec, asked } => rec_fact(machine, rec, asked),
        Test::OfOwner { rec, asked } => realm_fact(machine, owner_of(machine, rec), asked),
        Test::NoRec { rd } => rec_left(machine, owners, rd),
        Test::NoLink { rd } => link_fact(machine, rd),
        Test::OfWalk { rd, ipa, level, .. } => walk_fact(machine, rd, ipa, level),
        Test::Removable {
            removal,
            rd,
            ipa,
            level,
        } => table_fact(machine, removal, rd, ipa, level),
    }
}

// A word that stands for no hash of the version, which is the last of REALM_CREATE's.
fn hash_fact(machine: &Machine, algo: u64) -> Fact
    requires { look.allows_hash (state_of machine.now).config.version algo ≡ false }
    ensures { IsFact (state_of machine.now) (test.Hash algo) result }
{
    Fact::Word {
        index: 5,
        word: algo,
        asked: WordTest::AtMost(last_hash(machine.version())),
    }
}

// The number of a version's last hash.
fn last_hash(version: Version) -> u64
    ensures { result ≡ spec.last_hash version }
{
    match version {
        Version::One => 0,
        Version::Two | Version::Large => 1,
    }
}

// A granule that hasn't the tag.
fn tag_fact(machine: &Machine, owners: &[OwnerRow], granule: u64, tag: Tag) -> Fact
    requires owners { AddsOwners (state_of machine.now) [] owners.now }
    requires fails { has_tag (state_of machine.now) granule tag ≡ false }
    ensures { IsFact (state_of machine.now) (test.Tagged granule tag) result }
{
    Fact::Tag {
        granule,
        needed: tag,
        found: found_tag(owners, granule),
    }
}

/// The tag of a granule, where the address is one's.
pub(crate) fn found_tag(owners: &[OwnerRow], granule: u64) -> Option<Tag>
    ensures { (s : State) → AddsOwners s [] owners.now → IsFound s granule result }
{
    match owner(owners, granule) {
        Some(row) => Some(row.tag),
        None => None,
    }
}

/// A granule's row, where the address is one's.
pub(crate) fn owner(owners: &[OwnerRow], granule: u64) -> Option<OwnerRow>
    ensures some { IfSome result (λ row. (granule % 4096 ≡ 0) × (slice_get owners.now (granule / 4096) ≡ Some row)) }
    ensures none { IfNone result (granule % 4096 ≡ 0 → slice_get owners.now (granule / 4096) ≡ None) }
{
    if granule % GRANULE_BYTES != 0 {
        return None;
    }
    owners.get((granule / GRANULE_BYTES) as usize).copied()
}

// Why a REC waits to leave.
#[tactic(auto, unfolding(rmm_spec::specs::Lookup::rec_at, realm_desc::specs::View::rec_record))]
fn pending_fact(machine: &Machine, rec: u64) -> Fact
    requires { is_none (rec_at (state_of machine.now) rec).pending ≡ false }
    ensures { IsFact (state_of machine.now) (test.Idle rec) result }
{
    let Some(held) = machine.rec(rec) else {
        unreachable!()
    };
    let Some(pending) = held.pending else {
        unreachable!()
    };
    Fact::Pending { rec, pending }
}

// A realm that has the VMID.
fn vmid_fact(machine: &Machine, owners: &[OwnerRow], vmid: u8) -> Fact
    requires owners { AddsOwners (state_of machine.now) [] owners.now }
    requires used { look.is_vmid_used (state_of machine.now) vmid ≡ true }
    ensures { IsFact (state_of machine.now) (test.VmidFree vmid) result }
{
    for i in 0..owners.len() {
        let rd = owners[i].granule.address();
        if has_vmid(machine, rd, vmid) {
            return Fact::Vmid {
                vmid: u64::from(vmid),
                rd,
            };
        }
    }
    unreachable!()
}

// Whether a realm is there and has the VMID.
#[tactic(auto, unfolding(realm_desc::specs::View::realm_record))]
fn has_vmid(machine: &Machine, rd: u64, vmid: u8) -> bool
    ensures { result ≡ look.has_vmid vmid ((state_of machine.now).realm rd) }
{
    match machine.realm(rd) {
        Some(realm) => realm.vmid == vmid,
        None => false,
    }
}

// What is asked of a realm.
#[tactic(auto, unfolding(rmm_spec::specs::Lookup::realm_at, realm_desc::specs::View::realm_record))]
fn realm_fact(machine: &Machine, rd: u64, asked: RealmTest) -> Fact
    ensures { IsRealmFact (state_of machine.now) rd asked result }
{
    let Some(realm) = machine.realm(rd) else {
        return Fact::Nothing;
    };
    match asked {
        RealmTest::New | RealmTest::Begun | RealmTest::On => Fact::State {
            rd,
            state: realm.state,
        },
        RealmTest::NextIndex(_) => Fact::NextIndex {
            rd,
            next_index: realm.next_index,
        },
        _ => Fact::Space {
            rd,
            width: realm.space.width(),
            start_level: realm.space.start_level(),
        },
    }
}

// The realm of a REC.
#[tactic(auto, unfolding(rmm_spec::specs::Lookup::rec_at, realm_desc::specs::View::rec_record))]
fn owner_of(machine: &Machine, rec: u64) -> u64
    ensures { result ≡ (rec_at (state_of machine.now) rec).owner }
{
    match machine.rec(rec) {
        Some(held) => held.owner.address(),
        None => 0,
    }
}

// What is asked of a REC.
#[tactic(auto, unfolding(rmm_spec::specs::Lookup::rec_at, realm_desc::specs::View::rec_record))]
fn rec_fact(machine: &Machine, rec: u64, asked: RecTest) -> Fact
    requires { tests.rec_passes asked (rec_at (state_of machine.now) rec) ≡ false }
    ensures { IsRecFact (state_of machine.now) rec asked result }
{
    let Some(held) = machine.rec(rec) else {
        return Fact::Nothing;
    };
    match asked {
        RecTest::Ready => {
            let Some(cpu) = held.cpu else { unreachable!() };
            Fact::Runs { rec, cpu }
        }
        RecTest::Runnable => Fact::Stopped { rec },
        RecTest::OwnedBy(_) => Fact::Owner {
            rec,
            rd: held.owner.address(),
        },
        RecTest::Requesting | RecTest::From(_) | RecTest::By(_) => Fact::Request {
            rec,
            request: held.request,
        },
    }
}

// A REC of the realm that is to go.
fn rec_left(machine: &Machine, owners: &[OwnerRow], rd: u64) -> Fact
    requires owners { AddsOwners (state_of machine.now) [] owners.now }
    requires left { look.has_rec (state_of machine.now) rd ≡ true }
    ensures { IsFact (state_of machine.now) (test.NoRec rd) result }
{
    for i in 0..owners.len() {
        let rec = owners[i].granule.address();
        if is_rec_of(machine, rec, rd) {
            return Fact::RecLeft { rd, rec };
        }
    }
    unreachable!()
}

// Whether a REC is there and is one of the realm.
#[tactic(auto, unfolding(realm_desc::specs::View::rec_record))]
fn is_rec_of(machine: &Machine, rec: u64, rd: u64) -> bool
    ensures { result ≡ look.is_owned_by rd ((state_of machine.now).rec rec) }
{
    match machine.rec(rec) {
        Some(held) => held.owner.address() == rd,
        None => false,
    }
}

// Where a walk ends.
fn walk_fact(machine: &Machine, rd: u64, ipa: u64, level: u8) -> Fact
    ensures { (asked : WalkAsked) → IsFact (state_of machine.now) (test.OfWalk rd ipa level asked) result }
{
    let end = machine.walk(rd, ipa, level.min(3));
    Fact::Entry {
        rd,
        ipa,
        read: entry_read(end.level, end.entry),
    }
}

/// What is read of an entry of the level.
pub(crate) fn entry_read(level: u8, entry: Entry) -> EntryRead
    ensures { result ≡ entry_seen level entry }
{
    EntryRead {
        level: u64::from(level),
        state: entry_state(entry),
        address: entry_address(entry),
        ripas: ripas_number(entry_ripas(entry)),
    }
}

// A table below the realm's root.
fn link_fact(machine: &Machine, rd: u64) -> Fact
    requires { tables.has_link (state_of machine.now) rd (realm_at (state_of machine.now) rd).start_level 0 ≡ true }
    ensures { IsFact (state_of machine.now) (test.NoLink rd) result }
{
    let Some((ipa, read)) = entry_met(machine, rd, root_level(machine, rd), 0, EntryTest::Link)
    else {
        unreachable!()
    };
    Fact::InUse { rd, ipa, read }
}

// The level of a realm's root, and 0 where no realm is.
#[tactic(auto, unfolding(rmm_spec::specs::Lookup::realm_at, realm_desc::specs::View::realm_record))]
fn root_level(machine: &Machine, rd: u64) -> u8
    ensures level { result ≡ (realm_at (state_of machine.now) rd).start_level }
    ensures within { result ≤ 3 }
{
    match machine.realm(rd) {
        Some(realm) => realm.space.start_level(),
        None => 0,
    }
}

// An entry for which the table can't be taken out.
fn table_fact(machine: &Machine, removal: Removal, rd: u64, ipa: u64, level: u8) -> Fact
    requires { is_some (ripas_left removal (state_of machine.now) rd level (tables.table_number level ipa)) ≡ false }
    ensures { IsFact (state_of machine.now) (test.Removable removal rd ipa level) result }
{
    if level > 3 {
        return Fact::Nothing;
    }
    let number = table_number(level, ipa);
    let wanted = in_the_way(removal, machine.entry_at(rd, level, 512 * number));
    let Some((first, read)) = entry_met(machine, rd, level, number, wanted) else {
        unreachable!()
    };
    Fact::InUse {
        rd,
        ipa: first,
        read,
    }
}

// What is asked of an entry that keeps a table where it is, by the table's first.
fn in_the_way(removal: Removal, first: Entry) -> EntryTest
    ensures { result ≡ spec.in_the_way removal first }
{
    match removal {
        Removal::Destroy => EntryTest::Live,
        Removal::Fold => EntryTest::Unlike(first),
    }
}

// The first entry of a table of which this is met, with the first address that it covers.
fn entry_met(
    machine: &Machine,
    rd: u64,
    level: u8,
    number: u64,
    wanted: EntryTest,
) -> Option<(u64, EntryRead)>
    requires level { level ≤ 3 }
    requires number { number < 2 ^ 52 }
    ensures some { IfSome result (λ found. IsEntryIn (state_of machine.now) rd level number wanted found.0 found.1) }
    ensures none { IfNone result (tables.has_entry (state_of machine.now) rd level number wanted ≡ false) }
{
    for k in 0..ENTRIES {
        let at = ENTRIES * number + k;
        let entry = machine.entry_at(rd, level, at);
        if passes(wanted, entry) {
            return Some((at.wrapping_mul(entry_size(level)), entry_read(level, entry)));
        }
    }
    None
}
