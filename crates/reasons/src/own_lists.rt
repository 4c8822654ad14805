//! The conditions of each command on records, tables and requests.

ghost use Rattle.std.specs.Prelude.{◌≡◌, ◌≤◌, IfOk, IsTrue};
ghost use Rattle.rmm_spec.specs.Rows.{all_allowed};
ghost use Rattle.rmm_spec.specs.Step.Table.{left_condition};
ghost use Rattle.rmm_spec.specs.Step.Terms.{words_of};
ghost use Rattle.reasons.specs.declared.test.Test.TheVariants as test;
ghost use Rattle.reasons.specs.Lists as spec;

use crate::asked::Asked;
use crate::lists::{asks, of_owner, of_word, on_realm, on_rec, on_walk, one};
use crate::test::{EntryKind, RealmTest, RecTest, Test, WalkTest, WordTest};
use rmm_spec::{Call, Condition, Removal};
use std::alloc::{AllocError, Global};

/// The conditions of a command on records, tables and requests. Its words are allowed, and the REC of a realm call is given.
#[tactic(auto, unfolding(crate::specs::Lists::own_conditions, rmm_spec::specs::Step::Terms::words_of))]
pub(crate) fn own_conditions_of(
    alloc: Global,
    inside: u64,
    call: &Call,
) -> Result<Vec<Asked>, AllocError>
    requires { IsTrue (all_allowed (words_of call.now)) }
    ensures { IfOk result (λ list. list.items ≡ spec.own_conditions inside call.now) }
{
    match *call {
        Call::DataCreate { rd, ipa, .. } => data_create(alloc, rd, ipa),
        Call::DataCreateUnknown { rd, ipa, .. } => data(alloc, rd, ipa, EntryKind::Unassigned),
        Call::DataDestroy { rd, ipa } => data(alloc, rd, ipa, EntryKind::Assigned),
        Call::RealmActivate { rd } => {
            one(alloc, on_realm(rd, Condition::RealmState, RealmTest::New))
        }
        Call::RealmCreate { vmid, algo, .. } => realm_create(alloc, vmid, algo),
        Call::RealmDestroy { rd } => realm_destroy(alloc, rd),
        Call::RecCreate { rd, mpidr, .. } => rec_create(alloc, rd, mpidr),
        Call::RecDestroy { rec } => { one(alloc, on_rec(rec, Condition::RecState, RecTest::Ready)) }
        Call::RecEnter { rec } => rec_enter(alloc, rec),
        Call::RttCreate { rd, ipa, level, .. } => rtt_create(alloc, rd, ipa, level),
        Call::RttRemove {
            removal,
            rd,
            ipa,
            level,
        } => rtt_remove(alloc, removal, rd, ipa, level),
        Call::RttMapUnprotected { rd, ipa, .. } => {
            unprotected(alloc, rd, ipa, EntryKind::UnassignedNs)
        }
        Call::RttUnmapUnprotected { rd, ipa } => unprotected(alloc, rd, ipa, EntryKind::AssignedNs),
        Call::RttReadEntry { rd, ipa, level } => rtt_read_entry(alloc, rd, ipa, level),
        Call::RttInitRipas { rd, base, top } => rtt_init_ripas(alloc, rd, base, top),
        Call::RttSetRipas { rd, rec, base, top } => rtt_set_ripas(alloc, rd, rec, base, top),
        Call::IpaStateSet { top, .. } => one(
            alloc,
            of_owner(inside, Condition::RgnBound, RealmTest::EndsProtected(top)),
        ),
        Call::IpaStateGet { ipa } => one(
            alloc,
            of_owner(inside, Condition::IpaBound, RealmTest::Protected(ipa)),
        ),
        _ => Ok(Vec::new(alloc)),
    }
}

fn data_create(alloc: Global, rd: u64, ipa: u64) -> Result<Vec<Asked>, AllocError>
    ensures { IfOk result (λ list. list.items ≡ spec.data_create_conditions rd ipa) }
{
    let bound = on_realm(rd, Condition::IpaBound, RealmTest::Protected(ipa));
    let new = on_realm(rd, Condition::RealmState, RealmTest::New);
    let walk = on_walk(rd, ipa, 3, Condition::RttWalk, WalkTest::Reaches);
    let unassigned = on_walk(
        rd,
        ipa,
        3,
        Condition::RtteState,
        WalkTest::Is(EntryKind::Unassigned),
    );
    let ram = on_walk(rd, ipa, 3, Condition::RtteRipas, WalkTest::Ram);
    Ok(vec![in alloc; bound, new, walk, unassigned, ram]?)
}

fn data(alloc: Global, rd: u64, ipa: u64, kind: EntryKind) -> Result<Vec<Asked>, AllocError>
    ensures { IfOk result (λ list. list.items ≡ spec.page_conditions rd ipa kind) }
{
    let bound = on_realm(rd, Condition::IpaBound, RealmTest::Protected(ipa));
    let walk = on_walk(rd, ipa, 3, Condition::RttWalk, WalkTest::Reaches);
    let state = on_walk(rd, ipa, 3, Condition::RtteState, WalkTest::Is(kind));
    Ok(vec![in alloc; bound, walk, state]?)
}

fn unprotected(alloc: Global, rd: u64, ipa: u64, kind: EntryKind) -> Result<Vec<Asked>, AllocError>
    ensures { IfOk result (λ list. list.items ≡ spec.host_page_conditions rd ipa kind) }
{
    let bound = on_realm(rd, Condition::IpaBound, RealmTest::Unprotected(ipa));
    let walk = on_walk(rd, ipa, 3, Condition::RttWalk, WalkTest::Reaches);
    let state = on_walk(rd, ipa, 3, Condition::RtteState, WalkTest::Is(kind));
    Ok(vec![in alloc; bound, walk, state]?)
}

fn realm_create(alloc: Global, vmid: u64, algo: u64) -> Result<Vec<Asked>, AllocError>
    requires { vmid ≤ 0xff }
    ensures { IfOk result (λ list. list.items ≡ spec.realm_create_conditions vmid algo) }
{
    let hash = asks(Condition::ParamsSupp, Test::Hash { algo });
    let vmid = vmid as u8;
    let free = asks(Condition::VmidValid, Test::VmidFree { vmid });
    Ok(vec![in alloc; hash, free]?)
}

fn realm_destroy(alloc: Global, rd: u64) -> Result<Vec<Asked>, AllocError>
    ensures { IfOk result (λ list. list.items ≡ spec.realm_destroy_conditions rd) }
{
    let rec = asks(Condition::RealmLive, Test::NoRec { rd });
    let link = asks(Condition::RealmLive, Test::NoLink { rd });
    Ok(vec![in alloc; rec, link]?)
}

fn rec_create(alloc: Global, rd: u64, mpidr: u64) -> Result<Vec<Asked>, AllocError>
    ensures { IfOk result (λ list. list.items ≡ spec.rec_create_conditions rd mpidr) }
{
    let new = on_realm(rd, Condition::RealmState, RealmTest::New);
    let index = on_realm(rd, Condition::MpidrIndex, RealmTest::NextIndex(mpidr));
    let count = of_word(2, mpidr, Condition::OwnRecCount, WordTest::Below(8));
    Ok(vec![in alloc; new, index, count]?)
}

fn rec_enter(alloc: Global, rec: u64) -> Result<Vec<Asked>, AllocError>
    ensures { IfOk result (λ list. list.items ≡ spec.rec_enter_conditions rec) }
{
    let begun = of_owner(rec, Condition::RealmNew, RealmTest::Begun);
    let on = of_owner(rec, Condition::SystemOff, RealmTest::On);
    let ready = on_rec(rec, Condition::RecState, RecTest::Ready);
    let runnable = on_rec(rec, Condition::RecRunnable, RecTest::Runnable);
    Ok(vec![in alloc; begun, on, ready, runnable]?)
}

fn rtt_create(alloc: Global, rd: u64, ipa: u64, level: u64) -> Result<Vec<Asked>, AllocError>
    requires { level ≤ 3 }
    ensures { IfOk result (λ list. list.items ≡ spec.rtt_create_conditions rd ipa level) }
{
    let above = (level as u8).saturating_sub(1);
    let starts = on_realm(rd, Condition::LevelBound, RealmTest::StartsAbove(level));
    let bound = on_realm(rd, Condition::IpaBound, RealmTest::Within(ipa));
    let walk = on_walk(rd, ipa, above, Condition::RttWalk, WalkTest::Reaches);
    let state = on_walk(rd, ipa, above, Condition::RtteState, WalkTest::NoTable);
    Ok(vec![in alloc; starts, bound, walk, state]?)
}

fn rtt_remove(
    alloc: Global,
    removal: Removal,
    rd: u64,
    ipa: u64,
    level: u64,
) -> Result<Vec<Asked>, AllocError>
    requires { level ≤ 3 }
    ensures { IfOk result (λ list. list.items ≡ spec.rtt_remove_conditions removal rd ipa level) }
{
    let above = (level as u8).saturating_sub(1);
    let starts = on_realm(rd, Condition::LevelBound, RealmTest::StartsAbove(level));
    let bound = on_realm(rd, Condition::IpaBound, RealmTest::Within(ipa));
    let walk = on_walk(rd, ipa, above, Condition::RttWalk, WalkTest::Reaches);
    let state = on_walk(
        rd,
        ipa,
        above,
        Condition::RtteState,
        WalkTest::Is(EntryKind::Table),
    );
    let left = removable(removal, rd, ipa, level as u8);
    Ok(vec![in alloc; starts, bound, walk, state, left]?)
}

fn rtt_read_entry(alloc: Global, rd: u64, ipa: u64, level: u64) -> Result<Vec<Asked>, AllocError>
    ensures { IfOk result (λ list. list.items ≡ spec.rtt_read_entry_conditions rd ipa level) }
{
    let starts = on_realm(rd, Condition::LevelBound, RealmTest::StartsBy(level));
    let bound = on_realm(rd, Condition::IpaBound, RealmTest::Within(ipa));
    Ok(vec![in alloc; starts, bound]?)
}

fn rtt_init_ripas(alloc: Global, rd: u64, base: u64, top: u64) -> Result<Vec<Asked>, AllocError>
    ensures { IfOk result (λ list. list.items ≡ spec.rtt_init_ripas_conditions rd base top) }
{
    let bound = on_realm(rd, Condition::TopBound, RealmTest::EndsProtected(top));
    let new = on_realm(rd, Condition::RealmState, RealmTest::New);
    let state = on_walk(
        rd,
        base,
        3,
        Condition::RtteState,
        WalkTest::Is(EntryKind::Unassigned),
    );
    let begins = on_walk(rd, base, 3, Condition::BaseAlign, WalkTest::Begins(base));
    let ends = on_walk(
        rd,
        base,
        3,
        Condition::TopRttAlign,
        WalkTest::EndsBy { base, top },
    );
    Ok(vec![in alloc; bound, new, state, begins, ends]?)
}

fn rtt_set_ripas(
    alloc: Global,
    rd: u64,
    rec: u64,
    base: u64,
    top: u64,
) -> Result<Vec<Asked>, AllocError>
    ensures { IfOk result (λ list. list.items ≡ spec.rtt_set_ripas_conditions rd rec base top) }
{
    let owner = on_rec(rec, Condition::RecOwner, RecTest::OwnedBy(rd));
    let ready = on_rec(rec, Condition::RecState, RecTest::Ready);
    let request = on_rec(rec, Condition::OwnRequest, RecTest::Requesting);
    let from = on_rec(rec, Condition::BaseBound, RecTest::From(base));
    let by = on_rec(rec, Condition::TopBound, RecTest::By(top));
    let end = WordTest::BelowWord {
        index: 3,
        word: top,
    };
    let size = of_word(2, base, Condition::SizeValid, end);
    let page = of_word(3, top, Condition::TopGranAlign, WordTest::Page);
    let begins = on_walk(rd, base, 3, Condition::BaseAlign, WalkTest::Begins(base));
    let ends = on_walk(
        rd,
        base,
        3,
        Condition::TopRttAlign,
        WalkTest::EndsBy { base, top },
    );
    Ok(vec![in alloc; owner, ready, request, from, by, size, page, begins, ends]?)
}

// That the table can be taken out.
fn removable(removal: Removal, rd: u64, ipa: u64, level: u8) -> Asked
    ensures { result ≡ spec.asks (left_condition removal) (test.Removable removal rd ipa level) }
{
    let condition = match removal {
        Removal::Destroy => Condition::RttLive,
        Removal::Fold => Condition::OwnAlike,
    };
    asks(
        condition,
        Test::Removable {
            removal,
            rd,
            ipa,
            level,
        },
    )
}
