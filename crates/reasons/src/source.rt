//! What of a state a condition, or a word of a reply, is read from.

ghost use Rattle.std.specs.Prelude.{◌≡◌};
ghost use Rattle.reasons.specs.Reading as spec;

use crate::test::{RealmTest, RecTest, Test};

/// One part of a state.
#[derive(Clone, Copy)]
pub enum Source {
    /// None, or whether there is one of many.
    Nothing,
    /// Inside which REC the CPU is.
    Place { cpu: u8 },
    Tag { granule: u64 },
    /// How far the realm has come.
    State { rd: u64 },
    /// The same of the REC's realm.
    OwnerState { rec: u64 },
    NextIndex { rd: u64 },
    /// The realm's address space, and its hash.
    Space { rd: u64 },
    /// The same of the REC's realm.
    OwnerSpace { rec: u64 },
    /// On which CPU the REC runs.
    Running { rec: u64 },
    Runnable { rec: u64 },
    Owner { rec: u64 },
    Request { rec: u64 },
    /// Why the REC leaves.
    Leaving { rec: u64 },
    /// Where a walk ends in a realm that is there.
    Walk { rd: u64, ipa: u64, level: u8 },
    /// A measurement of the realm.
    Measured { rd: u64, index: u64 },
}

/// What a test is read from.
#[tactic(auto, unfolding(crate::specs::Reading::source_of))]
pub fn source_of(test: Test) -> Source
    ensures { result ≡ spec.source_of test }
{
    match test {
        Test::OfWord { .. }
        | Test::Hash { .. }
        | Test::VmidFree { .. }
        | Test::NoRec { .. }
        | Test::NoLink { .. }
        | Test::Removable { .. } => Source::Nothing,
        Test::Outside { cpu } | Test::Inside { cpu } => Source::Place { cpu },
        Test::Idle { rec } => Source::Leaving { rec },
        Test::Tagged { granule, .. } => Source::Tag { granule },
        Test::OfRealm { rd, asked } => source_of_realm(rd, asked),
        Test::OfRec { rec, asked } => source_of_rec(rec, asked),
        Test::OfOwner { rec, asked } => source_of_owner(rec, asked),
        Test::OfWalk { rd, ipa, level, .. } => Source::Walk { rd, ipa, level },
    }
}

fn source_of_owner(rec: u64, asked: RealmTest) -> Source
    ensures { result ≡ spec.source_of_owner rec asked }
{
    match asked {
        RealmTest::New | RealmTest::Begun | RealmTest::On => Source::OwnerState { rec },
        _ => Source::OwnerSpace { rec },
    }
}

fn source_of_realm(rd: u64, asked: RealmTest) -> Source
    ensures { result ≡ spec.source_of_realm rd asked }
{
    match asked {
        RealmTest::New | RealmTest::Begun | RealmTest::On => Source::State { rd },
        RealmTest::NextIndex(_) => Source::NextIndex { rd },
        _ => Source::Space { rd },
    }
}

fn source_of_rec(rec: u64, asked: RecTest) -> Source
    ensures { result ≡ spec.source_of_rec rec asked }
{
    match asked {
        RecTest::Ready => Source::Running { rec },
        RecTest::Runnable => Source::Runnable { rec },
        RecTest::OwnedBy(_) => Source::Owner { rec },
        RecTest::Requesting | RecTest::From(_) | RecTest::By(_) => Source::Request { rec },
    }
}
