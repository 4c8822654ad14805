//! The conditions of each command.

ghost use Rattle.std.specs.Prelude.{◌≡◌, ◌∷◌, [], map, IfOk};
ghost use Rattle.rmi_view.specs.Callers.{class_from};
ghost use Rattle.rmm_spec.specs.Step.Terms.{named};
ghost use Rattle.reasons.specs.Lists as spec;

use crate::asked::Asked;
use crate::test::{RealmTest, RecTest, Test, WalkTest, WordTest};
use command_words::{Caller, Name, named};
use rmm_spec::{Call, Condition};
use std::alloc::{AllocError, Global};

/// A condition that asks this.
pub(crate) fn asks(condition: Condition, test: Test) -> Asked
    ensures { result ≡ spec.asks condition test }
{
    Asked { condition, test }
}

/// A condition on a realm.
pub(crate) fn on_realm(rd: u64, condition: Condition, asked: RealmTest) -> Asked
    ensures { result ≡ spec.on_realm rd condition asked }
{
    asks(condition, Test::OfRealm { rd, asked })
}

/// A condition on a REC.
pub(crate) fn on_rec(rec: u64, condition: Condition, asked: RecTest) -> Asked
    ensures { result ≡ spec.on_rec rec condition asked }
{
    asks(condition, Test::OfRec { rec, asked })
}

/// A condition on the word at a place.
pub(crate) fn of_word(index: u8, word: u64, condition: Condition, asked: WordTest) -> Asked
    ensures { result ≡ spec.of_word index word condition asked }
{
    asks(condition, Test::OfWord { index, word, asked })
}

/// A condition on where a walk ends.
pub(crate) fn on_walk(rd: u64, ipa: u64, level: u8, condition: Condition, asked: WalkTest) -> Asked
    ensures { result ≡ spec.on_walk rd ipa level condition asked }
{
    asks(
        condition,
        Test::OfWalk {
            rd,
            ipa,
            level,
            asked,
        },
    )
}

/// A condition on a REC's realm.
pub(crate) fn of_owner(rec: u64, condition: Condition, asked: RealmTest) -> Asked
    ensures { result ≡ spec.of_owner rec condition asked }
{
    asks(condition, Test::OfOwner { rec, asked })
}

/// One condition alone.
pub(crate) fn one(alloc: Global, asked: Asked) -> Result<Vec<Asked>, AllocError>
    ensures { IfOk result (λ list. list.items ≡ asked ∷ []) }
{
    Ok(vec![in alloc; asked]?)
}

/// Where a command can be given.
pub(crate) fn place_conditions(
    alloc: Global,
    caller: Caller,
    cpu: u8,
    rec: u64,
) -> Result<Vec<Asked>, AllocError>
    ensures { IfOk result (λ list. list.items ≡ spec.place_conditions (class_from caller) cpu rec) }
{
    match caller {
        Caller::Host => {
            let outside = asks(Condition::OwnOutside, Test::Outside { cpu });
            one(alloc, outside)
        }
        Caller::Realm => {
            let inside = asks(Condition::OwnInside, Test::Inside { cpu });
            let idle = asks(Condition::OwnPending, Test::Idle { rec });
            Ok(vec![in alloc; inside, idle]?)
        }
        Caller::Rec => {
            let inside = asks(Condition::OwnInside, Test::Inside { cpu });
            one(alloc, inside)
        }
    }
}

/// The tags of the granules that a command names.
pub(crate) fn tag_conditions(alloc: Global, call: &Call) -> Result<Vec<Asked>, AllocError>
    ensures { IfOk result (λ list. list.items ≡ map spec.tag_condition (named call.now)) }
{
    let mut list = Vec::new(alloc);
    let named = named(call);
    let names = named.as_slice();
    for i in 0..names.len() {
        let name = names[i];
        let Name { granule, tag } = name;
        list.push(asks(Condition::GranState, Test::Tagged { granule, tag }))?;
    }
    Ok(list)
}
