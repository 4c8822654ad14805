//! Where a function and a condition are counted.

ghost use Rattle.std.specs.Prelude.{◌≡◌, ◌<◌, length};
ghost use Rattle.rmm_spec.specs.Function.{functions};
ghost use Rattle.run_steps.specs.Places.{condition_place, function_place, place_count, place_of, refused_place};

use rmm_spec::{Condition, FunctionId};

/// How many places there are: for each function one for each condition, and one for what is accepted.
#[tactic(auto, unfolding(crate::specs::Places::place_count))]
pub(crate) fn place_count() -> usize
    ensures { result ≡ place_count }
{
    let functions = FunctionId::all();
    functions.len() * 44
}

/// The conditions, in the order of their places.
pub(crate) const CONDITIONS: [Condition; 43] = [
    Condition::Alias,
    Condition::AuxAlias,
    Condition::BaseAlign,
    Condition::BaseBound,
    Condition::GranState,
    Condition::IndexBound,
    Condition::IpaAlign,
    Condition::IpaBound,
    Condition::LevelBound,
    Condition::MpidrIndex,
    Condition::ParamsSupp,
    Condition::RealmLive,
    Condition::RealmNew,
    Condition::RealmState,
    Condition::RecOwner,
    Condition::RecRunnable,
    Condition::RecState,
    Condition::RgnBound,
    Condition::RipasValid,
    Condition::RttLive,
    Condition::RttNumLevel,
    Condition::RttWalk,
    Condition::RtteRipas,
    Condition::RtteState,
    Condition::SizeBound,
    Condition::SizeValid,
    Condition::SystemOff,
    Condition::TopAlign,
    Condition::TopBound,
    Condition::TopGranAlign,
    Condition::TopRttAlign,
    Condition::VmidValid,
    Condition::OwnAlike,
    Condition::OwnBase,
    Condition::OwnFlags,
    Condition::OwnImm,
    Condition::OwnInside,
    Condition::OwnOutside,
    Condition::OwnPage,
    Condition::OwnPending,
    Condition::OwnRecCount,
    Condition::OwnRequest,
    Condition::OwnShape,
];

/// The place of what is accepted, or of a refusal for a condition.
pub(crate) fn place_of(function: FunctionId, refused: Option<Condition>) -> usize
    ensures place { result ≡ place_of function refused }
    ensures within { result < place_count }
{
    function_place(function) * 44 + refused_place(refused)
}

fn refused_place(refused: Option<Condition>) -> usize
    ensures place { result ≡ refused_place refused }
    ensures within { result < 44 }
{
    match refused {
        Some(condition) => condition_place(condition),
        None => 0,
    }
}

// Functions are declared in the order in which they are listed.
#[tactic(auto, using(crate::proofs::PlaceLaws::function_declared))]
fn function_place(function: FunctionId) -> usize
    ensures place { result ≡ function_place function }
    ensures within { result < length functions }
{
    function as usize
}

// So are conditions.
#[tactic(auto, using(crate::proofs::PlaceLaws::condition_declared))]
fn condition_place(condition: Condition) -> usize
    ensures place { result ≡ condition_place condition }
    ensures within { result < 44 }
{
    condition as usize + 1
}
