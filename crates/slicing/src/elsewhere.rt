//! Which calls leave facts where their CPUs stand: in other RECs, in none, or in one that leaves as the fact says.

ghost use Rattle.std.specs.Prelude.{◌≡◌};
ghost use Rattle.verdict_laws.specs.Facts as laws;

use crate::making_recs::leaves_with;
use rmm_spec::Call;
use verdict_laws::{Fact, Standing};

/// Whether the call of a CPU that stands there leaves the fact, though it may end it from elsewhere.
pub(crate) fn stays_with(fact: Fact, call: &Call, standing: Standing) -> bool
    ensures { result ≡ laws.stays_with fact call.now standing }
{
    match fact {
        Fact::Runnable { rec } => turns_off_other(call, standing, rec),
        Fact::RunsOrAsksWithin { rec, .. } | Fact::RunsOrAsksTo { rec, .. } => {
            exits_other(call, standing, rec) || leaves_with(fact, call, standing)
        }
        _ => false,
    }
}

/// Whether no exit of a CPU that stands there is the REC's.
#[tactic(auto, unfolding(verdict_laws::specs::Facts::exits_other))]
fn exits_other(call: &Call, standing: Standing, rec: u64) -> bool
    ensures { result ≡ laws.exits_other call.now standing rec }
{
    match call {
        Call::Exit => is_elsewhere(standing, rec),
        _ => false,
    }
}

/// Whether it isn't the REC that turns itself off by the call.
#[tactic(auto, unfolding(verdict_laws::specs::Facts::turns_off_other))]
fn turns_off_other(call: &Call, standing: Standing, rec: u64) -> bool
    ensures { result ≡ laws.turns_off_other call.now standing rec }
{
    match call {
        Call::CpuOff => is_elsewhere(standing, rec),
        _ => false,
    }
}

/// Whether a CPU that stands there is in another REC, or in none.
fn is_elsewhere(standing: Standing, rec: u64) -> bool
    ensures { result ≡ laws.is_elsewhere standing rec }
{
    match standing {
        Standing::Outside => true,
        Standing::Inside { rec: at, .. } => rec != at,
    }
}
