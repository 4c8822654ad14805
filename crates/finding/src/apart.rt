//! Calls that may as well come behind others, whatever the state, by their words alone.

ghost use Rattle.std.specs.Prelude.{◌≡◌};
ghost use Rattle.std.specs.List.{list_any};
ghost use Rattle.rmm_spec.specs.Locks as locks;
ghost use Rattle.rmm_spec.specs.Rows.{Needed};
ghost use Rattle.rmm_spec.specs.Step.Terms as terms;
ghost use Rattle.verdict_laws.specs.Apart as spec;

use command_words::{Name, named};
use rmm_spec::Call;

/// The granule that a call lends to the realm world or takes back, where it does.
#[tactic(auto, unfolding(verdict_laws::specs::Apart::lent))]
pub(crate) fn lent(call: &Call) -> Option<u64>
    ensures { result ≡ spec.lent call.now }
{
    match call {
        Call::GranuleDelegate { granule } | Call::GranuleUndelegate { granule } => Some(*granule),
        _ => None,
    }
}

/// Whether a call neither names the granule nor may give back granules that it doesn't name.
pub(crate) fn is_apart_from(call: &Call, granule: u64) -> bool
    ensures { result ≡ spec.is_apart_from call.now granule }
{
    !names(call, granule) && !frees_unnamed(call)
}

/// Whether a call names the granule.
pub(crate) fn names(call: &Call, granule: u64) -> bool
    ensures { result ≡ locks.is_named (terms.named call.now) granule }
{
    is_named(named(call).as_slice(), granule)
}

/// Whether the second call names a granule that the first names.
pub(crate) fn names_any(one: &Call, two: &Call) -> bool
    ensures { result ≡ list_any (λ (n : Needed). locks.is_named (terms.named two.now) n.granule) (terms.named one.now) }
{
    let theirs = named(two);
    named(one)
        .as_slice()
        .iter()
        .any(|name| is_named(theirs.as_slice(), name.granule))
}

/// Whether a granule is named.
fn is_named(names: &[Name], granule: u64) -> bool
    ensures { result ≡ locks.is_named names.now granule }
{
    names.iter().any(|name| name.granule == granule)
}

/// Whether a call may give back granules that it doesn't name.
#[tactic(auto, unfolding(verdict_laws::specs::Apart::frees_unnamed))]
fn frees_unnamed(call: &Call) -> bool
    ensures { result ≡ spec.frees_unnamed call.now }
{
    matches!(
        call,
        Call::DataDestroy { .. }
            | Call::RealmDestroy { .. }
            | Call::RecDestroy { .. }
            | Call::RttRemove { .. }
    )
}

/// Whether a lending of the granule that is carried out behind a call may come before it.
pub(crate) fn lets_lend(call: &Call, lending: &Call, granule: u64) -> bool
    ensures { result ≡ spec.lets_lend call.now lending.now granule }
{
    !names(call, granule) && (is_delegation(lending) || !frees_unnamed(call))
}

#[tactic(auto, unfolding(verdict_laws::specs::Apart::is_delegation))]
fn is_delegation(call: &Call) -> bool
    ensures { result ≡ spec.is_delegation call.now }
{
    matches!(call, Call::GranuleDelegate { .. })
}
