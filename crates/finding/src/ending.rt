//! Calls that end a REC or a realm, beside calls on the tables of other realms and on granules.

ghost use Rattle.std.specs.Prelude.{◌≡◌, ◌||◌, ℕ, false, true, IsTrue, Some};
ghost use Rattle.verdict_laws.specs.Ending as spec;
ghost use Rattle.verdict_laws.specs.Ending.{EndsLater};
ghost use Rattle.verdict_laws.specs.Making.{is_making, taken_vmid};
ghost use Rattle.verdict_laws.specs.Separate.{is_local};
ghost use Rattle.finding.specs.MayPass.{MayPass};
ghost use Rattle.finding.specs.Next.{IsCarriedOut};

use crate::apart::names_any;
use crate::next_call::NextCall;
use crate::separate::{is_of_kind, taken_vmid};
use rmm_spec::Call;

/// Whether both are carried out, the one makes something, works or lends, and the other ends a REC or a realm that the one doesn't name.
pub(crate) fn ends_apart(one: &NextCall<'_>, two: &NextCall<'_>) -> bool
    ensures { IsTrue result → MayPass one.now two.now }
{
    if !is_ending(&two.call) {
        return false;
    }
    if !is_of_kind(&one.call) {
        return false;
    }
    if !one.is_carried_out() {
        return false;
    }
    if !two.is_carried_out() {
        return false;
    }
    !names_any(&one.call, &two.call)
}

/// Whether both are carried out, and the one ends a REC or a realm which the other doesn't name: this makes something, works, lends or ends
/// something, takes no VMID where the first gives one back, and ends no realm where that ends a REC.
pub(crate) fn ends_later(one: &NextCall<'_>, two: &NextCall<'_>) -> bool
    ensures later { IsTrue result → EndsLater one.now.call two.now.call }
    ensures done { IsTrue result → IsCarriedOut one.now }
    ensures done_too { IsTrue result → IsCarriedOut two.now }
{
    if !is_ending(&one.call) {
        return false;
    }
    if !one.is_carried_out() {
        return false;
    }
    if !two.is_carried_out() {
        return false;
    }
    if !ends_or_works(&two.call) {
        return false;
    }
    if !leaves_vmid(&one.call, &two.call) {
        return false;
    }
    if !ends_alike(&one.call, &two.call) {
        return false;
    }
    !names_any(&two.call, &one.call)
}

/// Whether a call ends something, makes something, works or lends.
fn ends_or_works(call: &Call) -> bool
    ensures { result ≡ (spec.is_ending call.now || (is_making call.now || is_local call.now)) }
{
    is_ending(call) || is_of_kind(call)
}

/// Whether the one gives back no VMID, or the other takes none.
fn leaves_vmid(one: &Call, two: &Call) -> bool
    ensures { IsTrue result → (vmid : ℕ) → taken_vmid two.now ≡ Some vmid → spec.frees_vmid one.now ≡ false }
{
    match taken_vmid(two) {
        Some(_) => !frees_vmid(one),
        None => true,
    }
}

/// Whether the one ends a realm if the other does.
fn ends_alike(one: &Call, two: &Call) -> bool
    ensures { IsTrue result → spec.frees_vmid two.now ≡ true → spec.frees_vmid one.now ≡ true }
{
    if frees_vmid(two) {
        frees_vmid(one)
    } else {
        true
    }
}

/// Whether a call gives back a VMID.
#[tactic(auto, unfolding(verdict_laws::specs::Ending::frees_vmid))]
fn frees_vmid(call: &Call) -> bool
    ensures { result ≡ spec.frees_vmid call.now }
{
    matches!(call, Call::RealmDestroy { .. })
}

/// Whether a call ends a REC or a realm.
#[tactic(auto, unfolding(verdict_laws::specs::Ending::is_ending))]
fn is_ending(call: &Call) -> bool
    ensures { result ≡ spec.is_ending call.now }
{
    matches!(call, Call::RecDestroy { .. } | Call::RealmDestroy { .. })
}
