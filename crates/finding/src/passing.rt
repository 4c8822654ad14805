//! Whether a call may as well come behind another.

ghost use Rattle.std.specs.Prelude.{◌≡◌, IsTrue, Some};
ghost use Rattle.verdict_laws.specs.Apart.{lent};
ghost use Rattle.finding.specs.MayPass.{MayPass};

use crate::apart::{is_apart_from, lent, lets_lend, names};
use crate::beside::are_beside;
use crate::ending::ends_apart;
use crate::next_call::NextCall;
use crate::separate::are_separate;

/// Whether the one call may as well come behind the other.
pub(crate) fn may_pass(one: &NextCall<'_>, two: &NextCall<'_>) -> bool
    ensures { IsTrue result → MayPass one.now two.now }
{
    one_lends(one, two) || are_elsewhere(one, two)
}

/// Whether it may since one of them lends a granule.
fn one_lends(one: &NextCall<'_>, two: &NextCall<'_>) -> bool
    ensures { IsTrue result → MayPass one.now two.now }
{
    lends_apart(one, two) || lends_last(one, two)
}

/// Whether it may since they are separate, or one of them changes a REC alone or ends something.
fn are_elsewhere(one: &NextCall<'_>, two: &NextCall<'_>) -> bool
    ensures { IsTrue result → MayPass one.now two.now }
{
    are_separate(one, two) || enters_or_ends(one, two)
}

/// Whether it may since one of them changes a REC alone, or ends a REC or a realm.
fn enters_or_ends(one: &NextCall<'_>, two: &NextCall<'_>) -> bool
    ensures { IsTrue result → MayPass one.now two.now }
{
    enters_or_works(one, two) || ends_apart(one, two)
}

/// Whether the one lends a granule with which the other has nothing to do.
fn lends_apart(one: &NextCall<'_>, two: &NextCall<'_>) -> bool
    ensures { IsTrue result → MayPass one.now two.now }
{
    match lent(&one.call) {
        Some(granule) => passes_by(one, two, granule),
        None => false,
    }
}

/// Whether the one, which lends the granule or takes it back, may as well come behind the other: where it is carried out, behind one that doesn't
/// name the granule, and else behind one that gives back nothing unnamed either.
fn passes_by(one: &NextCall<'_>, two: &NextCall<'_>, granule: u64) -> bool
    requires { lent one.now.call ≡ Some granule }
    ensures { IsTrue result → MayPass one.now two.now }
{
    if one.is_carried_out() {
        !names(&two.call, granule)
    } else {
        is_apart_from(&two.call, granule)
    }
}

/// Whether the other lends a granule, is carried out, and may come before the one.
fn lends_last(one: &NextCall<'_>, two: &NextCall<'_>) -> bool
    ensures { IsTrue result → MayPass one.now two.now }
{
    let Some(granule) = lent(&two.call) else {
        return false;
    };
    if !two.is_carried_out() {
        return false;
    }
    lets_lend(&one.call, &two.call, granule)
}

/// Whether the one changes a REC alone beside the other's work, or works beside the other's change.
fn enters_or_works(one: &NextCall<'_>, two: &NextCall<'_>) -> bool
    ensures { IsTrue result → MayPass one.now two.now }
{
    if are_beside(one, two) {
        return true;
    }
    are_beside(two, one)
}
