//! Calls that end something, behind calls whose granules are left alone meanwhile, as the state and the other open calls show.

ghost use Rattle.std.specs.Prelude.{◌≡◌, ◌<◌, Some, IsTrue, slice_get};
ghost use Rattle.std.specs.List.{list_any};
ghost use Rattle.rmm_spec.specs.Rows.{Needed};
ghost use Rattle.rmm_spec.specs.Step.Terms.{named};
ghost use Rattle.spec_machine.specs.View.{state_of};
ghost use Rattle.verdict_laws.specs.Apart as spec;
ghost use Rattle.finding.specs.Group.{EndsLast, IsNamedAlone, NamesOthers};

use crate::apart::names_any;
use crate::ending::ends_later;
use crate::next_call::NextCall;
use command_words::named;
use rmm_spec::{Call, Tag};
use spec_machine::Machine;

/// Whether the one ends something, and may as well come behind the other CPU's call: no granule that this names is a part of anything, and no
/// other open call names one.
pub(crate) fn ends_last(
    calls: &[Option<NextCall<'_>>; 8],
    machine: &Machine,
    other: u8,
    one: &NextCall<'_>,
    two: &NextCall<'_>,
) -> bool
    ensures { IsTrue result → EndsLast calls.now (state_of machine.now) other one.now two.now }
{
    if !ends_later(one, two) {
        return false;
    }
    if names_part(machine, &two.call) {
        return false;
    }
    is_named_alone(calls, other, two)
}

/// Whether a granule that the call names is a part of a realm or a REC.
fn names_part(machine: &Machine, call: &Call) -> bool
    ensures { result ≡ list_any (λ (n : Needed). spec.is_part ((state_of machine.now).tag n.granule)) (named call.now) }
{
    named(call)
        .as_slice()
        .iter()
        .any(|name| is_part(machine.tag(name.granule)))
}

/// Whether a granule with the tag is a part of a realm or a REC.
fn is_part(tag: Tag) -> bool
    ensures { result ≡ spec.is_part tag }
{
    matches!(tag, Tag::RecAux | Tag::Data | Tag::Rtt)
}

/// Whether no other CPU's call names a granule that this one's names.
fn is_named_alone(calls: &[Option<NextCall<'_>>; 8], cpu: u8, next: &NextCall<'_>) -> bool
    ensures { IsTrue result → IsNamedAlone calls.now cpu next.now 8 }
{
    for other in 0..8 {
        if other != cpu && !names_others(calls, other, next) {
            return false;
        }
    }
    true
}

/// Whether the CPU has no call that names a granule which the call names.
fn names_others(calls: &[Option<NextCall<'_>>; 8], other: u8, next: &NextCall<'_>) -> bool
    requires { other < 8 }
    ensures { IsTrue result → (found : NextCall) → slice_get calls.now other ≡ Some (Some found) → NamesOthers next.now found }
{
    match &calls[other as usize] {
        Some(found) => !names_any(&next.call, &found.call),
        None => true,
    }
}
