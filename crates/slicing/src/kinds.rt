//! What a call is by its words alone.

ghost use Rattle.std.specs.Prelude.{◌≡◌, IsTrue, None};
ghost use Rattle.command_words.specs.Names.{names_of};
ghost use Rattle.verdict_laws.specs.Looking as looking;
ghost use Rattle.verdict_laws.specs.Making.{taken_vmid};
ghost use Rattle.verdict_laws.specs.Slices as spec;

use command_words::{Caller, Names, caller_of, named, needed, two};
use rmm_spec::{Call, FunctionId, Tag};

/// Whether a host gives the call.
pub(crate) fn is_hosts(call: &Call) -> bool
    ensures { result ≡ spec.is_hosts call.now }
{
    matches!(caller_of(call), Caller::Host)
}

/// The granules that a call names, but for the one whose content it reads.
#[tactic(auto, unfolding(verdict_laws::specs::Slices::changeable))]
pub(crate) fn changeable(call: &Call) -> Names
    ensures { names_of result ≡ spec.changeable call.now }
{
    match call {
        Call::DataCreate { rd, granule, .. } => {
            two(needed(*rd, Tag::Rd), needed(*granule, Tag::Delegated))
        }
        call => named(call),
    }
}

/// Whether the call may change a granule that it names.
pub(crate) fn changes(call: &Call, granule: u64) -> bool
    ensures { result ≡ spec.may_change call.now granule }
{
    changeable(call)
        .as_slice()
        .iter()
        .any(|name| name.granule == granule)
}

/// Whether the call may be kept where it is refused for what it names: no VMID decides on it.
#[tactic(auto, unfolding(verdict_laws::specs::Making::taken_vmid))]
pub(crate) fn goes_by_names(call: &Call) -> bool
    ensures { IsTrue result → taken_vmid call.now ≡ None }
{
    !matches!(call, Call::RealmCreate { .. })
}

/// Whether a command only looks at the state.
pub(crate) fn is_looking(function: FunctionId) -> bool
    ensures { result ≡ looking.is_looking_function function }
{
    matches!(
        function,
        FunctionId::RttReadEntry
            | FunctionId::MeasurementRead
            | FunctionId::RealmConfig
            | FunctionId::IpaStateGet
    )
}

/// Whether the CPU is inside of a REC after the call, if it is carried out, by whether it was before.
#[tactic(auto, unfolding(verdict_laws::specs::Slices::is_inside_after))]
pub(crate) fn is_inside_after(call: &Call, inside: bool) -> bool
    ensures { result ≡ spec.is_inside_after call.now inside }
{
    match call {
        Call::RecEnter { .. } => true,
        Call::Exit => false,
        _ => inside,
    }
}
