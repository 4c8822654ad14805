//! Which calls are worth a look where the latest is sought that says something: a look at each costs more than one at its function.

use crate::done::{Done, done_before};
use history::History;
use rmm_spec::FunctionId;
use verdict_laws::Fact;

/// The function of the call that is made at a place, where one is.
pub(crate) fn function_at(history: &History, at: u32) -> Option<FunctionId> {
    if at as usize >= history.len() {
        return None;
    }
    Some(history.command_at(at as usize)?.function)
}

/// Whether the call that is made at a place names the granule, or may give back granules that it doesn't name.
pub(crate) fn concerns(history: &History, at: u32, granule: u64) -> bool {
    if at as usize >= history.len() {
        return false;
    }
    match history.command_at(at as usize) {
        Some(command) => {
            matches!(
                command.function,
                FunctionId::DataDestroy | FunctionId::RttDestroy | FunctionId::RttFold
            ) || command.words.iter().any(|word| *word == granule)
        }
        None => false,
    }
}

/// Whether a call of the function may make the fact.
pub(crate) fn may_make(fact: Fact, function: FunctionId) -> bool {
    match fact {
        Fact::NewRealm { .. } | Fact::Wide { .. } | Fact::SoleVmid { .. } => {
            matches!(function, FunctionId::RealmCreate)
        }
        Fact::Tagged { .. } => true,
        Fact::PartOf { .. } => {
            matches!(function, FunctionId::RealmCreate | FunctionId::RecCreate)
        }
        Fact::Covered { .. } => matches!(function, FunctionId::RttCreate),
        Fact::Unassigned { .. } => {
            matches!(function, FunctionId::DataDestroy | FunctionId::RttCreate)
        }
        Fact::UnassignedRam { .. } => matches!(function, FunctionId::RttInitRipas),
        Fact::Assigned { .. } => gives_page(function),
        Fact::HasRipas { .. } => {
            matches!(function, FunctionId::RttInitRipas | FunctionId::DataCreate)
        }
        Fact::Activated { .. } => matches!(function, FunctionId::RealmActivate),
        Fact::OwnedBy { .. } | Fact::Runnable { .. } => matches!(function, FunctionId::RecCreate),
        Fact::Idle { .. } => matches!(function, FunctionId::RecCreate | FunctionId::Exit),
        Fact::RunsOn { .. } => matches!(function, FunctionId::RecEnter),
        Fact::AsksFrom { .. } => moves_request(function),
        Fact::RunsOrAsksWithin { .. } => {
            moves_request(function) || matches!(function, FunctionId::RecEnter)
        }
        Fact::RunsOrAsksTo { .. } => matches!(function, FunctionId::RecEnter | FunctionId::Exit),
    }
}

/// Whether a call of the function may change from where on a REC asks for something.
fn moves_request(function: FunctionId) -> bool {
    matches!(
        function,
        FunctionId::RecCreate | FunctionId::RttSetRipas | FunctionId::Exit
    )
}

/// Whether a call of the function gives a page to an address.
pub(crate) fn gives_page(function: FunctionId) -> bool {
    matches!(
        function,
        FunctionId::DataCreate | FunctionId::DataCreateUnknown
    )
}

/// The call that is made at one place, where it was carried out and returned before another.
pub(crate) fn done_at(history: &History, count: u32, place: u32, at: u32) -> Option<Done<'_>> {
    if count as usize > history.len() {
        return None;
    }
    done_before(history, count, at, place)
}
