//! Whose realm's the RECs of a granule are.

ghost use Rattle.std.specs.Prelude.{◌≡◌, ℕ};
ghost use Rattle.registers.specs.Owners.{owner_in, owner_of};

use history::History;
use rmm_spec::{Call, FunctionId};
use std::alloc::{AllocError, Global};

/// The bytes of a granule.
pub(crate) const GRANULE: u64 = 4096;

/// For each granule the realm that a REC there is asked for first, if one is.
pub(crate) fn first_owners(
    alloc: Global,
    history: &History,
) -> Result<Vec<Option<u64>>, AllocError> {
    let mut owners = vec![in alloc; None; history.config().granules() as usize]?;
    'places: for place in 0..history.len() {
        let Some(command) = history.command_at(place) else {
            continue;
        };
        if let FunctionId::RecCreate = command.function {
            note_owner(&mut owners, command.call());
        }
    }
    Ok(owners)
}

/// The call may be the first that asks for a REC of its granule.
fn note_owner(owners: &mut Vec<Option<u64>>, call: Call) {
    let Call::RecCreate { rd, rec, .. } = call else {
        return;
    };
    if let Some(owner) = owners.get_mut((rec / GRANULE) as usize) {
        if owner.is_none() {
            *owner = Some(rd);
        }
    }
}

/// The realm of a REC.
#[tactic(auto, unfolding(crate::specs::Owners::owner_in))]
pub(crate) fn owner_in(owners: &[Option<u64>], rec: u64) -> Option<u64>
    ensures { result ≡ owner_in owners.now rec }
{
    if !rec.is_multiple_of(GRANULE) {
        return None;
    }
    owners
        .get((rec / GRANULE) as usize)
        .copied()
        .unwrap_or(None)
}

/// The realm of the REC that a CPU entered last.
pub(crate) fn owner_of(owners: &[Option<u64>], entered: Option<u64>) -> Option<u64>
    ensures { result ≡ owner_of owners.now entered }
{
    match entered {
        Some(rec) => owner_in(owners, rec),
        None => None,
    }
}
