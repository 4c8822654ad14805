//! The memory that a change needs, taken before it.

ghost use Rattle.std.specs.Prelude.{◌≡◌, ℕ, IfOk, OnErr, IsSomeAnd, IsTrue, Some, None, ◌&&◌, replicate};
ghost use Rattle.rmm_spec.specs.Change.{new_realm};
ghost use Rattle.rmm_spec.specs.Lookup.{is_hash};
ghost use Rattle.rmm_spec.specs.Step.Terms as spec;
ghost use Rattle.rmm_laws.specs.Whole as whole;
ghost use Rattle.granule_cells.specs.Rooms.{IsRoomFor, HasNoMore, makes_table};

use crate::Descriptor;
use crate::change_room::Room;
use memory_map::Pa;
use realm_desc::{HashAlgorithm, Realm, Space};
use rmm_spec::{Change, Entry, Ripas};
use rtt_table::Unplaced;
use std::alloc::{AllocError, Global};

/// Takes all memory that the change needs. It is refused only where the change makes a table and memory was refused.
pub fn room_for(alloc: Global, change: &Change) -> Result<Room, AllocError>
    ensures ok { IfOk result (IsRoomFor change.now) }
    ensures no_more { IfOk result (HasNoMore change.now) }
    ensures only { OnErr result (IsTrue (makes_table change.now)) }
{
    match *change {
        Change::RealmMade {
            root,
            width,
            level,
            vmid,
            algo,
            ..
        } => {
            let descriptor = descriptor(alloc, root, width, level, vmid, algo)?;
            let table = Some(root_entries(alloc)?);
            Ok(Room { descriptor, table })
        }
        Change::TableMade { entry, .. } => table_room(alloc, entry),
        _ => Ok(Room {
            descriptor: None,
            table: None,
        }),
    }
}

// The room of a table of copies of an entry. Where it stands is known once the table above is held.
fn table_room(alloc: Global, entry: Entry) -> Result<Room, AllocError>
    ensures table { IfOk result (λ room. IsSomeAnd room.table (λ entries. entries ≡ replicate 512 entry)) }
    ensures no_more { IfOk result (λ room. room.descriptor ≡ None) }
{
    let table = Unplaced::new(alloc, entry)?;
    Ok(Room {
        descriptor: None,
        table: Some(table),
    })
}

// The descriptor of a realm that is made, where the words make one.
fn descriptor(
    alloc: Global,
    root: u64,
    width: u8,
    level: u8,
    vmid: u8,
    algo: u8,
) -> Result<Option<Descriptor>, AllocError>
    ensures { IfOk result (λ made. IsTrue (spec.is_space width level && is_hash algo) → made ≡ Some (new_realm root width level vmid algo)) }
{
    let (Some(space), Some(algorithm)) = (
        Space::of(u64::from(width), u64::from(level)),
        HashAlgorithm::of(u64::from(algo)),
    ) else {
        return Ok(None);
    };
    let realm = Realm::new(Pa::new(root), space, vmid, algorithm);
    Ok(Some(Descriptor::new(alloc, realm)?))
}

// The entries of the root of a realm that was just made: nothing was said of its lower half, and its upper half is the host's.
fn root_entries(alloc: Global) -> Result<Unplaced, AllocError>
    ensures { (rd width level : ℕ) → IfOk result (λ entries. entries ≡ (whole.root_table rd width level).entries) }
{
    Unplaced::halves(alloc, Entry::Unassigned(Ripas::Empty), Entry::UnassignedNs)
}
