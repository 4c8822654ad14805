//! The memory that a change needs, taken before it.

ghost use Rattle.std.specs.Prelude.{◌≡◌, IfOk, OnErr, IsTrue};
ghost use Rattle.granule_cells.specs.Rooms.{IsRoomFor, HasNoMore, makes_table};
ghost use Rattle.command_core.specs.Sides.{side_of};

use granule_cells::{Room, Side, room_for};
use rmm_spec::Change;
use std::alloc::{AllocError, Global};

/// Takes all memory that the change needs. It is refused only where the change makes a table and memory was refused; on
/// both ways the side table holds what it held.
pub fn room(alloc: Global, _side: &mut Side, change: &Change) -> Result<Room, AllocError>
    ensures kept { side_of _side.new ≡ side_of _side.old }
    ensures ok { IfOk result (IsRoomFor change.now) }
    ensures no_more { IfOk result (HasNoMore change.now) }
    ensures only { OnErr result (IsTrue (makes_table change.now)) }
{
    room_for(alloc, change)
}
