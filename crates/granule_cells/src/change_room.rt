//! The memory of one change.

use crate::Descriptor;
use rtt_table::Unplaced;

/// What a change puts in that takes memory: the descriptor of a realm that is made and the entries of its
/// root, or those of a table.
#[derive(Drop)]
pub struct Room {
    pub(crate) descriptor: Option<Descriptor>,
    pub(crate) table: Option<Unplaced>,
}

impl Room {
    ghost use Rattle.std.specs.Prelude.{◌≡◌, is_some, IsTrue, Some};

    /// The entries that the room has.
    pub fn into_table(self) -> Unplaced
        requires { IsTrue (is_some self.table) }
        ensures { self.table ≡ Some result }
    {
        let Room {
            descriptor: _descriptor,
            table,
        } = self;
        let Some(table) = table else { unreachable!() };
        table
    }

    /// The descriptor and the entries that the room has.
    pub fn into_realm(self) -> (Descriptor, Unplaced)
        requires descriptor { IsTrue (is_some self.descriptor) }
        requires table { IsTrue (is_some self.table) }
        ensures descriptor { self.descriptor ≡ Some result.0 }
        ensures table { self.table ≡ Some result.1 }
    {
        let (Some(descriptor), Some(table)) = (self.descriptor, self.table) else {
            unreachable!()
        };
        (descriptor, table)
    }
}
