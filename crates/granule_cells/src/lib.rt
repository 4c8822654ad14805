//! What a monitor keeps of each granule, and what it keeps of none: cells, the side table and the CPUs' places; and what a change makes of cells.
//! It promises that a granule's state and its contents are one value, so that they agree, that each change of the side table is one place of the
//! definitions' maps, and that each address has after a change what the laws say of the change, for which all memory is taken before.
//! Only a realm's descriptor, a new side table, a copy of one, and the room of a change take memory. Addresses are in bytes.
//! The specification machine, the monitor's core and its locks, and the world of turns stand on it.
#![tactic(auto)]

mod applying;
mod cell;
mod cell_change;
mod cell_store;
mod cell_view;
mod change_room;
mod changing;
mod cpu_place;
mod descriptor;
mod entries;
mod finding;
mod plain;
mod rooms;
mod side;

pub use applying::apply;
pub use cell::Cell;
pub use cell_change::{CellChange, change_cell, update_realm};
pub use cell_store::CellStore;
pub use cell_view::CellView;
pub use change_room::Room;
pub use changing::change_records;
pub use cpu_place::CpuPlace;
pub use descriptor::Descriptor;
pub use entries::change_table;
pub use finding::{TablePlace, number_changed, table_changed};
pub use plain::plain_cell;
pub use rooms::room_for;
pub use side::Side;
