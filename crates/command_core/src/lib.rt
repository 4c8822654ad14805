//! The monitor's core: what a CPU does with the granules that it holds. Nothing here waits; addresses are in bytes.
//! It promises that held cells are read and replaced by address; what a CPU does next for a command, whatever it holds: it takes a
//! lock at a rising take, frees one, or is ready to commit; and that the reply and the change that it is then given, also where that was
//! done without the side table and this bears it out, are a step of the machine, whatever the other cells are, made with memory taken before.
//! The world of turns and the monitor's threads depend on it.
#![tactic(auto)]

mod applying;
mod bearing_out;
mod deciding;
mod furthest;
mod held_pairs;
mod held_sight;
mod held_store;
mod held_tables;
mod laws;
mod making;
mod misfits;
mod next;
mod planning;
mod rooms;
mod settling;
mod taking;
mod unshaped;
mod walks;
mod ways;

pub use applying::{apply, apply_aside, apply_held};
pub use bearing_out::bears_out;
pub use deciding::{answer, decide, foresee};
pub use granule_cells::{Cell, CpuPlace, Descriptor, Room, Side, room_for};
pub use held_pairs::HeldPairs;
pub use laws::{
    answers_are_local, applied_decisions_are_local, settled_commands_are_ready, tested_takes_rise,
    unshaped_cells_have_no_whole,
};
pub use next::Next;
pub use planning::{next_lock, next_step};
pub use rmm_spec::Change;
pub use rooms::room;
