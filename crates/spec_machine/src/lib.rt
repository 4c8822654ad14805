//! The specification machine as a program: a cell for each granule, decided on by the rows of commands, and changed by what they accept.
//! It promises to accept an offer exactly where the definitions have a step, unless memory is refused, and then to hold the next state.
//! An offer that isn't accepted leaves the state as it was. Only `new`, made tables and copies take memory.
//! What a clause sees of it is `state_of`, a flat state that its cells stand for; tables are found by links, as a monitor finds them.
//! The checker, the journal of commits, the search of orders and the logs of its steps depend on it.
#![tactic(auto)]

mod beside_changes;
mod cell_list;
mod change;
mod copies;
mod granule_places;
mod granules;
mod inside;
mod lending;
mod machine;
mod near;
mod places;
mod reaching;
mod reply;
mod searches;
mod sight;
mod slot;
mod slot_list;
mod walks;

pub use cell_list::CellList;
pub use granule_cells::{Cell, CpuPlace, Side};
pub use granules::Granules;
pub use machine::Machine;
pub use places::Places;
pub use reply::{is_ok, is_refusal, only_word};
pub use rmm_spec::{Accepted, Command, FunctionId, Reply};
