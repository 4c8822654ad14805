//! One translation table, 512 entries and the place where it stands, and the walk over tables by links (DEN0137, RTT, RTT entry and RTT walk).
//! It promises that a table stands at a place that a realm's table can have; that each method acts on the list of entries as its contract
//! says, and on nothing else; and that following links, over any tables that meet `Cells`, ends at the table and entry of a realm's flat
//! tables and leaves, wherever a walk may start.
//! Only making a table takes memory, and nothing here waits. Addresses are in bytes; level 0 is the highest and level 3 has pages.
//! The cells of granules, the machine and the monitor's core stand on it.
#![tactic(auto)]

mod cells;
mod columns;
mod kind;
mod links;
mod table;
mod unplaced;

pub use cells::Cells;
pub use links::{Reached, walk};
pub use rmm_spec::{Entry, Place, Ripas};
pub use table::{Table, index_of};
pub use unplaced::Unplaced;
