//! The granules of a running monitor, each behind a lock of its own, and the cells that a CPU holds.
//! It promises that a take adds one cell to what is held and a give removes that granule's alone, that what is held is
//! read and replaced by address, by the type of a cell that its granule's state and contents agree, and that `lock_for`
//! returns with what a command's plan asks for and `free_all` with nothing held, the cell taken last freed first. A take may wait
//! for another CPU, and what it promises holds where it returns; addresses are in bytes. `commit_tickets` and `monitor` depend on it.
#![tactic(auto)]

mod granule;
mod granules;
mod hold;
mod locking;

pub use granules::Granules;
pub use hold::Hold;
pub use locking::{free_all, lock_for};
