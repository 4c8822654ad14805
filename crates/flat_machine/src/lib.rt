//! A machine over hash maps of granules, tables and entries: a second one, beside which tests hold the specification machine.
//! It promises that each look-up of the rows is that of the flat state that the maps stand for, and that every call is safe.
//! Its changes are the definitions' read as code, function by function. No clause speaks of them as a whole: that they are the
//! definitions' is what the comparison of the two machines shows.
//! It decides by the same rows, and shares nothing with the cells, walks by links and changes of the other one.
//! Only tests stand on it.
#![tactic(auto)]

mod changes;
mod fault;
mod kept;
mod machine;
mod records;
mod sight;
mod two_machines;
mod updates;
mod walks;

pub use fault::FlatFault;
pub use machine::FlatMachine;
pub use two_machines::{Stepped, TwoMachines};
