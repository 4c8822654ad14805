//! Whether each of a realm's measurements has an order of its own calls, which is asked apart from all other calls.
//! It promises that a history has no linearization where it tells a return that no order of a register's calls survives.
//! Of each register the possibilities are kept that its calls may have come to, return by return. Where too many are possible, or RECs of one
//! granule are asked for by several realms, nothing is told of the register.
//! The search for an order depends on it.
#![tactic(auto)]

mod calls;
mod collecting;
mod cpus;
mod done;
mod ending;
mod fitting;
mod growing;
mod open_call;
mod opens;
mod owners;
mod possible;
mod returns;
mod same;
mod scan;
mod setting;
mod slots;

pub use history::History;
pub use scan::lost_register;
pub use slots::Asked;
