//! What steps of the specification machine put something else in place of, kept so that they can be taken back, and compared.
//! It promises that a log leads back to where it led before the steps that it notes, and that a patch which is put in leads back itself.
//! Two patches that are found to be the same lead to one state, and two that are alike to one but for the realms' measurements.
//! Steps are the machine's own: a log only copies what a change is about to replace, and takes memory for that.
//! The search of orders depends on it.
#![tactic(auto)]

mod alike;
mod copies;
mod exchange;
mod logged;
mod noting;
mod patch;
mod same;
mod unmeasured;

pub use alike::{are_like, are_same};
pub use patch::Patch;
