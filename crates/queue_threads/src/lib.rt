//! Runs of the event queue on threads, for its bench and its tests: CPUs call, commit and return beside one that drains.
//! It promises that the history has what the scribe drained, so that both can go on; of how many calls are recorded it promises
//! nothing. The commits lie behind a lock, as a monitor's journal does. Calls here may wait for other threads and promise where they
//! return.
//! `bench` and `thread_tests` depend on it.
#![tactic(auto)]

mod kept;
mod recording;

pub use recording::{Calls, record_beside};
