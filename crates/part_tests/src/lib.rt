//! Nothing but tests that need no thread: of what low crates do with values, and of worlds that turn.
//! Their expected values come from the formats, the profile and standards, worked out by hand or by another program, never from our output.
//! They show that calls with enough memory succeed, and that a push after `make_room` is never refused. `worlds` has runs of two CPUs, `plans`,
//! `tables` and `decisions` what a CPU does next and is answered, `walks` ends of walks. What only compares texts is data of the program `cases`.
//! It depends on the crates that it tests, and nothing depends on it: a crate with tests is proved twice, so they stand apart.
#![tactic(auto)]

#[cfg(test)]
mod certificates;
#[cfg(test)]
mod codec;
#[cfg(test)]
mod decisions;
#[cfg(test)]
mod descriptors;
#[cfg(test)]
mod granules;
#[cfg(test)]
mod held_cells;
#[cfg(test)]
mod histories;
#[cfg(test)]
mod lines;
#[cfg(test)]
mod measurements;
#[cfg(test)]
mod opening;
#[cfg(test)]
mod pages;
#[cfg(test)]
mod pieces;
#[cfg(test)]
mod plans;
#[cfg(test)]
mod printed;
#[cfg(test)]
mod recs;
#[cfg(test)]
mod scenario_reading;
#[cfg(test)]
mod scenario_writing;
#[cfg(test)]
mod table_entries;
#[cfg(test)]
mod tables;
#[cfg(test)]
mod unshaped;
#[cfg(test)]
mod walking;
#[cfg(test)]
mod walks;
#[cfg(test)]
mod worlds;
