//! Nothing but tests: of what CPUs on threads share, and of the program `rmmcheck` on a runtime of the tests.
//! Expected lines come from outside, worked out by hand from the profile. `locked`, `recorded` and `tickets` are of what stands below the
//! monitor; `gated`, `meeting` and `printed` of the monitor; `outcomes`, `plays` and `failing_devices` of the program.
//! That a thread gets through, that two commands are under way at once, and that a holder keeps others out, no clause says.
//! Nothing depends on it. Runs on one thread with stated answers are rows of the program `refused_memory`.
#![tactic(auto)]

#[cfg(test)]
mod cpu;
#[cfg(test)]
mod failing_devices;
#[cfg(test)]
mod gated;
#[cfg(test)]
mod locked;
#[cfg(test)]
mod meeting;
#[cfg(test)]
mod outcomes;
#[cfg(test)]
mod plays;
#[cfg(test)]
mod printed;
#[cfg(test)]
mod recorded;
#[cfg(test)]
mod runtime;
#[cfg(test)]
mod tickets;
