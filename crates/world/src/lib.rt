//! The world of turns: CPUs that carry out their programs over shared granules, one turn at a time, as a value.
//! It promises that each turn is a step of the definitions, `specs/Waits.antt` of `rmm_spec`, and to one world,
//! `specs/TurnedWorld.antt`; that memory is refused only to a step that records something, and then changes nothing; so every
//! world is certified, and no CPUs wait in a circle.
//! Nothing here waits, and a turn's cost grows neither with the run nor with the machine. Addresses are in bytes.
//! `world_runs` depends on it.
#![tactic(auto)]

mod calling;
mod cells;
mod committing;
mod cpus;
mod journal;
mod lent;
mod locking;
mod locks;
mod opening;
mod phase;
mod returning;
mod stepping;
mod telling;
mod turned;
mod turning;
mod world;

pub use rmm_spec::Will;
pub use turned::{Kind, Turned};
pub use world::World;
pub use world_laws::{every_run_is_certified, no_wait_cycle, stuck_behind_stopped};
