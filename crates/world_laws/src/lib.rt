//! The laws over the world of moves and turns, and on few held cells: each is the contract of a public function that does nothing.
//! It promises that, whatever CPUs do in whatever order, the journal of a run is a linearization of its history, its texts are judged `Yes`, its
//! realms are apart, and CPUs that wait only at rising takes never wait in a circle; and that a held table tells where a walk ends, so that what is
//! held settles a command and its change is a local step; and that for each condition of the shape there is a whole that breaks it.
//! The monitor's core, its locks, the queue of events and the world of turns depend on it.
#![tactic(auto)]

mod broken_realms;
mod broken_recs;
mod broken_tables;
mod certified_runs;
mod local_laws;
mod small_wholes;
mod small_worlds;
mod walks;
mod worlds;

pub use broken_realms::broken_realms_are_not_well_shaped;
pub use broken_recs::{broken_places_are_not_well_shaped, broken_recs_are_not_well_shaped};
pub use broken_tables::{
    broken_entries_are_not_well_shaped, broken_links_are_not_well_shaped,
    broken_pages_are_not_well_shaped, broken_roots_are_not_well_shaped,
    broken_tables_are_not_well_shaped,
};
pub use certified_runs::{certified_runs_pass, certified_worlds_are_isolated, programs_leave_room};
pub use local_laws::{
    delegations_are_local, input_refusals_are_local, local_on_any_hold,
    misplaced_commands_are_local,
};
pub use small_wholes::small_wholes_are_well_shaped;
pub use small_worlds::{
    a_stopped_cpu_keeps_its_lock, strays_circle, two_cpus_delegate_one_granule, word_order_circles,
};
pub use walks::{
    first_ends_are_reached, held_ends_settle, held_tables_tell_walks, misfit_walks_have_no_whole,
    realm_reads_are_told, settled_walks_are_local, table_changes_are_held,
};
pub use worlds::{
    a_lock_has_one_holder, every_run_is_certified, no_wait_cycle, stuck_behind_stopped,
};
