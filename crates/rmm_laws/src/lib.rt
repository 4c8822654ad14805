//! The laws over the definitions of `rmm_spec`, and on wholes of cells: each is the contract of a public function that does nothing.
//! It promises that a command whose rows all hold meets what its change requires, and that each state of a run is sound, so that no default for a
//! missing record is ever read; that a reply decides the next state and some reply has one; that each run keeps every granule to at most one realm;
//! and that a well-shaped whole stands for a sound state, and each change that this state can take keeps the whole well shaped and is the same
//! change of the state. Laws are proved by kind of change; worked scripts are runs. The machine, the checker and the monitor's core depend on it.
#![tactic(auto)]

mod laws;
mod profile_laws;
mod shape_laws;
mod soundness;

pub use laws::{
    a_reply_exists, first_parts_are_runs, refusals_change_nothing, reply_decides,
    runs_are_isolated, undelegation_restores,
};
pub use profile_laws::{
    a_page_is_given_once, commands_keep_other_maps, fresh_root_covers_space,
    longer_stretches_are_no_runs, no_default_is_read, reach_is_the_walk, version_one_has_no_sha512,
    walks_begin_at_root, walks_end_unlinked, worked_scripts_are_runs,
};
pub use shape_laws::{accepted_commands_keep_shape, changes_keep_shape, well_shaped_is_sound};
pub use soundness::{
    accepted_changes_apply, changes_keep_sound, opening_is_sound, runs_are_sound, steps_keep_sound,
};
