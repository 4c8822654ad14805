//! The definitions that every other crate is proved against, and the plain enums that they speak of.
//! Read `specs/` in the order of `specs/Lib.antt`: texts, the state, the commands' rows, runs, linearizations, owners.
//! It promises each function's number, a command's words by name and a refusal's reply; the laws over them are the crate `rmm_laws`.
//! After Arm's RMM specification 1.0 (DEN0137) as this project's profile restates it in `docs/PROFILE.md`.
//! Every crate of this repository depends on it.
#![tactic(auto)]

mod accepted;
mod call;
mod change;
mod command;
mod condition;
mod entry;
mod event;
mod function_id;
mod line;
mod measurement;
mod place;
mod refusal;
mod reply;
mod tag;
mod turn;
mod verdict;
mod version;
mod walked;

pub use accepted::{Accepted, Stretch, StretchUse};
pub use call::{Call, Removal};
pub use change::{Change, EntryChange, RealmChange, RealmUpdate, RecChange, RecUpdate, TagChange};
pub use command::Command;
pub use condition::Condition;
pub use entry::{Entry, EntryTest};
pub use event::Event;
pub use function_id::{FunctionId, FunctionRow};
pub use line::Line;
pub use measurement::Measurement;
pub use place::Place;
pub use refusal::Refusal;
pub use reply::Reply;
pub use tag::{RealmState, Ripas, Tag};
pub use turn::{Due, Will};
pub use verdict::{Reason, Verdict};
pub use version::Version;
pub use walked::Walked;
