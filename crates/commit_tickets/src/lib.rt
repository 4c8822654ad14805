//! The journal of all commits, and the tokens by which CPUs commit on the cells that they hold, in three parts of which one needs the
//! journal, at hand or behind a lock; nothing here waits. It promises that the journal is a run of the specification machine and its books that run's
//! last state, that a commit is a local step of what is held with its one entry's reply, or changes nothing and has its cause, that it
//! comes after all entries that its token was told of, that the journal has as many entries as all tokens list, and that `compare`
//! tells whether they are the same, CPU by CPU. `monitor` keeps one such journal behind a lock.
#![tactic(auto)]

mod audit;
mod committing;
mod draft;
mod entering;
mod fault;
mod journal;
mod journal_access;
mod laws;
mod listing;
mod meeting;
mod numbers;
mod opening;
mod same;
mod settling;
mod site;
mod token;
mod unlisted;

pub use committing::{Done, commit};
pub use draft::Draft;
pub use fault::CommitFault;
pub use journal::Journal;
pub use journal_access::JournalAccess;
pub use laws::a_commit_is_one_move;
pub use meeting::meet;
pub use numbers::Numbers;
pub use site::Site;
pub use token::CpuToken;
pub use unlisted::Unlisted;
