//! A recording as a history and a certificate: a recorder's events in the order of their stamps, and its granules by names.
//! It promises that events are read exactly (`specs/Events.antt`), in one pass over lines in any order; that a granule's name is 4,096 times
//! the number of its address among those that came first, and no two get one; which events and lines the two texts have (`specs/Run.antt`), that both
//! are in their grammars, and that a refusal has its cause. A commit is kept where its call returned. Of an output that fails both hold a beginning.
//! An event takes 12 bytes, and 8 more for each word of its command or reply. The program `rmmmerge` depends on it.
#![tactic(auto)]

mod cpu;
mod event_fault;
mod fault;
mod lasts;
mod laws;
mod line;
mod lines;
mod map;
mod merged;
mod moment;
mod names;
mod naming;
mod output;
mod reader;
mod reading;
mod renaming;
mod roles;
mod run;
mod slot;
mod source;
mod table;
mod texts;
mod walk;
mod writing;

pub use event_fault::EventsFault;
pub use fault::{MergeFault, Refusal, WriteFault};
pub use lasts::Lasts;
pub use laws::{command_granules, each_is_named, names_differ, pages_differ};
pub use map::map_text;
pub use merged::Extent;
pub use moment::{HappenedRef, MomentRef};
pub use names::{Limits, MOST_NAMES, NameFault, Names};
pub use output::{Failed, Output};
pub use reader::Reader;
pub use renaming::renamed_slot;
pub use rmm_spec::Version;
pub use roles::Role;
pub use run::Run;
pub use source::{SourceFault, merge_source};
pub use table::{EventTable, MOST_EVENTS};
pub use texts::{Asked, Renaming, TextFault};
