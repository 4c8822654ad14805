//! What programs that read whole files and print a text have in common: arguments, files, faults, exit statuses, and their release.
//! It promises that `report_asked` and `search_asked` accept arguments exactly where `clap`'s own definition finds no fault in them and their
//! values fill one of a program's forms, and return what they ask for; that a fault ends a program by one table, that reading, writing and printing
//! report no fault but their own, that a history is read no further than its first bad line, and byte for byte what `--version` prints and how a
//! report ends. No clause says which bytes a file has, or what `rmmdraw` and `rmmmerge` are asked for. They, `rmmexplain` and `rmmfind` depend on it.
#![tactic(auto)]

mod arguments;
mod fault;
mod file;
mod files;
mod history_text;
mod judged;
mod keeping;
mod options;
mod parsing;
mod report;
pub mod rmmdraw;
pub mod rmmmerge;
mod search;
mod version;

pub use arguments::{arguments_of, shown};
pub use fault::{Fault, end};
pub use file::{history_at, judged_name};
pub use files::{bytes_of, print, write_file};
pub use history_text::HistoryRead;
pub use judged::{Judged, append_judged};
pub use options::{AROUND, Output};
pub use parsing::Refusal;
pub use report::{Report, report_asked};
pub use search::{LIMIT, Search, search_asked};
pub use version::{KIT, RULES, VERSION, version_text};
