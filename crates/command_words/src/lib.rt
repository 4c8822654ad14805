//! What a command says by itself: who gives it, whether its words allow it, which granules it names with which tag, where it walks.
//! It promises the definitions' class, words, names and walk of every command, and the condition that fails where it isn't placed.
//! Each condition on words is one function, which the rows of commands and a report on them share.
//! Nothing here looks at a state, takes memory or waits.
//! The rows of commands and the plan of the monitor's locks stand on it.
#![tactic(auto)]

mod name_list;
mod names;
mod terms;
mod words;

pub use memory_map::is_page;
pub use name_list::{Name, Names};
pub use names::{is_tag, needed, one, two};
pub use rmi_view::{Caller, caller_of};
pub use rmm_spec::{Call, Tag};
pub use terms::{Terms, Way, caller_for, named, terms_of, way_of, words_allow};
pub use words::{algorithm_in, are_apart, is_aligned, is_host_page, is_space, is_width};
