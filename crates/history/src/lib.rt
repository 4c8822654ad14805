//! What is recorded of a run: the calls and returns of every CPU, in the order of time.
//! It promises that a text is read as the history that it states, on the grammar in `specs/HistoryText.antt` of `rmm_spec`, or as its first bad
//! line, however it is cut; `text_writers` has the inverse.
//! A call is found by its CPU and number in constant time, and `fits` is the test that `push` asks for.
//! Growth that is refused memory leaves what was recorded, and a push after `make_room` is never refused.
//! The checker, the world and the recorder of events depend on it.
#![tactic(auto)]

mod beginning;
mod entry;
mod event_ref;
mod events;
mod fault;
mod history;
mod laws;
mod line;
mod reader;
mod reading;
mod subhistory;

pub use event_ref::EventRef;
pub use events::Events;
pub use fault::HistoryFault;
pub use history::{Answer, Call, History, MOST_LINES, Places};
pub use laws::read_pieces;
pub use memory_map::Config;
pub use reader::{Reader, read};
pub use rmm_spec::{Command, Event, Reply};
