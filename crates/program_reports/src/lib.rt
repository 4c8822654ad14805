//! Reports for programs: an explanation of a verdict as one JSON object, or as lines `FILE:LINE: error: ..` for editors.
//! It promises that an object is one line of JSON text, by the reader of the kit's JSON crate, and that nothing is appended where memory is
//! refused. Objects are built member by member, in the order of their names, and say beforehand how deep they nest. Their members are those of
//! the schema that `rmmexplain`(1) and `rmmfind`(1) document; a change of one raises the schema's number.
//! What is true of an explanation is the contract of whoever made it, as `explain` says. `rmmexplain` and `rmmfind` depend on it.
#![tactic(auto)]

mod answer;
mod call;
mod cause;
mod explanation;
mod fact;
mod lines;
mod list;
mod object;
mod reply;
mod since;

pub use answer::{Answer, append_answer};
pub use explanation::append_json;
pub use lines::{Paths, append_lines};
pub use list::List;
pub use object::Object;
