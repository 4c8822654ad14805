//! A report as one HTML page with a diagram: a lane for each CPU, a bar for each call, a numbered mark for each step, and texts folded away.
//! It promises that a page is appended whole or not at all; that its title and headline are the verdict's line, with no text between them
//! in its style; that the rest are the program's own pieces of markup, numbers in decimals and escaped texts, whatever the history holds, so that no
//! text opens or closes a tag; and that it ends with the report's text, escaped, and the end that was given.
//! A page holds no script and names no other file. The program `rmmexplain` depends on it.
#![tactic(auto)]

mod bars;
mod calls;
mod escaping;
mod focus;
mod growing;
mod head;
mod kind;
mod lanes;
mod laws;
mod links;
mod marks;
mod own;
mod page;
mod picture;
mod report_lines;
mod shapes;
mod steps;
mod strip;
mod view;
mod window;

pub use growing::{Markup, Page};
pub use kind::is_page;
pub use laws::{escaped_plain, own_pieces_mark_up};
pub use page::{Extent, Fold, append_page};
