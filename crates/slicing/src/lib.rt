//! Slices of a history: the calls on which one of its returns depends.
//! It promises that the events up to the return have no order where the slice has none, nor where its reply isn't given where its CPU is
//! (`placing`), nor where facts that earlier calls made deny it, in whichever order two calls come (`denied`).
//! Which calls are kept is chosen without a promise, backwards from the return (`keeping`), and then checked call by call (`cut`).
//! Where a granule's first kept call needs it unused, or calls that aren't kept left it so (`unused`), what was done with it before is left out.
//! The search for an order looks at slices first, so that it needn't go through all that came before.
#![tactic(auto)]

mod beside;
mod call_at;
mod cut;
mod denied;
mod denying;
mod denying_recs;
mod done;
mod early;
mod either_way;
mod elsewhere;
mod ending;
mod entered;
mod given_back;
mod giving;
mod giving_recs;
mod held;
mod keeping;
mod kinds;
mod last_return;
mod latest;
mod latest_recs;
mod leaving;
mod left;
mod links;
mod making;
mod making_recs;
mod needing;
mod numbering;
mod placing;
mod plan;
mod replying;
mod slice;
mod sources;
mod standing;
mod supposing;
mod supposing_recs;
mod supposing_ripas;
mod together;
mod turns;
mod unused;
mod window;

pub use denied::is_denied;
pub use given_back::freed;
pub use history::History;
pub use keeping::Depth;
pub use placing::is_out_of_place;
pub use slice::slice_of;
