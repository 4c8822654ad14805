//! Finds an order of a history's calls that is a linearization, from the history alone, or that there is none.
//! It promises that the order found is a linearization, and that where none is told no certificate at all is one, nor of the events up to the
//! place that is told. It takes a guess first, then slices up to the return that the guess doesn't explain, and else looks return by return, up to
//! there and then at all: at each measurement's own calls, then at the orders that are possible still, with no measurement read and as they are. It
//! keeps few of them at first, and more where it left some out. It gives up only where it has tried as many steps as it may, or whoever follows it
//! said so. The program `rmmfind` depends on it.
#![tactic(auto)]

mod alike;
mod allowed;
mod apart;
mod attempt;
mod begun;
mod beside;
mod candidate;
mod choice;
mod claims;
mod ending;
mod ends;
mod finding;
mod first_part;
mod forward;
mod front;
mod going;
mod group;
mod group_lines;
mod guessed;
mod judging;
mod last;
mod left;
mod lines;
mod longer;
mod naming;
mod next_call;
mod next_line;
mod offering;
mod offers;
mod only;
mod passing;
mod refused;
mod round;
mod scope;
mod separate;
mod settled;
mod shelved;
mod slices;
mod survey;
mod survivors;
mod suspecting;
mod told;
mod trail;
mod unread;
mod watch;

pub use certificate::Certificate;
pub use finding::{Found, find, find_watched};
pub use history::History;
pub use offers::Offers;
pub use survivors::{longest_order, orders_before};
pub use told::{append_found, status_of};
pub use watch::{Advance, Unwatched, Watch};
