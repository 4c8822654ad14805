//! Puts an order of a history's calls together, event by event, as a guess at a linearization.
//! Nothing is promised of the order: whoever takes it has a machine give every reply once more.
//! A call stands where it returns, or earlier: where it changes nothing, where another call needs it for its reply, or where it is given its own.
//! Changes of a RIPAS, and extensions of a measurement, stand in an order that gives what was read; that of extensions is looked for by itself.
//! The search for an order depends on it.
#![tactic(auto)]

mod arrangement;
mod asked;
mod beginnings;
mod calls;
mod checkpoints;
mod claims;
mod draft;
mod entry_order;
mod first_parts;
mod guessed;
mod lanes;
mod looking_back;
mod moving;
mod nearness;
mod odds;
mod open_calls;
mod order;
mod placing;
mod precedence;
mod rec_order;
mod registers;
mod reordering;
mod replay;
mod ripas;
mod solving;
mod steps;
mod tries;
mod with_others;

pub use arrangement::arranged;
pub use calls::shares_word;
pub use claims::Claim;
pub use first_parts::FirstParts;
pub use guessed::{GuessedOrder, guess};
pub use order::{Arranged, Placed};
pub use registers::Unread;
pub use tries::Tries;
