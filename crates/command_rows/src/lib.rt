//! What each command is answered: its rows, in their order, over whatever can look up what they read.
//! It promises the definitions' answer in the state that a `Sight` stands for: what is done, or a refusal by the name of the first row
//! that fails; of VMIDs and RECs it says what the sight tells. A row stands once in code, but that the machine lends granules and steps
//! a REC's own calls in place, by the same definitions. What a command changes is a value: nothing here makes it, takes memory or waits.
//! The specification machine and the core of the monitor decide by it.
#![tactic(auto)]

mod data;
mod granule;
mod inside;
mod outside;
mod reached;
mod realm;
mod rec;
mod reply;
mod ripas;
mod sight;
mod table;
mod unprotected;

pub use inside::answer_inside;
pub use outside::answer_outside;
pub use reached::reached_change;
pub use realm_desc::{Realm, Rec};
pub use reply::{accepted_at, done, done_with, told};
pub use rmm_spec::{Accepted, Call, Condition, Refusal, Tag, Walked};
pub use sight::Sight;
