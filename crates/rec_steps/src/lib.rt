//! What a command makes of a REC and its realm where the REC runs or is to run: REC_ENTER, the realm calls and Exit.
//! It promises that each answer and each change is a step of the definitions, in every state that holds the two records.
//! A refusal is the definitions', names the condition that fails, and leaves both records as they were.
//! Nothing here takes memory, waits or looks at a table: the RIPAS of an entry is handed in by whoever walked to it.
//! The rows of commands and the machine stand on the answers. `enter`, `realm_call`, `exit` and `walks` make such steps for other users.
#![tactic(auto)]

mod entering;
mod inside;
mod ipa_state;
mod leaving;
mod measurement;
mod realm_config;
mod reply;
mod step;

pub use entering::{answer_to_enter, enter};
pub use inside::{
    answer_inside, answer_to_call, extension_inside, realm_call, walked_address, walks,
};
pub use leaving::{answer_to_exit, exit};
pub use measurement::Extension;
pub use realm_desc::{Realm, Rec};
pub use rmm_spec::{Accepted, Call, Command, Condition, Refusal, Reply, Ripas};
pub use step::RecStep;
