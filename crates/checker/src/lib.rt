//! Judges whether a certificate is a linearization of a recorded history of the machine.
//! It promises `Yes` exactly for a linearization, isolated after every step, else the first bad line or the first step that fails.
//! Real time is compared over all pairs of lines in the definition, and by one number, the latest call so far, in the code.
//! It trusts neither the monitor nor whoever wrote the certificate, and is linear in both texts.
//! What judges, explains and measures runs depends on it.
#![tactic(auto)]

mod failure;
mod judged;
mod judgement;
mod laws;
mod order;
mod replay;
mod report;
mod session;

pub use judged::{JudgedOrder, judged_order};
pub use judgement::check;
pub use laws::check_pieces;
pub use report::{VerdictLine, verdict_text};
pub use rmm_spec::{Reason, Verdict};
pub use session::Session;
