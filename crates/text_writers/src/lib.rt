//! Commands, replies, histories and certificates, written as texts.
//! It promises that a function named `write_` appends a text whole or not at all, and one named `push_`, where memory is refused, a
//! beginning of it; that what is written reads back as it was, and that what was read is written as it was, byte for byte: readers and
//! writers are inverse on the grammars. Memory is refused only where a buffer has no room for the text.
//! A check writes none, so it doesn't depend on it. Recordings, runs, scenarios, searches, reports and tests do.
#![tactic(auto)]

mod certificates;
mod commands;
mod heads;
mod histories;
mod laws;
mod numbers;
mod replies;
mod whole;
mod words;

pub use certificates::write_certificate;
pub use commands::{push_command, write_command};
pub use heads::{push_head, push_numbers};
pub use histories::write_history;
pub use laws::{
    certificate_reads_back, history_reads_back, rewritten_certificate, rewritten_history,
};
pub use numbers::push_decimal;
pub use replies::{push_reply, write_reply};
