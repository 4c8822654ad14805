//! Certificates: the order in which a run's calls are claimed to have taken effect.
//! It promises that a text is read as the lines that it states, on the grammar in `specs/CertificateText.antt` of `rmm_spec`, or as its first bad
//! line, in one pass, whole or in pieces; `text_writers` has the inverse.
//! A line takes 8 bytes and no allocation of its own; the rare unfinished line keeps its number and its reply beside.
//! The checker, the world and the monitor depend on it.
#![tactic(auto)]

mod beginning;
mod certificate;
mod fault;
mod laws;
mod reader;
mod spelled;

pub use certificate::{Certificate, LineRef, MOST_LINES};
pub use fault::CertFault;
pub use laws::read_pieces;
pub use reader::{Reader, read};
pub use rmm_spec::{Line, Reply};
