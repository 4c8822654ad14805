//! Where texts come from and go to: sources and sinks, as traits, so that a test can make each of them fail.
//! `FileSource`, `OutputSink` and, for one line and without memory, `LineSink` are those over std's readers and writers.
//! `read_whole` reads any source to its end in pieces of at most 4,096 bytes, and `write_whole` writes a text out, or a beginning of it and fails.
//! A device is blamed only for a failure of its own, which is counted, and refused memory is that of the device, of the piece or of the room.
//! `check_command` and `run_commands` depend on it, and so the program `rmmcheck`.
#![tactic(auto)]

mod file;
mod line_sink;
mod output;
mod sink;
mod source;
mod taker;
mod text;
mod until;

pub use file::FileSource;
pub use line_sink::LineSink;
pub use output::OutputSink;
pub use sink::{Sink, WriteError, write_whole};
pub use source::{ReadError, Source};
pub use taker::{Taker, read_whole};
pub use text::read_text;
pub use until::{Sated, read_until};
