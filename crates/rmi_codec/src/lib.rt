//! The texts of commands and replies, read: the parts of a line, numbers, readers, and lines that come in pieces.
//! It promises that a reader accepts exactly the texts of the grammar; `text_writers` has the inverse. Only the readers of `front.rt`, for
//! lines that aren't cut off yet, may refuse what the others accept. Of an unfinished line at most 256 bytes are kept, in the value itself:
//! no longer line is one of a history or a certificate (`proofs/LineLengths.antt`).
//! The grammar is in `rmm_spec`: `specs/Text.antt` and `specs/CommandText.antt`. Histories, certificates and recordings depend on it.
#![tactic(auto)]

mod command;
mod decimal;
mod fault;
mod front;
mod function;
mod head;
mod hex_front;
mod limited;
mod lines;
mod numeral;
mod parts;
mod reply;
mod spelled;
mod unfinished_line;
mod word;

pub use command::{command_from, read_command};
pub use decimal::decimal_from;
pub use fault::CodecFault;
pub use front::{command_at, err_at, head_at, ok_at};
pub use function::words_of;
pub use head::{Head, head_from};
pub use limited::number_below;
pub use lines::next_line;
pub use parts::Parts;
pub use reply::{read_reply, reply_from};
pub use rmm_spec::{Command, FunctionId, Reply};
pub use spelled::{has_text, reply_has_text};
pub use unfinished_line::{MOST_BYTES, UnfinishedLine};
pub use word::next_word;
