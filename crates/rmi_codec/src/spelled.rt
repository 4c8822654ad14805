//! Which commands and replies have a text.

ghost use Rattle.std.specs.Prelude.{◌↔◌, IsTrue};
ghost use Rattle.rmm_spec.specs.CommandText.{AreWords, IsCommand, IsReply};

use crate::function::words_of;
use rmm_spec::{Command, Reply};

// Numbers of 64 bits are words.
fn are_words(words: &[u64])
    ensures { AreWords words.now }
{
    let _fact = words;
}

/// Whether a command has a text: whether it has as many words as its function takes.
pub fn has_text(command: &Command) -> bool
    ensures { IsTrue result ↔ IsCommand command.now }
{
    let _fact = are_words(command.words.as_slice());
    command.words.len() == words_of(command.function)
}

/// Every reply has a text.
pub fn reply_has_text(reply: &Reply)
    ensures { IsReply reply.now }
{
    match reply {
        Reply::Ok(words) => are_words(words.as_slice()),
        Reply::Err(status, index) => {
            let _fact = (*status, *index);
        }
        Reply::Misplaced => {}
    }
}
