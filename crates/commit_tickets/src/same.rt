//! Commands and replies compared.

ghost use Rattle.std.specs.Prelude.{◌≡◌, ◌↔◌, IsTrue};
ghost use Rattle.rmi_view.specs.Seen.{command_seen, reply_seen};

use rmi_view::{CommandRef, ReplyRef};

pub(crate) fn is_same_command(command: CommandRef<'_>, other: CommandRef<'_>) -> bool
    ensures { IsTrue result ↔ (command_seen command.entry ≡ command_seen other.entry) }
{
    command.function == other.function && are_same_words(command.words, other.words)
}

pub(crate) fn is_same_reply(reply: ReplyRef<'_>, other: ReplyRef<'_>) -> bool
    ensures { IsTrue result ↔ (reply_seen reply.entry ≡ reply_seen other.entry) }
{
    match (reply, other) {
        (ReplyRef::Ok(words), ReplyRef::Ok(others)) => are_same_words(words, others),
        (ReplyRef::Err(status, index), ReplyRef::Err(other_status, other_index)) => {
            status == other_status && index == other_index
        }
        (ReplyRef::Misplaced, ReplyRef::Misplaced) => true,
        _ => false,
    }
}

fn are_same_words(words: &[u64], others: &[u64]) -> bool
    ensures { IsTrue result ↔ (words.now ≡ others.now) }
{
    words == others
}
