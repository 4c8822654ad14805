//! Replies compared in place.

ghost use Rattle.std.specs.Prelude.{◌≡◌, ◌≢◌, ◌↔◌, ℕ, IsTrue, IfSome, IfNone, [], ◌∷◌};
ghost use Rattle.rmm_spec.specs.declared.reply.Reply.TheVariants as answer;
ghost use Rattle.rmm_spec.specs.Rows as rows;
ghost use Rattle.rmi_view.specs.Seen.{reply_seen};

use arrayvec::ArrayVec;
use rmi_view::ReplyRef;
use rmm_spec::Refusal;

/// Whether a word, or what it names, was found not to fit the command.
pub fn is_input_error(reply: ReplyRef<'_>) -> bool
    ensures { IsTrue result ↔ (reply_seen reply.entry ≡ rows.input_error) }
{
    matches!(reply, ReplyRef::Err(1, 0))
}

/// Whether it is what is answered for the refusal.
pub fn is_refusal(reply: ReplyRef<'_>, refusal: Refusal) -> bool
    ensures { IsTrue result ↔ (reply_seen reply.entry ≡ rows.reply_of refusal) }
{
    match refusal.status() {
        None => matches!(reply, ReplyRef::Misplaced),
        Some((status, index)) => is_error(reply, status, index),
    }
}

// Whether it has this status and index.
fn is_error(reply: ReplyRef<'_>, status: u8, index: u8) -> bool
    ensures { IsTrue result ↔ (reply_seen reply.entry ≡ answer.Err status index) }
{
    matches!(reply, ReplyRef::Err(given, at) if given == status && at == index)
}

/// Whether the command was carried out and gave no words.
pub fn is_done(reply: ReplyRef<'_>) -> bool
    ensures { IsTrue result ↔ (reply_seen reply.entry ≡ rows.ok []) }
{
    matches!(reply, ReplyRef::Ok(given) if given.is_empty())
}

/// Whether the command was carried out and gave these words.
pub fn is_ok(reply: ReplyRef<'_>, words: &ArrayVec<u64, 10>) -> bool
    ensures { IsTrue result ↔ (reply_seen reply.entry ≡ answer.Ok words.now) }
{
    matches!(reply, ReplyRef::Ok(given) if given == words.as_slice())
}

/// The word of a reply that has one, and no other reply's.
pub fn only_word(reply: ReplyRef<'_>) -> Option<u64>
    ensures found { IfSome result (λ word. reply_seen reply.entry ≡ rows.ok (word ∷ [])) }
    ensures none { IfNone result ((word : ℕ) → reply_seen reply.entry ≢ rows.ok (word ∷ [])) }
{
    let ReplyRef::Ok(words) = reply else {
        return None;
    };
    match words {
        [word] => Some(*word),
        _ => None,
    }
}
