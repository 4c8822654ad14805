//! Replies, written as texts.

ghost use Rattle.std.specs.Prelude.{◌≡◌, ◌++◌, length, take, OnOk, OnErr, ◌≤◌, ◌<◌, ◌+◌, vec_len, vec_capacity};
ghost use Rattle.rmm_spec.specs.declared.reply.Reply.{Reply};
ghost use Rattle.rmm_spec.specs.CommandText.{reply_text};
ghost use Rattle.text_writers.specs.Beginning.{IsBeginning};

use crate::heads::push_numbers;
use crate::whole::all_or_nothing;
use crate::words::push_words;
use rmm_spec::Reply;
use std::alloc::AllocError;

// Appends a refusal.
#[tactic(auto, unfolding(rmm_spec::specs::CommandText::reply_parts))]
fn push_err(out: &mut Vec<u8>, status: u8, index: u8) -> Result<(), AllocError>
    ensures ok { OnOk result (out.new.items ≡ out.old.items ++ reply_text (Reply.Err status index)) }
    ensures kept { OnErr result (take (length out.old.items) out.new.items ≡ out.old.items) }
    ensures beginning { OnErr result (IsBeginning out.new.items (out.old.items ++ reply_text (Reply.Err status index))) }
    ensures full { OnErr result (vec_capacity out.old < vec_len out.old + length (reply_text (Reply.Err status index))) }
    ensures capacity { vec_capacity out.old ≤ vec_capacity out.new }
{
    out.extend_from_slice(b"err")?;
    push_numbers(out, u64::from(status), u64::from(index))
}

/// Appends a reply's text. Where memory is refused, a beginning of it may have been appended.
#[tactic(auto, using(std::proofs::lemmas::Grind::common_steps, crate::proofs::WriteLaws::writing), unfolding(rmm_spec::specs::CommandText::reply_parts))]
pub fn push_reply(out: &mut Vec<u8>, reply: &Reply) -> Result<(), AllocError>
    ensures ok { OnOk result (out.new.items ≡ out.old.items ++ reply_text reply.now) }
    ensures kept { OnErr result (take (length out.old.items) out.new.items ≡ out.old.items) }
    ensures beginning { OnErr result (IsBeginning out.new.items (out.old.items ++ reply_text reply.now)) }
    ensures full { OnErr result (vec_capacity out.old < vec_len out.old + length (reply_text reply.now)) }
    ensures capacity { vec_capacity out.old ≤ vec_capacity out.new }
{
    match reply {
        Reply::Ok(words) => {
            out.extend_from_slice(b"ok")?;
            push_words(out, words.as_slice())
        }
        Reply::Err(status, index) => push_err(out, *status, *index),
        Reply::Misplaced => out.extend_from_slice(b"misplaced"),
    }
}

/// Appends a reply's text, or nothing where memory is refused, which it is only where the buffer has no room for the text.
pub fn write_reply(reply: &Reply, out: &mut Vec<u8>) -> Result<(), AllocError>
    ensures ok { OnOk result (out.new.items ≡ out.old.items ++ reply_text reply.now) }
    ensures err { OnErr result (out.new.items ≡ out.old.items) }
    ensures full { OnErr result (vec_capacity out.old < vec_len out.old + length (reply_text reply.now)) }
{
    let start = out.len();
    let written = push_reply(out, reply);
    all_or_nothing(out, start, written)
}
