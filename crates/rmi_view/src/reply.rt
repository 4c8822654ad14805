//! Replies, seen where their words lie.

use crate::words::owned;
use rmm_spec::{Refusal, Reply};

/// A reply whose words lie elsewhere.
#[derive(Clone, Copy)]
pub enum ReplyRef<'a> {
    /// The command was carried out, and gives these words.
    Ok(&'a [u64]),
    /// A status and its index.
    Err(u8, u8),
    /// Such a command isn't given where the CPU is.
    Misplaced,
}

impl<'a> ReplyRef<'a> {
    ghost use Rattle.std.specs.Prelude.{◌≡◌, ◌↔◌, IsTrue};
    ghost use Rattle.rmm_spec.specs.Rows.{reply_of};
    ghost use Rattle.rmi_view.specs.Seen.{HasFewWords, reply_seen};

    pub fn of(reply: &'a Reply) -> ReplyRef<'a>
        ensures seen { reply_seen result ≡ reply.now }
        ensures few { HasFewWords (reply_seen result) }
    {
        match reply {
            Reply::Ok(words) => ReplyRef::Ok(words.as_slice()),
            Reply::Err(status, index) => ReplyRef::Err(*status, *index),
            Reply::Misplaced => ReplyRef::Misplaced,
        }
    }

    /// What is answered for a refusal.
    pub fn refused(refusal: Refusal) -> ReplyRef<'a>
        ensures seen { reply_seen result ≡ reply_of refusal }
        ensures few { HasFewWords (reply_seen result) }
    {
        match refusal.status() {
            None => ReplyRef::Misplaced,
            Some((status, index)) => ReplyRef::Err(status, index),
        }
    }

    /// A reply of its own.
    pub fn to_reply(self) -> Reply
        requires { HasFewWords (reply_seen self) }
        ensures { result ≡ reply_seen self.entry }
    {
        match self {
            ReplyRef::Ok(words) => Reply::Ok(owned(words)),
            ReplyRef::Err(status, index) => Reply::Err(status, index),
            ReplyRef::Misplaced => Reply::Misplaced,
        }
    }

    /// Whether it is this reply.
    pub fn is(self, reply: &Reply) -> bool
        ensures { IsTrue result ↔ (reply_seen self.entry ≡ reply.now) }
    {
        match (self, reply) {
            (ReplyRef::Ok(given), Reply::Ok(words)) => given == words.as_slice(),
            (ReplyRef::Err(status, index), Reply::Err(other, at)) => {
                status == *other && index == *at
            }
            (ReplyRef::Misplaced, Reply::Misplaced) => true,
            _ => false,
        }
    }
}

ghost use Rattle.std.specs.Prelude.{◌≡◌};

/// The same reply once more.
pub fn copied_reply(reply: &Reply) -> Reply
    ensures { result ≡ reply.now }
{
    ReplyRef::of(reply).to_reply()
}
