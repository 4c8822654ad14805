//! Why a command is refused.

use crate::condition::Condition;
use crate::reply::Reply;

/// The condition that doesn't hold, under the status that is answered for it.
#[derive(Clone, Copy, PartialEq)]
pub enum Refusal {
    /// `misplaced`: such a command isn't given where the CPU is.
    Misplaced(Condition),
    /// RMI_ERROR_INPUT: the words, or what they name.
    Input(Condition),
    /// RMI_ERROR_REALM with an index: how far the realm has come.
    Realm(Condition, u8),
    /// RMI_ERROR_REC: what the REC is about.
    Rec(Condition),
    /// RMI_ERROR_RTT with a level: the table or entry that is in the way.
    Rtt(Condition, u8),
}

impl Refusal {
    ghost use Rattle.std.specs.Prelude.{◌≡◌};
    ghost use Rattle.rmm_spec.specs.Rows.{reply_of, replied};

    /// The status that is answered, and its index. A command that is misplaced has none.
    #[inline(always)]
    pub fn status(self) -> Option<(u8, u8)>
        ensures { replied result ≡ reply_of self }
    {
        match self {
            Refusal::Misplaced(_) => None,
            Refusal::Input(_) => Some((1, 0)),
            Refusal::Realm(_, index) => Some((2, index)),
            Refusal::Rec(_) => Some((3, 0)),
            Refusal::Rtt(_, level) => Some((4, level)),
        }
    }

    /// What is answered.
    pub fn reply(self) -> Reply
        ensures { result ≡ reply_of self }
    {
        match self.status() {
            None => Reply::Misplaced,
            Some((status, index)) => Reply::Err(status, index),
        }
    }
}
