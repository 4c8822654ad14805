//! A line of a call that may come next.

ghost use Rattle.std.specs.Prelude.{◌≡◌};
ghost use Rattle.rmm_spec.specs.declared.line.Line.TheVariants as line;

use crate::choice::Choice;
use rmi_view::copied_reply;
use rmm_spec::{Line, Reply};

/// A call that may come next, and its line.
#[derive(Drop)]
pub(crate) struct Candidate {
    pub(crate) choice: Choice,
    pub(crate) line: Line,
}

/// The line of a call with the reply that it returned with.
pub(crate) fn with_its_reply(choice: Choice) -> Candidate
    ensures choice { result.choice ≡ choice }
    ensures line { result.line ≡ line.Keep choice.cpu choice.number }
{
    Candidate {
        choice,
        line: Line::Keep {
            cpu: choice.cpu,
            number: choice.number,
        },
    }
}

/// The line of a call that hasn't returned, with a reply that it is claimed to have been given.
pub(crate) fn with_claim(choice: Choice, reply: &Reply) -> Candidate
    ensures choice { result.choice ≡ choice }
    ensures line { result.line ≡ line.Unfinished choice.cpu choice.number reply.now }
{
    Candidate {
        choice,
        line: Line::Unfinished {
            cpu: choice.cpu,
            number: choice.number,
            reply: copied_reply(reply),
        },
    }
}
