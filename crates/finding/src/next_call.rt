//! Calls that may come next, as they are looked at beside each other.

ghost use Rattle.std.specs.Prelude.{◌≡◌, ◌<◌, ℕ, IfSome};
ghost use Rattle.history.specs.Calls.{ArePlacesOf};
ghost use Rattle.rmm_spec.specs.Linearization.{IsReturned};
ghost use Rattle.rmi_view.specs.Seen.{reply_seen};
ghost use Rattle.finding.specs.Front.{IsFront};
ghost use Rattle.finding.specs.Next.{AreOpenCalls, IsNextFound};

use crate::choice::{Choice, cpus_of};
use crate::front::Front;
use history::History;
use rmi_view::ReplyRef;
use rmm_spec::Call;

/// The next call of a CPU, and what it returned with, where it did.
#[derive(Clone, Copy)]
pub(crate) struct NextCall<'a> {
    pub(crate) choice: Choice,
    pub(crate) call: Call,
    pub(crate) reply: Option<ReplyRef<'a>>,
}

impl<'a> NextCall<'a> {
    ghost use Rattle.std.specs.Prelude.{IsTrue};
    ghost use Rattle.finding.specs.Next.{IsCarriedOut};

    /// Whether it has returned as one that was carried out.
    pub(crate) fn is_carried_out(&self) -> bool
        ensures { IsTrue result → IsCarriedOut self.now }
    {
        match self.reply {
            Some(ReplyRef::Ok(_)) => true,
            _ => false,
        }
    }
}

/// The next call of each CPU that has one which was made before the place.
pub(crate) fn open_calls<'a>(
    history: &'a History,
    front: &Front,
    place: u32,
) -> [Option<NextCall<'a>>; 8]
    requires { IsFront history.now.recorded front.now }
    ensures { AreOpenCalls history.now.recorded front.now.counts place result }
{
    let mut calls = [None; 8];
    for cpu in 0..cpus_of(history) {
        calls[cpu as usize] = next_call(history, front, cpu, place);
    }
    calls
}

/// The next call of a CPU, where it has one that was made before the place.
fn next_call<'a>(history: &'a History, front: &Front, cpu: u8, place: u32) -> Option<NextCall<'a>>
    requires front { IsFront history.now.recorded front.now }
    requires cpu { cpu < history.now.recorded.config.cpus }
    ensures { IsNextFound history.now.recorded front.now.counts place cpu result }
{
    let Some(choice) = front.next(history, cpu) else {
        return None;
    };
    if choice.places.called >= place {
        return None;
    }
    let Some(command) = history.command_at(choice.places.called as usize) else {
        unreachable!()
    };
    Some(NextCall {
        choice,
        call: command.call(),
        reply: reply_to(history, choice),
    })
}

/// What a call returned with, where it did.
fn reply_to(history: &History, choice: Choice) -> Option<ReplyRef<'_>>
    requires { ArePlacesOf history.now.recorded.events choice.cpu choice.number choice.places }
    ensures { IfSome result (λ reply. (place : ℕ)
        × IsReturned history.now.recorded.events place choice.cpu choice.number (reply_seen reply)) }
{
    let returned = choice.places.returned?;
    history.reply_at(returned as usize)
}
