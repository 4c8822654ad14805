//! Calls of a history's first events, with what is looked at of each.

ghost use Rattle.std.specs.Prelude.{◌≡◌, ◌<◌, ◌≤◌, ℕ, length, IfSome, IfNone};
ghost use Rattle.history.specs.Calls.{ArePlacesOf};
ghost use Rattle.rmm_spec.specs.declared.command.Command.{Command};
ghost use Rattle.rmm_spec.specs.Linearization.{IsCalled};
ghost use Rattle.rmi_view.specs.Seen.{reply_seen};
ghost use Rattle.slicing.specs.Calls.{HasAnswer, IsCallAt, events_to};
ghost use Rattle.verdict_laws.specs.Slices.{shows_names};

use crate::kinds::is_looking;
use crate::plan::AFTER_ALL;
use history::{History, Places};
use rmi_view::ReplyRef;
use rmm_spec::{Call, FunctionId};

/// What a call returned with, and the place of the return.
#[derive(Clone, Copy)]
pub(crate) struct Answer<'a> {
    pub(crate) place: u32,
    pub(crate) reply: ReplyRef<'a>,
}

/// A call, with the place at which it was made.
#[derive(Clone, Copy)]
pub(crate) struct CallAt<'a> {
    pub(crate) place: u32,
    pub(crate) cpu: u8,
    pub(crate) number: u32,
    pub(crate) function: FunctionId,
    pub(crate) call: Call,
    pub(crate) answer: Option<Answer<'a>>,
}

impl<'a> CallAt<'a> {
    ghost use Rattle.std.specs.Prelude.{◌≡◌, false, IsTrue, MatchOption};
    ghost use Rattle.rmi_view.specs.Seen.{reply_seen};
    ghost use Rattle.rmm_spec.specs.Ownership.{is_accepted};
    ghost use Rattle.slicing.specs.Calls.{ChangesNothing, IsRefused, ShowsNames, back_of};

    /// The place of its return, or one after each of a history.
    pub(crate) fn back(&self) -> u32
        ensures { result ≡ back_of self.now }
    {
        match &self.answer {
            Some(answer) => answer.place,
            None => AFTER_ALL,
        }
    }

    /// Whether its reply, if it returned, shows what it names: what it needs of that comes before other refusals.
    pub(crate) fn shows_names(&self) -> bool
        ensures { IsTrue result → ShowsNames self.now }
    {
        match &self.answer {
            Some(answer) => shows_names(answer.reply),
            None => true,
        }
    }

    /// Whether it was refused.
    pub(crate) fn is_refused(&self) -> bool
        ensures { IsTrue result → IsRefused self.now }
    {
        match &self.answer {
            Some(answer) => !matches!(answer.reply, ReplyRef::Ok(_)),
            None => false,
        }
    }

    /// Whether it only looks, or was refused.
    pub(crate) fn changes_nothing(&self) -> bool
        ensures { IsTrue result → ChangesNothing self.now }
    {
        is_looking(self.function) || self.is_refused()
    }

    /// Whether it was carried out.
    pub(crate) fn is_done(&self) -> bool
        ensures { MatchOption self.now.answer (result ≡ false) (λ a. result ≡ is_accepted (reply_seen a.reply)) }
    {
        match &self.answer {
            Some(answer) => matches!(answer.reply, ReplyRef::Ok(_)),
            None => false,
        }
    }
}

/// Whether a reply shows that each granule which the call names has the tag that is needed there.
pub(crate) fn shows_names(reply: ReplyRef<'_>) -> bool
    ensures { result ≡ shows_names (reply_seen reply.entry) }
{
    match reply {
        ReplyRef::Ok(_) => true,
        ReplyRef::Err(status, _) => status != 1,
        ReplyRef::Misplaced => false,
    }
}

/// The call that is made at a place, where one is, as the first events show it, so many.
pub(crate) fn call_at(history: &History, count: u32, place: u32) -> Option<CallAt<'_>>
    requires within { count ≤ length history.now.recorded.events }
    requires place { place < count }
    ensures some { IfSome result (IsCallAt (events_to count history.now.recorded.events) place) }
    ensures none { IfNone result ((cpu number : ℕ) (command : Command)
        → ¬ IsCalled (events_to count history.now.recorded.events) place cpu number command) }
{
    let (cpu, number) = history.called_at(place as usize)?;
    let Some(command) = history.command_at(place as usize) else {
        unreachable!()
    };
    let Some(places) = history.places_of(cpu, number) else {
        unreachable!()
    };
    Some(CallAt {
        place,
        cpu,
        number,
        function: command.function,
        call: command.call(),
        answer: answer_at(history, count, cpu, number, places),
    })
}

/// What the call returned with, where it did so among the first events, so many.
fn answer_at(
    history: &History,
    count: u32,
    cpu: u8,
    number: u32,
    places: Places,
) -> Option<Answer<'_>>
    requires within { count ≤ length history.now.recorded.events }
    requires places { ArePlacesOf history.now.recorded.events cpu number places }
    ensures { HasAnswer (events_to count history.now.recorded.events) cpu number result }
{
    let _fact = history.well_formed();
    let place = places.returned?;
    if place >= count {
        return None;
    }
    let Some(reply) = history.reply_at(place as usize) else {
        unreachable!()
    };
    Some(Answer { place, reply })
}
