//! The return that ends a history's first events, and those of calls.

ghost use Rattle.std.specs.Prelude.{◌≡◌, IfSome};
ghost use Rattle.slicing.specs.Calls.{IsLastReturn, IsReturn, events_to};

use crate::call_at::call_at;
use history::History;
use rmi_view::ReplyRef;
use rmm_spec::{Call, Event};

/// A return, with its call and the place at which that was made.
#[derive(Clone, Copy)]
pub(crate) struct LastReturn<'a> {
    pub(crate) called: u32,
    pub(crate) cpu: u8,
    pub(crate) number: u32,
    pub(crate) call: Call,
    pub(crate) reply: ReplyRef<'a>,
}

/// The last of the first events, so many, where that is a return.
pub(crate) fn last_return(history: &History, count: u32) -> Option<LastReturn<'_>>
    ensures { IfSome result (IsLastReturn history.now.recorded.events count) }
{
    let _fact = history.well_formed();
    let last = count.checked_sub(1)? as usize;
    if last >= history.len() {
        return None;
    }
    let Event::Returned { cpu, number, .. } = history.event(last) else {
        return None;
    };
    let reply = history.reply_at(last)?;
    let places = history.places_of(cpu, number)?;
    let command = history.command_at(places.called as usize)?;
    Some(LastReturn {
        called: places.called,
        cpu,
        number,
        call: command.call(),
        reply,
    })
}

/// The return of the call that is made at a place, where it is one of the first events, so many.
pub(crate) fn return_at(history: &History, count: u32, called: u32) -> Option<LastReturn<'_>>
    ensures is { IfSome result (IsReturn (events_to count history.now.recorded.events)) }
    ensures place { IfSome result (λ found. found.called ≡ called) }
{
    if called >= count || count as usize > history.len() {
        return None;
    }
    let call = call_at(history, count, called)?;
    let answer = call.answer?;
    Some(LastReturn {
        called,
        cpu: call.cpu,
        number: call.number,
        call: call.call,
        reply: answer.reply,
    })
}
