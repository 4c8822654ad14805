//! Histories in which no measurement is read: each reading of one is an extension of one, which is given where the reading is.

ghost use Rattle.std.specs.Prelude.{◌≡◌, ◌<◌, ℕ, false, length, slice_get, IfOk, IfSome, IsTrue, Some};
ghost use Rattle.rmm_spec.specs.declared.command.Command.{Command};
ghost use Rattle.rmm_spec.specs.declared.event.Event.{Event};
ghost use Rattle.rmm_spec.specs.Linearization.{IsCalled};
ghost use Rattle.verdict_laws.specs.Unread as spec;
ghost use Rattle.verdict_laws.specs.Unread.{IsUnread, IsUnreadEvent, ReadsNothing};

use arrayvec::ArrayVec;
use history::History;
use rmm_spec::{Command, Event, FunctionId, Reply};
use std::alloc::{AllocError, Global};

/// How many registers of a realm can be read, counted from 0.
const REGISTERS: u64 = 5;

/// How many words of values an extension has.
const VALUES: usize = 8;

/// The history without readings of measurements. Where a history has no room for it, there is none.
pub(crate) fn unread(alloc: Global, history: &History) -> Result<Option<History>, AllocError>
    ensures { IfOk result (λ unread. IfSome unread (λ u. IsUnread history.now.recorded u.recorded)) }
{
    let mut unread = History::new(alloc, history.config());
    'places: for place in 0..history.len() {
        let Some(event) = unread_event(history, place) else {
            return Ok(None);
        };
        if !unread.fits(&event) || !unread.has_room() {
            return Ok(None);
        }
        unread.push(event)?;
    }
    Ok(Some(unread))
}

/// The event at a place, with another command and another reply where its call reads a measurement.
fn unread_event(history: &History, place: usize) -> Option<Event>
    requires { place < length history.now.recorded.events }
    ensures { IfSome result (λ unread. (event : Event) → slice_get history.now.recorded.events place ≡ Some event
        → IsUnreadEvent history.now.recorded.events event unread) }
{
    match history.event(place) {
        Event::Called {
            cpu,
            number,
            command,
        } => Some(Event::Called {
            cpu,
            number,
            command: unread_command(command),
        }),
        Event::Returned { cpu, number, reply } => {
            let call = history.call_of(cpu, number)?;
            Some(Event::Returned {
                cpu,
                number,
                reply: unread_reply(&call.command, reply),
            })
        }
    }
}

fn unread_command(command: Command) -> Command
    ensures { result ≡ spec.unread_command command }
{
    if !is_reading(&command) {
        return command;
    }
    match command.words.as_slice().first() {
        Some(index) => extension_for(*index),
        None => extension_for(0),
    }
}

fn unread_reply(command: &Command, reply: Reply) -> Reply
    ensures { result ≡ spec.unread_reply command.now reply }
{
    match reply {
        Reply::Ok(_) if is_reading(command) => Reply::Ok(ArrayVec::new()),
        reply => reply,
    }
}

/// The extension in place of the reading of a register.
fn extension_for(index: u64) -> Command
    ensures { result ≡ spec.extension_for index }
{
    let register = if index < REGISTERS { 1 } else { index };
    let mut words = ArrayVec::new();
    words.push(register);
    words.push(1);
    for _value in 0..VALUES {
        words.push(0);
    }
    Command {
        function: FunctionId::MeasurementExtend,
        words,
    }
}

fn is_reading(command: &Command) -> bool
    ensures { result ≡ spec.is_reading command.now }
{
    matches!(command.function, FunctionId::MeasurementRead)
}

/// Whether no call of the history reads a measurement.
pub(crate) fn reads_nothing(history: &History) -> bool
    ensures { IsTrue result → ReadsNothing history.now.recorded.events }
{
    for place in 0..history.len() {
        if reads_at(history, place) {
            return false;
        }
    }
    true
}

/// Whether the event at a place is a call that reads a measurement.
fn reads_at(history: &History, place: usize) -> bool
    requires { place < length history.now.recorded.events }
    ensures { result ≡ false → (cpu number : ℕ) (command : Command) → IsCalled history.now.recorded.events place cpu number command
        → spec.is_reading command ≡ false }
{
    match history.command_at(place) {
        Some(command) => matches!(command.function, FunctionId::MeasurementRead),
        None => false,
    }
}
