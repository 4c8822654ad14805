//! Lines, read to a history.

ghost use Rattle.std.specs.Prelude.{◌≡◌, ◌≢◌, ◌+◌, ◌<◌, ℕ, List, [], ◌∷◌, ◌++◌, ◌≤◌, length, take, false, Err, IsTrue, IfOk, IfErr, IfSome, IfNone, OnOk, OnErr};
ghost use Rattle.rmi_codec.specs.Head.{head_text};
ghost use Rattle.rmm_spec.specs.HistoryText.{IsEvent, history_text};
ghost use Rattle.rmm_spec.specs.Text.{HasNoNewline, parts_of};
ghost use Rattle.history.specs.EventRef.{event_seen};
ghost use Rattle.history.specs.Faults.{IsFaultOf, EndsWithEvent};
ghost use Rattle.history.specs.declared.fault.HistoryFault.TheVariants.{NoMemory};
ghost use Rattle.history.specs.Next.{Continues, HasNext, HasRecorded};
ghost use Rattle.history.specs.Pieces.{lines_read};

use crate::event_ref::EventRef;
use crate::fault::HistoryFault;
use crate::history::{History, MOST_LINES};
use crate::line::header_from;
use rmi_codec::{
    Head, Parts, command_at, command_from, err_at, head_at, head_from, ok_at, reply_from,
};
use rmi_view::ReplyRef;
use std::alloc::{AllocError, Global};

/// Reads the line after those that are read, the header where none is. Its words are read to the buffer.
#[inline(always)]
pub(crate) fn read_line(
    alloc: Global,
    history: &mut Option<History>,
    words: &mut [u64; 10],
    line: &[u8],
) -> Result<(), HistoryFault>
    requires { HasNoNewline line.now }
    ensures read { OnOk result (lines_read history.new ≡ lines_read history.old ++ (line.now ++ 10 ∷ [])) }
    ensures fault { IfErr result (λ fault. (more : List ℕ) → IsFaultOf (lines_read history.old ++ (line.now ++ 10 ∷ more)) fault) }
    ensures memory { result ≡ Err NoMemory → EndsWithEvent (lines_read history.old ++ (line.now ++ 10 ∷ [])) }
{
    match history {
        None => begin(alloc, history, line),
        Some(history) => read_event(history, words, line),
    }
}

/// Reads the header. A history is large, and no later line is to pay for the place of one.
#[inline(never)]
fn begin(alloc: Global, history: &mut Option<History>, line: &[u8]) -> Result<(), HistoryFault>
    requires { HasNoNewline line.now }
    ensures read { OnOk result (lines_read history.new ≡ line.now ++ 10 ∷ []) }
    ensures fault { IfErr result (λ fault. (more : List ℕ) → IsFaultOf (line.now ++ 10 ∷ more) fault) }
    ensures no_memory { result ≢ Err NoMemory }
{
    *history = Some(read_header(alloc, line)?);
    Ok(())
}

/// A history without events, of the machine that the header names.
fn read_header(alloc: Global, line: &[u8]) -> Result<History, HistoryFault>
    requires { HasNoNewline line.now }
    ensures read { IfOk result (λ history. history_text history.recorded ≡ line.now ++ 10 ∷ []) }
    ensures fault { IfErr result (λ fault. (more : List ℕ) → IsFaultOf (line.now ++ 10 ∷ more) fault) }
    ensures no_memory { result ≢ Err NoMemory }
{
    match header_from(line) {
        Some(config) => Ok(History::new(alloc, config)),
        None => Err(HistoryFault::BadLine(1)),
    }
}

/// Reads the line of the next event.
#[inline(always)]
fn read_event(history: &mut History, words: &mut [u64; 10], line: &[u8]) -> Result<(), HistoryFault>
    requires { HasNoNewline line.now }
    ensures read { OnOk result (history_text history.new.recorded ≡ history_text history.old.recorded ++ (line.now ++ 10 ∷ [])) }
    ensures fault { IfErr result (λ fault. (more : List ℕ) → IsFaultOf (history_text history.old.recorded ++ (line.now ++ 10 ∷ more)) fault) }
    ensures memory { result ≡ Err NoMemory → EndsWithEvent (history_text history.old.recorded ++ (line.now ++ 10 ∷ [])) }
{
    let _fact = history.well_formed();
    let bad_line = HistoryFault::BadLine(history.len() as u64 + 2);
    if !history.has_room() {
        return Err(bad_line);
    }
    if !record_line(history, words, line)? {
        return Err(bad_line);
    }
    Ok(())
}

/// Records the event that a line spells, where one is spelled that can be next.
#[inline(always)]
fn record_line(
    history: &mut History,
    words: &mut [u64; 10],
    line: &[u8],
) -> Result<bool, AllocError>
    requires room { length history.old.recorded.events + 1 < MOST_LINES }
    ensures recorded { IfOk result (λ done. IsTrue done → HasRecorded history.old.recorded history.new.recorded (parts_of line.now)) }
    ensures refused { IfOk result (λ done. done ≡ false → ¬ HasNext history.old.recorded (parts_of line.now)) }
    ensures no_memory { OnErr result (HasNext history.old.recorded (parts_of line.now)) }
{
    let mut parts = Parts::of(line);
    let cpus = history.config().cpus();
    let Some(
        Head {
            letter,
            cpu,
            number,
        },
    ) = head_from(&mut parts, cpus, MOST_LINES as u32)
    else {
        return Ok(false);
    };
    match letter {
        b'c' => {
            let Ok(command) = command_from(words, parts) else {
                return Ok(false);
            };
            record(
                history,
                EventRef::Called {
                    cpu,
                    number,
                    command,
                },
            )
        }
        b'r' => {
            let Ok(reply) = reply_from(words, parts) else {
                return Ok(false);
            };
            record(history, EventRef::Returned { cpu, number, reply })
        }
        _ => Ok(false),
    }
}

/// Records the event that a text begins with, where its line is whole and in the form of nearly all lines and the event can be
/// next, and tells how long the line is. Else nothing is recorded, and the line is to be read once more.
#[inline(always)]
pub(crate) fn record_front(
    history: &mut History,
    words: &mut [u64; 10],
    text: &[u8],
) -> Option<usize>
    ensures recorded { IfSome result (λ end. history_text history.new.recorded ≡ history_text history.old.recorded ++ take end text.now) }
    ensures some { IfSome result (λ end. 0 < end) }
    ensures inside { IfSome result (λ end. end ≤ length text.now) }
    ensures none { IfNone result (history.new.recorded ≡ history.old.recorded) }
{
    if !history.has_room() {
        return None;
    }
    let cpus = history.config().cpus();
    let (cpu, number, at) = head_at(text, cpus, MOST_LINES as u32)?;
    match text[0] {
        b'c' => {
            let (command, end) = command_at(words, text, at)?;
            let event = EventRef::Called {
                cpu,
                number,
                command,
            };
            record_to(history, event, end)
        }
        b'r' => {
            let Some((words, end)) = ok_at(words, text, at) else {
                return record_refusal(history, text, cpu, number, at);
            };
            let reply = ReplyRef::Ok(words);
            record_to(history, EventRef::Returned { cpu, number, reply }, end)
        }
        _ => None,
    }
}

/// Records the return of a refusal whose line has its head before a place.
#[inline(never)]
fn record_refusal(
    history: &mut History,
    text: &[u8],
    cpu: u8,
    number: u32,
    at: usize,
) -> Option<usize>
    requires head { take at text.now ≡ head_text 114 cpu number }
    requires cpu { cpu < history.old.recorded.config.cpus }
    requires place { at < length text.now }
    requires room { length history.old.recorded.events + 1 < MOST_LINES }
    ensures recorded { IfSome result (λ end. history_text history.new.recorded ≡ history_text history.old.recorded ++ take end text.now) }
    ensures on { IfSome result (λ end. at < end) }
    ensures inside { IfSome result (λ end. end ≤ length text.now) }
    ensures none { IfNone result (history.new.recorded ≡ history.old.recorded) }
{
    let (status, index, end) = err_at(text, at)?;
    let reply = ReplyRef::Err(status, index);
    record_to(history, EventRef::Returned { cpu, number, reply }, end)
}

/// Records an event of a line that ends at a place, and gives the place, where the event is its CPU's next.
#[inline(always)]
fn record_to(history: &mut History, event: EventRef<'_>, end: usize) -> Option<usize>
    requires is_event { IsEvent history.old.recorded.config.cpus (event_seen event) }
    requires room { length history.old.recorded.events + 1 < MOST_LINES }
    ensures recorded { IfSome result (λ place. history.new.recorded
        ≡ record history.old.recorded { events = history.old.recorded.events ++ event_seen event.entry ∷ [] }) }
    ensures place { IfSome result (λ place. place ≡ end) }
    ensures none { IfNone result (history.new.recorded ≡ history.old.recorded) }
{
    match record(history, event) {
        Ok(true) => Some(end),
        _ => None,
    }
}

/// Records an event, where it is its CPU's next.
#[inline(always)]
fn record(history: &mut History, event: EventRef<'_>) -> Result<bool, AllocError>
    requires is_event { IsEvent history.old.recorded.config.cpus (event_seen event) }
    requires room { length history.old.recorded.events + 1 < MOST_LINES }
    ensures recorded { IfOk result (λ done. IsTrue done
        → history.new.recorded ≡ record history.old.recorded { events = history.old.recorded.events ++ event_seen event.entry ∷ [] }) }
    ensures refused { IfOk result (λ done. done ≡ false → ¬ Continues history.old.recorded (event_seen event.entry)) }
    ensures no_memory { OnErr result (Continues history.old.recorded (event_seen event.entry)) }
    ensures kept { IfOk result (λ done. done ≡ false → history.new.recorded ≡ history.old.recorded) }
    ensures unrecorded { OnErr result (history.new.recorded ≡ history.old.recorded) }
{
    if !history.continues(event) {
        return Ok(false);
    }
    history.append(event)?;
    Ok(true)
}
