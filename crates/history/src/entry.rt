//! The events of a history, in less memory than a vector of them.

ghost use Rattle.std.specs.Prelude.{◌≡◌, ℕ, ◌+◌, ◌-◌, ◌/◌, ◌^◌, ◌<◌, ◌≤◌, ◌++◌, length, slice_index_or, slice_set, vec_len, vec_capacity, IsOk, IfOk, OnOk, OnErr, IfSome, IfNone, ◌≢◌};
ghost use Rattle.rmm_spec.specs.declared.command.Command.{Command};
ghost use Rattle.rmm_spec.specs.declared.event.Event.TheVariants as event;
ghost use Rattle.rmm_spec.specs.declared.reply.Reply.{Reply};
ghost use Rattle.rmi_view.specs.Seen as seen;
ghost use Rattle.rmi_view.specs.Seen.{command_seen, reply_seen};
ghost use Rattle.history.specs.Entry.{words_at, room_of, entry_cpu, event_of, HasFewWords, HasWithin, HasWords, HasStored, IsEntered};
ghost use Rattle.history.specs.EventRef.{event_seen};
ghost use Rattle.history.specs.Room.{spare};

use crate::event_ref::EventRef;
use rmi_view::{CommandRef, ReplyRef};
use rmm_spec::FunctionId;
use std::alloc::AllocError;

/// Where the words of an event stand.
#[derive(Clone, Copy)]
pub struct Stretch {
    pub first: u32,
    pub count: u8,
}

/// An event without its words, which stand among the words of all events, and without its number, which its place tells.
#[derive(Clone, Copy)]
pub enum Entry {
    Called {
        cpu: u8,
        function: FunctionId,
        count: u8,
        first: u32,
    },
    Answered {
        cpu: u8,
        count: u8,
        first: u32,
    },
    Refused {
        cpu: u8,
        status: u8,
        index: u8,
    },
    Misplaced {
        cpu: u8,
    },
}

const _: () = prove!(size_of::<Entry>() == 8);

/// Takes memory for one event more, where it isn't there.
pub fn reserve_event(entries: &mut Vec<Entry>, words: &mut Vec<u64>) -> Result<(), AllocError>
    ensures entries { entries.new.items ≡ entries.old.items }
    ensures words { words.new.items ≡ words.old.items }
    ensures ok { OnOk result (1 ≤ room_of (spare entries.new) (spare words.new)) }
    ensures succeeds { 1 ≤ room_of (spare entries.old) (spare words.old) → IsOk result }
    ensures grows { room_of (spare entries.old) (spare words.old) ≤ room_of (spare entries.new) (spare words.new) }
{
    entries.reserve(1)?;
    words.reserve(10)
}

/// Stores an event at the end. It takes no memory where there is room, and where memory is refused nothing is stored.
#[inline(always)]
pub fn store(
    entries: &mut Vec<Entry>,
    words: &mut Vec<u64>,
    event: EventRef<'_>,
) -> Result<(), AllocError>
    requires words { length words.old.items < 2 ^ 32 }
    requires few { HasFewWords (event_seen event) }
    ensures ok { OnOk result (HasStored words.old.items entries.old.items words.new.items entries.new.items (event_seen event.entry)) }
    ensures same_entries { OnErr result (entries.new.items ≡ entries.old.items) }
    ensures same_words { OnErr result (words.new.items ≡ words.old.items) }
    ensures succeeds { 1 ≤ room_of (spare entries.old) (spare words.old) → IsOk result }
    ensures left { room_of (spare entries.old) (spare words.old) ≤ room_of (spare entries.new) (spare words.new) + 1 }
{
    entries.reserve(1)?;
    let entry = enter(words, event)?;
    entries.push_reserved(entry);
    Ok(())
}

/// Enters the words of an event behind all others, and gives its entry.
#[inline(always)]
fn enter(words: &mut Vec<u64>, event: EventRef<'_>) -> Result<Entry, AllocError>
    requires words { length words.old.items < 2 ^ 32 }
    requires few { HasFewWords (event_seen event) }
    ensures ok { IfOk result (IsEntered words.old.items words.new.items (event_seen event.entry)) }
    ensures err { OnErr result (words.new.items ≡ words.old.items) }
    ensures sure { vec_len words.old + 10 ≤ vec_capacity words.old → IsOk result }
    ensures capacity { vec_capacity words.old ≤ vec_capacity words.new }
{
    match event {
        EventRef::Called { cpu, command, .. } => {
            let Stretch { first, count } = append(words, command.words)?;
            Ok(Entry::Called {
                cpu,
                function: command.function,
                count,
                first,
            })
        }
        EventRef::Returned { cpu, reply, .. } => match reply {
            ReplyRef::Ok(given) => {
                let Stretch { first, count } = append(words, given)?;
                Ok(Entry::Answered { cpu, count, first })
            }
            ReplyRef::Err(status, index) => Ok(Entry::Refused { cpu, status, index }),
            ReplyRef::Misplaced => Ok(Entry::Misplaced { cpu }),
        },
    }
}

/// Appends the words of one event, and returns where they stand.
#[inline(always)]
fn append(words: &mut Vec<u64>, more: &[u64]) -> Result<Stretch, AllocError>
    requires words { length words.old.items < 2 ^ 32 }
    requires few { length more.now ≤ 10 }
    ensures ok { IfOk result (λ stretch. stretch ≡ record { first = length words.old.items; count = length more.now }) }
    ensures items { OnOk result (words.new.items ≡ words.old.items ++ more.now) }
    ensures err { OnErr result (words.new.items ≡ words.old.items) }
    ensures sure { vec_len words.old + 10 ≤ vec_capacity words.old → IsOk result }
    ensures capacity { vec_capacity words.old ≤ vec_capacity words.new }
{
    let first = words.len() as u32;
    make_room(words, more.len())?;
    for word in more {
        words.push_reserved(*word);
    }
    Ok(Stretch {
        first,
        count: more.len() as u8,
    })
}

/// Makes room for so many words more. It is there nearly always.
#[inline(always)]
fn make_room(words: &mut Vec<u64>, more: usize) -> Result<(), AllocError>
    ensures items { words.new.items ≡ words.old.items }
    ensures len { vec_len words.new ≡ vec_len words.old }
    ensures ok { OnOk result (vec_len words.new + more ≤ vec_capacity words.new) }
    ensures capacity { vec_capacity words.old ≤ vec_capacity words.new }
    ensures sure { vec_len words.old + more ≤ vec_capacity words.old → IsOk result }
{
    if more <= words.capacity() - words.len() {
        return Ok(());
    }
    words.reserve(more)
}

/// The event of an entry, of the call with that number.
pub fn event_of(words: &[u64], number: u32, entry: Entry) -> EventRef<'_>
    requires { HasWords (length words.now) entry }
    ensures event { event_seen result ≡ event_of words.now number entry }
    ensures few { HasFewWords (event_seen result) }
{
    match entry {
        Entry::Called {
            cpu,
            function,
            count,
            first,
        } => {
            let words = words_at(words, Stretch { first, count });
            let command = CommandRef { function, words };
            EventRef::Called {
                cpu,
                number,
                command,
            }
        }
        Entry::Answered { cpu, count, first } => {
            let reply = ReplyRef::Ok(words_at(words, Stretch { first, count }));
            EventRef::Returned { cpu, number, reply }
        }
        Entry::Refused { cpu, status, index } => {
            let reply = ReplyRef::Err(status, index);
            EventRef::Returned { cpu, number, reply }
        }
        Entry::Misplaced { cpu } => {
            let reply = ReplyRef::Misplaced;
            EventRef::Returned { cpu, number, reply }
        }
    }
}

/// The event of an entry whose CPU had so many before it, and with it one more.
pub fn counted_event<'w>(words: &'w [u64], entry: Entry, counts: &mut [u32; 8]) -> EventRef<'w>
    requires words { HasWords (length words.now) entry }
    requires cpu { entry_cpu entry < 8 }
    requires few { slice_index_or counts.old (entry_cpu entry) 0 + 1 < 2 ^ 32 }
    ensures event { event_seen result ≡ event_of words.now (slice_index_or counts.old (entry_cpu entry) 0 / 2) entry }
    ensures few { HasFewWords (event_seen result) }
    ensures counts { counts.new ≡ slice_set counts.old (entry_cpu entry) (slice_index_or counts.old (entry_cpu entry) 0 + 1) }
{
    let cpu = entry_cpu(entry) as usize;
    let rank = counts[cpu];
    counts[cpu] = rank + 1;
    event_of(words, rank / 2, entry)
}

/// The command of an entry, where it is a call's.
pub fn command_of(words: &[u64], entry: Entry) -> Option<CommandRef<'_>>
    requires { HasWords (length words.now) entry }
    ensures some { IfSome result (λ command. (number : ℕ)
        → event_of words.now number entry ≡ event.Called (entry_cpu entry) number (command_seen command)) }
    ensures few { IfSome result (λ command. length command.words.now ≤ 10) }
    ensures none { IfNone result ((number cpu other : ℕ) (command : Command) → event_of words.now number entry ≢ event.Called cpu other command) }
{
    match entry {
        Entry::Called {
            function,
            count,
            first,
            ..
        } => Some(CommandRef {
            function,
            words: words_at(words, Stretch { first, count }),
        }),
        _ => None,
    }
}

/// The reply of an entry, where it is a return's.
pub fn reply_of(words: &[u64], entry: Entry) -> Option<ReplyRef<'_>>
    requires { HasWords (length words.now) entry }
    ensures some { IfSome result (λ given. (number : ℕ)
        → event_of words.now number entry ≡ event.Returned (entry_cpu entry) number (reply_seen given)) }
    ensures few { IfSome result (λ given. seen.HasFewWords (reply_seen given)) }
    ensures none { IfNone result ((number cpu other : ℕ) (given : Reply) → event_of words.now number entry ≢ event.Returned cpu other given) }
{
    match entry {
        Entry::Called { .. } => None,
        Entry::Answered { count, first, .. } => {
            Some(ReplyRef::Ok(words_at(words, Stretch { first, count })))
        }
        Entry::Refused { status, index, .. } => Some(ReplyRef::Err(status, index)),
        Entry::Misplaced { .. } => Some(ReplyRef::Misplaced),
    }
}

pub fn entry_cpu(entry: Entry) -> u8
    ensures { result ≡ entry_cpu entry }
{
    match entry {
        Entry::Called { cpu, .. }
        | Entry::Answered { cpu, .. }
        | Entry::Refused { cpu, .. }
        | Entry::Misplaced { cpu } => cpu,
    }
}

/// The words that stand there.
pub fn words_at(words: &[u64], stretch: Stretch) -> &[u64]
    requires { HasWithin (length words.now) stretch }
    ensures words { result.now ≡ (words_at words.now stretch).items }
    ensures few { length result.now ≤ 10 }
{
    let first = stretch.first as usize;
    &words[first..first + stretch.count as usize]
}
