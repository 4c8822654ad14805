//! An event without its words, in few bytes.

ghost use Rattle.std.specs.Prelude.{◌≡◌, ◌+◌, ◌<◌, ◌≤◌, ◌^◌, ◌++◌, length, vec_len, vec_capacity, take, drop, option_map, IsTrue};
ghost use Rattle.rmi_view.specs.Seen as replied;
ghost use Rattle.rmi_view.specs.Seen.{reply_seen};
ghost use Rattle.merging.specs.SeenEvents.{moment_seen, happened_seen, AreFew, HasFewWords};
ghost use Rattle.merging.specs.Slots.{happened_in, moment_at, moment_words, reply_words, what_of, word_count_of, words_at, vacant, AreAt, HasWords, IsPlaced};

use crate::moment::{HappenedRef, MomentRef};
use rmi_view::{CommandRef, ReplyRef};
use rmm_spec::FunctionId;

/// A moment without its words, of which it has so many.
#[derive(Clone, Copy)]
pub enum What {
    /// No event has the stamp.
    Nothing,
    Call { function: FunctionId, count: u8 },
    CommitOk { count: u8 },
    CommitErr(u8, u8),
    CommitMisplaced,
    ReturnOk { count: u8 },
    ReturnErr(u8, u8),
    ReturnMisplaced,
}

/// An event. Its words stand from `first` on among the words of all, and its place in a table tells its stamp.
#[derive(Clone, Copy)]
pub struct Slot {
    pub line: u32,
    pub first: u32,
    pub cpu: u8,
    pub what: What,
}

const _: () = prove!(size_of::<Slot>() == 12);

/// The slot of a stamp that no event has.
pub fn vacant() -> Slot
    ensures { result ≡ vacant }
{
    Slot {
        line: 0,
        first: 0,
        cpu: 0,
        what: What::Nothing,
    }
}

/// What is kept of a moment beside its words.
pub fn what_of(moment: MomentRef<'_>) -> What
    requires { HasFewWords (moment_seen moment) }
    ensures { result ≡ what_of (moment_seen moment.entry) }
{
    match moment {
        MomentRef::Call(CommandRef { function, words }) => What::Call {
            function,
            count: words.len() as u8,
        },
        MomentRef::Commit(ReplyRef::Ok(words)) => What::CommitOk {
            count: words.len() as u8,
        },
        MomentRef::Commit(ReplyRef::Err(status, index)) => What::CommitErr(status, index),
        MomentRef::Commit(ReplyRef::Misplaced) => What::CommitMisplaced,
        MomentRef::Return(ReplyRef::Ok(words)) => What::ReturnOk {
            count: words.len() as u8,
        },
        MomentRef::Return(ReplyRef::Err(status, index)) => What::ReturnErr(status, index),
        MomentRef::Return(ReplyRef::Misplaced) => What::ReturnMisplaced,
    }
}

static NO_WORDS: [u64; 0] = [];

/// The words of a moment.
pub fn words_of(moment: MomentRef<'_>) -> &[u64]
    ensures { result.now ≡ moment_words (moment_seen moment.entry) }
{
    match moment {
        MomentRef::Call(command) => command.words,
        MomentRef::Commit(reply) | MomentRef::Return(reply) => reply_words(reply),
    }
}

fn reply_words(reply: ReplyRef<'_>) -> &[u64]
    ensures { result.now ≡ reply_words (reply_seen reply.entry) }
{
    match reply {
        ReplyRef::Ok(words) => words,
        ReplyRef::Err(_, _) => NO_WORDS.as_slice(),
        ReplyRef::Misplaced => NO_WORDS.as_slice(),
    }
}

/// Where words of its own stand: at the place that is given, or else behind all others, where there is room for them.
pub fn place(words: &mut Vec<u64>, given: u32, own: &[u64]) -> u32
    requires room { vec_len words.old + 10 ≤ vec_capacity words.old }
    requires few { length own.now ≤ 10 }
    requires most { vec_len words.old < 2 ^ 32 }
    ensures { IsPlaced words.old.items words.new.items own.now result }
{
    if are_at(words, given, own) {
        return given;
    }
    let first = words.len() as u32;
    append(words, own);
    first
}

// Whether words stand at a place.
fn are_at(words: &Vec<u64>, first: u32, own: &[u64]) -> bool
    ensures { IsTrue result → AreAt words.now.items own.now first }
{
    let first = first as usize;
    if words.len() < first {
        return false;
    }
    if words.len() - first < own.len() {
        return false;
    }
    &words.as_slice()[first..first + own.len()] == own
}

// Puts words at the end, where there is room for them.
fn append(words: &mut Vec<u64>, more: &[u64])
    requires { vec_len words.old + length more.now ≤ vec_capacity words.old }
    ensures { words.new.items ≡ words.old.items ++ more.now }
{
    for word in more {
        words.push_reserved(*word);
    }
}

/// What happened by a slot, if anything did.
pub fn happened_at(words: &[u64], slot: Slot) -> Option<HappenedRef<'_>>
    requires { HasWords (length words.now) slot }
    ensures seen { option_map happened_seen result ≡ happened_in words.entry.now slot }
    ensures few { AreFew result }
{
    match moment_at(words, slot.first, slot.what) {
        Some(moment) => Some(HappenedRef {
            line: slot.line,
            cpu: slot.cpu,
            moment,
        }),
        None => None,
    }
}

ghost use Rattle.merging.specs.SeenEvents.{IsFewMoment};

fn moment_at(words: &[u64], first: u32, what: What) -> Option<MomentRef<'_>>
    requires within { first + word_count_of what ≤ length words.now }
    requires few { word_count_of what ≤ 10 }
    ensures seen { option_map moment_seen result ≡ moment_at words.entry.now first what }
    ensures few { IsFewMoment result }
{
    match what {
        What::Nothing => None,
        What::Call { function, count } => Some(MomentRef::Call(CommandRef {
            function,
            words: words_at(words, first, count),
        })),
        What::CommitOk { count } => Some(MomentRef::Commit(ReplyRef::Ok(words_at(
            words, first, count,
        )))),
        What::CommitErr(status, index) => Some(MomentRef::Commit(ReplyRef::Err(status, index))),
        What::CommitMisplaced => Some(MomentRef::Commit(ReplyRef::Misplaced)),
        What::ReturnOk { count } => Some(MomentRef::Return(ReplyRef::Ok(words_at(
            words, first, count,
        )))),
        What::ReturnErr(status, index) => Some(MomentRef::Return(ReplyRef::Err(status, index))),
        What::ReturnMisplaced => Some(MomentRef::Return(ReplyRef::Misplaced)),
    }
}

fn words_at(words: &[u64], first: u32, count: u8) -> &[u64]
    requires { first + count ≤ length words.now }
    ensures words { result.now ≡ (words_at words.now first count).items }
    ensures count { length result.now ≡ count }
{
    let first = first as usize;
    &words[first..first + usize::from(count)]
}
