//! The list.

ghost use Rattle.std.specs.Prelude.{◌≡◌, ◌+◌, ◌≤◌, ◌++◌, length, vec_len, vec_capacity};

use crate::line::{Given, Line, Logged, command_at, reply_at};
use rmi_view::{CommandRef, ReplyRef};
use std::alloc::{AllocError, Global};
use std::marker::Model;

/// How many words an entry has at most: ten of its command, and ten of its reply.
const MOST_WORDS: usize = 20;

/// Commands with their replies, each with a mark.
#[derive(Drop)]
pub struct CommandLog<T> {
    lines: Vec<Line<T>>,
    words: Vec<u64>,
}

impl<T> Model for CommandLog<T> {
    ghost use Rattle.command_log.specs.Log.{LogView};

    ghost Value = { LogView T };

    ghost use Rattle.std.specs.Prelude.{length};
    ghost use Rattle.std.specs.List.{AllByRecursion};
    ghost use Rattle.command_log.specs.Log.{HasWords, logged_in, room_of, spare};

    ghost view = { λ log. record { logged = logged_in log.words.items log.lines.items; room = room_of (spare log.lines) (spare log.words) } };

    ghost invariant = { λ log. AllByRecursion (HasWords (length log.words.items)) log.lines.items };
}

impl<T> CommandLog<T> {
    ghost use Rattle.std.specs.Prelude.{◌≡◌, ◌≤◌, ◌↔◌, [], length, IsTrue, OnOk, OnErr};

    /// No entry yet.
    pub fn new(alloc: Global) -> CommandLog<T>
        ensures { result ≡ record { logged = []; room = 0 } }
    {
        CommandLog {
            lines: Vec::new(alloc),
            words: Vec::new(alloc),
        }
    }

    /// How many entries there are.
    pub fn len(&self) -> usize
        ensures { result ≡ length self.now.logged }
    {
        self.lines.len()
    }

    pub fn is_empty(&self) -> bool
        ensures { IsTrue result ↔ (self.now.logged ≡ []) }
    {
        self.lines.is_empty()
    }

    /// Makes room for one entry more, where there is none.
    pub fn reserve(&mut self) -> Result<(), AllocError>
        ensures kept { self.new ≡ record self.old { room = self.new.room } }
        ensures ok { OnOk result (1 ≤ self.new.room) }
        ensures full { OnErr result (self.old.room ≡ 0) }
        ensures grows { self.old.room ≤ self.new.room }
    {
        self.lines.reserve(1)?;
        self.words.reserve(MOST_WORDS)
    }
}

impl<T: Copy> CommandLog<T> {
    ghost use Rattle.std.specs.Prelude.{◌≡◌, ◌+◌, ◌≤◌, ◌++◌, [], ◌∷◌, length, slice_get, option_map};
    ghost use Rattle.rmi_view.specs.Seen.{HasFewWords, command_seen, reply_seen};
    ghost use Rattle.command_log.specs.Log.{AreFew, logged_seen};

    /// Puts an entry at the end, for which there is room. It takes no memory.
    pub fn push_reserved(&mut self, mark: T, command: CommandRef<'_>, reply: ReplyRef<'_>)
        requires room { 1 ≤ self.old.room }
        requires command { length command.words.now ≤ 10 }
        requires reply { HasFewWords (reply_seen reply) }
        ensures pushed { self.new.logged ≡ self.old.logged
            ++ record { mark = mark; command = command_seen command.entry; given = reply_seen reply.entry } ∷ [] }
        ensures left { self.old.room ≤ self.new.room + 1 }
    {
        let first = self.words.len();
        append(&mut self.words, command.words);
        let given = append_given(&mut self.words, reply);
        self.lines.push_reserved(Line {
            mark,
            function: command.function,
            count: command.words.len() as u8,
            given,
            first,
        });
    }

    /// The entry at a place, where one is.
    pub fn get(&self, place: usize) -> Option<Logged<'_, T>>
        ensures entry { option_map logged_seen result ≡ slice_get self.now.logged place }
        ensures few { AreFew result }
    {
        let line = self.lines.get(place)?;
        Some(Logged {
            mark: line.mark,
            command: command_at(&self.words, line),
            reply: reply_at(&self.words, line),
        })
    }
}

// Puts words at the end, for which there is room.
fn append(words: &mut Vec<u64>, more: &[u64])
    requires { vec_len words.old + length more.now ≤ vec_capacity words.old }
    ensures items { words.new.items ≡ words.old.items ++ more.now }
    ensures capacity { vec_capacity words.new ≡ vec_capacity words.old }
{
    for word in more {
        words.push_reserved(*word);
    }
}

ghost use Rattle.rmi_view.specs.Seen.{HasFewWords, reply_seen};
ghost use Rattle.command_log.specs.Log.{given_of, words_of};

// Puts the words of a reply at the end, for which there is room, and gives what is kept beside them.
fn append_given(words: &mut Vec<u64>, reply: ReplyRef<'_>) -> Given
    requires room { vec_len words.old + 10 ≤ vec_capacity words.old }
    requires few { HasFewWords (reply_seen reply) }
    ensures items { words.new.items ≡ words.old.items ++ words_of (reply_seen reply.entry) }
    ensures capacity { vec_capacity words.new ≡ vec_capacity words.old }
    ensures given { result ≡ given_of (reply_seen reply.entry) }
{
    match reply {
        ReplyRef::Ok(more) => {
            append(words, more);
            Given::Ok {
                count: more.len() as u8,
            }
        }
        ReplyRef::Err(status, index) => Given::Err(status, index),
        ReplyRef::Misplaced => Given::Misplaced,
    }
}
