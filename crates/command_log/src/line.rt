//! What is kept of an entry beside its words.

ghost use Rattle.std.specs.Prelude.{◌≡◌, ◌+◌, ◌≤◌, length};
ghost use Rattle.rmi_view.specs.Seen.{HasFewWords, command_seen, reply_seen};
ghost use Rattle.command_log.specs.Log as spec;

use rmi_view::{CommandRef, ReplyRef};
use rmm_spec::FunctionId;

/// An entry, seen where its words lie.
#[derive(Clone, Copy)]
pub struct Logged<'a, T> {
    pub mark: T,
    pub command: CommandRef<'a>,
    pub reply: ReplyRef<'a>,
}

/// A reply without its words, of which it has so many.
#[derive(Clone, Copy)]
pub(crate) enum Given {
    Ok { count: u8 },
    Err(u8, u8),
    Misplaced,
}

/// An entry without its words. The command's stand from `first` on among the words of all, and the reply's behind them.
#[derive(Clone, Copy)]
pub(crate) struct Line<T> {
    pub(crate) mark: T,
    pub(crate) function: FunctionId,
    pub(crate) count: u8,
    pub(crate) given: Given,
    pub(crate) first: usize,
}

/// The command of a line.
pub(crate) fn command_at<'a, T: Copy>(words: &'a [u64], line: &Line<T>) -> CommandRef<'a>
    requires { spec.HasWords (length words.now) line.now }
    ensures seen { command_seen result ≡ spec.command_at words.entry.now line.now }
    ensures few { length result.words.now ≤ 10 }
{
    CommandRef {
        function: line.function,
        words: words_at(words, line.first, line.count),
    }
}

/// The reply of a line.
pub(crate) fn reply_at<'a, T: Copy>(words: &'a [u64], line: &Line<T>) -> ReplyRef<'a>
    requires { spec.HasWords (length words.now) line.now }
    ensures seen { reply_seen result ≡ spec.reply_at words.entry.now line.now }
    ensures few { HasFewWords (reply_seen result) }
{
    let first = line.first + usize::from(line.count);
    match line.given {
        Given::Ok { count } => ReplyRef::Ok(words_at(words, first, count)),
        Given::Err(status, index) => ReplyRef::Err(status, index),
        Given::Misplaced => ReplyRef::Misplaced,
    }
}

// So many words from a place on.
fn words_at(words: &[u64], first: usize, count: u8) -> &[u64]
    requires within { first + count ≤ length words.now }
    requires few { count ≤ 10 }
    ensures words { result.now ≡ (spec.words_at words.now first count).items }
    ensures few { length result.now ≤ 10 }
{
    &words[first..first + usize::from(count)]
}
