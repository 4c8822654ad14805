//! The lines of a recording.

ghost use Rattle.std.specs.Prelude.{◌≡◌, ◌∷◌, codes, IfSome, IfNone};
ghost use Rattle.rmm_spec.specs.Text.{parts_of};
ghost use Rattle.merging.specs.Events.{Moment};
ghost use Rattle.merging.specs.Word.{word_text};
ghost use Rattle.merging.specs.SeenEvents.{line_seen, moment_seen, IsLineOf, IsNoLine, IsMomentOf, IsSizesOf, IsNoSizes};

use crate::moment::MomentRef;
use crate::table::MOST_EVENTS;
use memory_map::Config;
use rmi_codec::{Parts, command_from, decimal_from, number_below, reply_from};

/// How many CPUs a machine has at most.
const MOST_CPUS: u32 = 8;

/// A line that was read.
#[derive(Clone, Copy)]
pub struct Line<'w> {
    pub stamp: u32,
    pub cpu: u8,
    pub moment: MomentRef<'w>,
}

/// The sizes that a header names.
pub fn sizes_from(bytes: &[u8]) -> Option<Config>
    ensures found { IfSome result (λ sizes. IsSizesOf (parts_of bytes.now) sizes.granules sizes.cpus) }
    ensures none { IfNone result (IsNoSizes (parts_of bytes.now)) }
{
    let mut parts = Parts::of(bytes);
    if parts.next_part()? != b"rme1".as_slice() {
        return None;
    }
    let granules = decimal_from(parts.next_part()?)?;
    let cpus = decimal_from(parts.next_part()?)?;
    match parts.next_part() {
        None => Config::large(granules, cpus),
        Some(_) => None,
    }
}

/// The word for a moment.
#[derive(Clone, Copy)]
pub enum Word {
    Call,
    Commit,
    Return,
}

/// The event that a line spells, where it spells one. Its words are read to the buffer.
pub fn line_from<'w>(words: &'w mut [u64; 10], bytes: &[u8]) -> Option<Line<'w>>
    ensures found { IfSome result (λ line. IsLineOf (parts_of bytes.now) (line_seen line)) }
    ensures none { IfNone result (IsNoLine (parts_of bytes.now)) }
{
    let mut parts = Parts::of(bytes);
    let stamp = number_below(&mut parts, MOST_EVENTS)?;
    let cpu = number_below(&mut parts, MOST_CPUS)?;
    let moment = moment_from(words, parts)?;
    Some(Line {
        stamp,
        cpu: cpu as u8,
        moment,
    })
}

/// The moment that the parts spell.
fn moment_from<'w>(words: &'w mut [u64; 10], mut parts: Parts<'_>) -> Option<MomentRef<'w>>
    ensures found { IfSome result (λ moment. IsMomentOf parts.entry (moment_seen moment)) }
    ensures none { IfNone result ((moment : Moment) → ¬ IsMomentOf parts.entry moment) }
{
    let Some(part) = parts.next_part() else {
        return None;
    };
    let Some(word) = word_from(part) else {
        return None;
    };
    moment_of(words, word, parts)
}

/// The word that a part is.
fn word_from(part: &[u8]) -> Option<Word>
    ensures found { IfSome result (λ word. part.now ≡ word_text word) }
    ensures none { IfNone result ((word : Word) → part.now ≡ word_text word → ⊥) }
{
    match part {
        b"call" => Some(Word::Call),
        b"commit" => Some(Word::Commit),
        b"return" => Some(Word::Return),
        _ => None,
    }
}

/// The moment that the parts behind its word spell.
fn moment_of<'w>(words: &'w mut [u64; 10], word: Word, parts: Parts<'_>) -> Option<MomentRef<'w>>
    ensures found { IfSome result (λ moment. IsMomentOf (word_text word ∷ parts.entry) (moment_seen moment)) }
    ensures none { IfNone result ((moment : Moment) → ¬ IsMomentOf (word_text word ∷ parts.entry) moment) }
{
    match word {
        Word::Call => call_from(words, parts),
        Word::Commit => commit_from(words, parts),
        Word::Return => return_from(words, parts),
    }
}

fn call_from<'w>(words: &'w mut [u64; 10], parts: Parts<'_>) -> Option<MomentRef<'w>>
    ensures found { IfSome result (λ moment. IsMomentOf (codes "call" ∷ parts.entry) (moment_seen moment)) }
    ensures none { IfNone result ((moment : Moment) → ¬ IsMomentOf (codes "call" ∷ parts.entry) moment) }
{
    match command_from(words, parts) {
        Ok(command) => Some(MomentRef::Call(command)),
        Err(_) => None,
    }
}

fn commit_from<'w>(words: &'w mut [u64; 10], parts: Parts<'_>) -> Option<MomentRef<'w>>
    ensures found { IfSome result (λ moment. IsMomentOf (codes "commit" ∷ parts.entry) (moment_seen moment)) }
    ensures none { IfNone result ((moment : Moment) → ¬ IsMomentOf (codes "commit" ∷ parts.entry) moment) }
{
    match reply_from(words, parts) {
        Ok(reply) => Some(MomentRef::Commit(reply)),
        Err(_) => None,
    }
}

fn return_from<'w>(words: &'w mut [u64; 10], parts: Parts<'_>) -> Option<MomentRef<'w>>
    ensures found { IfSome result (λ moment. IsMomentOf (codes "return" ∷ parts.entry) (moment_seen moment)) }
    ensures none { IfNone result ((moment : Moment) → ¬ IsMomentOf (codes "return" ∷ parts.entry) moment) }
{
    match reply_from(words, parts) {
        Ok(reply) => Some(MomentRef::Return(reply)),
        Err(_) => None,
    }
}
