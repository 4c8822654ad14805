//! How near an open call is to one that isn't given its reply without others.

use crate::calls::{OpenCall, share_word, shares_word};
use crate::ripas::{RipasRead, ripas_read, ripas_set};
use command_rows::Sight;
use command_words::{Names, named};
use rmi_view::{CommandRef, ReplyRef};
use rmm_spec::{FunctionId, Refusal, Tag};
use spec_machine::Machine;

/// The nearer a call is to another, the likelier the other needs it for its reply.
#[derive(Clone, Copy)]
pub(crate) enum Nearness {
    /// It is about what the other may need.
    Close,
    /// It names a word that the other names.
    Loose,
    Apart,
}

impl Nearness {
    /// Whether it is as near as this, or nearer.
    pub(crate) fn is_within(self, furthest: Nearness) -> bool {
        match furthest {
            Nearness::Close => matches!(self, Nearness::Close),
            Nearness::Loose => matches!(self, Nearness::Close | Nearness::Loose),
            Nearness::Apart => true,
        }
    }
}

/// What a call that isn't given its reply may need to be otherwise.
#[derive(Clone, Copy)]
pub(crate) enum Need {
    /// The RIPAS that it reads.
    Ripas(RipasRead),
    /// The REC that it enters or destroys, or whose request it serves.
    Rec(u64),
    /// Granules that it names, beside its realm.
    Granules(Names),
    /// What its one word is about.
    Word(u64),
    /// What its words beside its realm are about.
    Words,
}

/// What a call may need, which isn't given its reply now.
pub(crate) fn need_of(machine: &Machine, own: &OpenCall<'_>) -> Need {
    if let Some(read) = ripas_read(own.command, own.reply) {
        return Need::Ripas(read);
    }
    if let Some(rec) = rec_of(own.command) {
        return Need::Rec(rec);
    }
    if let [word] = own.command.words {
        return Need::Word(*word);
    }
    match machine.outcome_seen(own.cpu, own.command) {
        Err(Refusal::Input(_)) => Need::Granules(named(&own.command.call())),
        _ => Need::Words,
    }
}

/// How near another open call is to one with a need.
pub(crate) fn nearness_of(
    machine: &Machine,
    own: &OpenCall<'_>,
    need: &Need,
    other: &OpenCall<'_>,
) -> Nearness {
    let is_close = match need {
        Need::Ripas(read) => may_set(machine, *read, other),
        Need::Rec(rec) => is_about(machine, *rec, other),
        Need::Granules(names) => touches(names, other),
        Need::Word(word) => other.command.words.contains(word),
        Need::Words => share_word(beside_realm(own.command), beside_realm(other.command)),
    };
    if is_close {
        Nearness::Close
    } else if matches!(need, Need::Ripas(_) | Need::Word(_)) {
        Nearness::Apart
    } else if shares_word(own.command, other.command) {
        Nearness::Loose
    } else {
        Nearness::Apart
    }
}

// Whether an open call names one of the granules that isn't a realm's descriptor, or replies that it gives one back.
fn touches(names: &Names, other: &OpenCall<'_>) -> bool {
    names.as_slice().iter().any(|name| {
        let is_replied = match other.reply {
            ReplyRef::Ok(words) => words.contains(&name.granule),
            _ => false,
        };
        name.tag != Tag::Rd && (is_replied || other.command.words.contains(&name.granule))
    })
}

// Whether an open call sets the RIPAS that was read, or names the entry.
fn may_set(machine: &Machine, read: RipasRead, other: &OpenCall<'_>) -> bool {
    match ripas_set(machine, other.command, other.reply) {
        Some(set) => read.is_set_by(&set),
        None => other.command.words.contains(&read.ipa),
    }
}

// Whether an open call is about a REC: it names it, or is made from inside.
fn is_about(machine: &Machine, rec: u64, other: &OpenCall<'_>) -> bool {
    if let Some(named) = rec_of(other.command) {
        return named == rec;
    }
    match machine.rec(rec) {
        Some(entered) => entered.cpu == Some(other.cpu),
        None => other.command.words.contains(&rec),
    }
}

/// The REC that a command enters or destroys, or whose request it serves.
pub(crate) fn rec_of(command: CommandRef<'_>) -> Option<u64> {
    match (command.function, command.words) {
        (FunctionId::RecEnter | FunctionId::RecDestroy, [rec])
        | (FunctionId::RttSetRipas, [_, rec, _, _]) => Some(*rec),
        _ => None,
    }
}

// The words of a command without that of its realm, which comes first.
fn beside_realm<'h>(command: CommandRef<'h>) -> &'h [u64] {
    match command.words.get(1..) {
        Some(rest) if !rest.is_empty() && names_realm(command) => rest,
        _ => command.words,
    }
}

// Whether a command names its realm.
fn names_realm(command: CommandRef<'_>) -> bool {
    named(&command.call())
        .as_slice()
        .iter()
        .any(|name| name.tag == Tag::Rd)
}
