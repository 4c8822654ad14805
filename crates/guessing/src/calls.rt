//! Calls that are open at an event.

use crate::asked::Asked;
use crate::steps::Step;
use history::History;
use rmi_view::{CommandRef, ReplyRef};
use rmm_spec::FunctionId;

/// How many CPUs there are at most.
pub(crate) const CPUS: usize = 8;

/// A call that returns at a later event, or doesn't return, with its command and its later reply.
#[derive(Clone, Copy)]
pub(crate) struct OpenCall<'h> {
    pub(crate) cpu: u8,
    /// The places of its two events.
    pub(crate) called: u32,
    pub(crate) returned: u32,
    pub(crate) command: CommandRef<'h>,
    pub(crate) reply: ReplyRef<'h>,
    /// Whether it changes nothing, by its reply.
    pub(crate) is_look: bool,
    /// Whether it stands in the order already.
    pub(crate) is_placed: bool,
    /// The measurement that it reads or extends.
    pub(crate) register: Option<usize>,
}

impl<'h> OpenCall<'h> {
    /// Whether it changes nothing, and doesn't stand in the order.
    pub(crate) fn is_waiting_look(&self) -> bool {
        self.is_look && !self.is_placed
    }

    /// Whether it reads or extends an extensible measurement.
    pub(crate) fn is_measured(&self) -> bool {
        self.register.is_some()
    }

    /// The call, as a machine is asked for it.
    #[inline(always)]
    pub(crate) fn asked(&self) -> Asked<'h> {
        Asked {
            cpu: self.cpu,
            command: self.command,
            reply: if is_never(self.returned) {
                None
            } else {
                Some(self.reply)
            },
            is_measured: self.is_measured(),
        }
    }

    /// The call, as it was put in at the place.
    pub(crate) fn step(&self, place: usize) -> Step {
        Step {
            cpu: self.cpu,
            is_measured: self.is_measured(),
            sets: None,
            called: self.called,
            returned: self.returned,
            at: u32::try_from(place).unwrap_or(u32::MAX),
        }
    }
}

/// The command of the call at a place.
pub(crate) fn command_at(history: &History, place: usize) -> Option<CommandRef<'_>> {
    if place >= history.len() {
        return None;
    }
    history.command_at(place)
}

/// The reply of the return at a place.
pub(crate) fn reply_at(history: &History, place: usize) -> Option<ReplyRef<'_>> {
    if place >= history.len() {
        return None;
    }
    history.reply_at(place)
}

/// The place of the return of a CPU's call that doesn't return: after all events.
pub(crate) fn never(cpu: u8) -> u32 {
    u32::MAX - u32::from(cpu)
}

/// Whether it is the place of no return.
pub(crate) fn is_never(returned: u32) -> bool {
    returned >= never(u8::MAX)
}

/// The reply of a call that returns at the place. One that doesn't return is carried out, without words.
pub(crate) fn reply_of(history: &History, returned: u32) -> Option<ReplyRef<'_>> {
    if is_never(returned) {
        return Some(ReplyRef::Ok(&[]));
    }
    reply_at(history, returned as usize)
}

/// Whether a call with that reply changes nothing.
pub(crate) fn is_look(command: CommandRef<'_>, reply: ReplyRef<'_>) -> bool {
    match reply {
        ReplyRef::Err(_, _) | ReplyRef::Misplaced => true,
        ReplyRef::Ok(_) => matches!(
            command.function,
            FunctionId::RttReadEntry
                | FunctionId::MeasurementRead
                | FunctionId::RealmConfig
                | FunctionId::IpaStateGet
        ),
    }
}

/// The extensible measurement that a call reads or extends, counted from 0, where it does.
pub(crate) fn measured(command: CommandRef<'_>, reply: ReplyRef<'_>) -> Option<usize> {
    let ReplyRef::Ok(_) = reply else {
        return None;
    };
    if !matches!(
        command.function,
        FunctionId::MeasurementRead | FunctionId::MeasurementExtend
    ) {
        return None;
    }
    number_of(command)
}

/// The extensible measurement that the command names first, counted from 0.
pub(crate) fn number_of(command: CommandRef<'_>) -> Option<usize> {
    match command.words.first() {
        Some(1) => Some(0),
        Some(2) => Some(1),
        Some(3) => Some(2),
        Some(4) => Some(3),
        _ => None,
    }
}

/// Whether two calls name one word.
pub fn shares_word(one: CommandRef<'_>, other: CommandRef<'_>) -> bool {
    share_word(one.words, other.words)
}

/// Whether a word is among both.
pub(crate) fn share_word(words: &[u64], others: &[u64]) -> bool {
    for word in words {
        if others.contains(word) {
            return true;
        }
    }
    false
}
