//! Looks at the RIPAS of an entry, and the calls that change it.

use crate::calls::{command_at, reply_of};
use crate::steps::Step;
use command_rows::Sight;
use history::History;
use memory_map::ripas_number;
use rmi_view::{CommandRef, ReplyRef};
use rmm_spec::{FunctionId, Ripas};
use spec_machine::Machine;

/// A RIPAS that was read, by the address of the entry.
#[derive(Clone, Copy)]
pub(crate) struct RipasRead {
    pub(crate) ipa: u64,
    /// The RIPAS, as replies name it.
    pub(crate) ripas: u64,
}

/// A call that read a RIPAS of a realm, with the places of its two events.
#[derive(Clone, Copy)]
pub(crate) struct RipasLook {
    pub(crate) rd: u64,
    pub(crate) read: RipasRead,
    pub(crate) called: u32,
    pub(crate) returned: u32,
}

/// A stretch whose RIPAS a call sets.
#[derive(Clone, Copy)]
pub(crate) struct RipasSet {
    base: u64,
    end: u64,
    pub(crate) ripas: Ripas,
}

/// What a call does to the RIPAS of an entry.
#[derive(Clone, Copy)]
pub(crate) enum RipasWrite {
    Sets(Ripas),
    /// The page is taken back, with which RAM becomes DESTROYED.
    Destroys,
}

/// The RIPAS that a call read, where it read one.
pub(crate) fn ripas_read(command: CommandRef<'_>, reply: ReplyRef<'_>) -> Option<RipasRead> {
    match (command.function, command.words, reply) {
        (FunctionId::IpaStateGet, [ipa], ReplyRef::Ok([ripas]))
        | (FunctionId::RttReadEntry, [_, ipa, _], ReplyRef::Ok([_, _, _, ripas])) => {
            Some(RipasRead {
                ipa: *ipa,
                ripas: *ripas,
            })
        }
        _ => None,
    }
}

/// The stretch whose RIPAS a call sets, where it sets one: RAM, or what the REC asked for.
pub(crate) fn ripas_set(
    machine: &Machine,
    command: CommandRef<'_>,
    reply: ReplyRef<'_>,
) -> Option<RipasSet> {
    let (base, top, ripas) = match (command.function, command.words) {
        (FunctionId::RttSetRipas, [_, rec, base, top]) => {
            (*base, *top, machine.rec(*rec)?.request?.ripas)
        }
        (FunctionId::RttInitRipas, [_, base, top]) => (*base, *top, Ripas::Ram),
        _ => return None,
    };
    let end = end_of(reply, top)?;
    Some(RipasSet { base, end, ripas })
}

// How far a call sets a RIPAS, by its reply; one that doesn't return up to the top at most.
fn end_of(reply: ReplyRef<'_>, top: u64) -> Option<u64> {
    match reply {
        ReplyRef::Ok([end]) => Some(*end),
        ReplyRef::Ok([]) => Some(top),
        _ => None,
    }
}

impl RipasRead {
    /// Whether a call sets it.
    pub(crate) fn is_set_by(self, set: &RipasSet) -> bool {
        self.lies_in(set.base, set.end) && self.is(set.ripas)
    }

    /// Whether it is this RIPAS.
    pub(crate) fn is(self, ripas: Ripas) -> bool {
        ripas_number(ripas) == self.ripas
    }

    /// Whether it is what is left once the page is taken back of an entry with this RIPAS.
    pub(crate) fn is_left_of(self, ripas: Ripas) -> bool {
        match ripas {
            Ripas::Ram => self.is(Ripas::Destroyed),
            Ripas::Empty | Ripas::Destroyed => self.is(ripas),
        }
    }

    // Whether the entry lies in a stretch.
    fn lies_in(self, base: u64, end: u64) -> bool {
        base <= self.ipa && self.ipa < end
    }
}

impl RipasLook {
    /// What a step does to the RIPAS, where it changes it.
    pub(crate) fn write_of(self, history: &History, step: Step) -> Option<RipasWrite> {
        let command = command_at(history, step.called as usize)?;
        let reply = reply_of(history, step.returned)?;
        match (command.function, command.words) {
            (FunctionId::RttSetRipas, [rd, _, base, top])
            | (FunctionId::RttInitRipas, [rd, base, top])
                if *rd == self.rd && self.read.lies_in(*base, end_of(reply, *top)?) => {
                step.sets.map(RipasWrite::Sets)
            }
            (FunctionId::DataDestroy, [rd, ipa])
                if *rd == self.rd && *ipa == self.read.ipa && matches!(reply, ReplyRef::Ok(_)) => {
                Some(RipasWrite::Destroys)
            }
            _ => None,
        }
    }

    /// Whether the RIPAS that was read may be what is left after it.
    pub(crate) fn may_follow(self, write: RipasWrite) -> bool {
        match write {
            RipasWrite::Sets(ripas) => self.read.is(ripas),
            RipasWrite::Destroys => !self.read.is(Ripas::Ram),
        }
    }
}
