//! A machine, asked for a call's reply.

use crate::claims::{Claim, put_claim};
use arrayvec::ArrayVec;
use command_rows::Sight;
use memory_map::{can_be_set, entry_number, entry_size};
use rmi_view::{CommandRef, ReplyRef};
use rmm_spec::{Accepted, Reply, Stretch};
use spec_machine::Machine;
use std::alloc::AllocError;
use std::cmp::min;

/// The entries of a table.
pub(crate) const ENTRIES: u64 = 512;

/// The level of the tables whose entries are pages.
const LAST_LEVEL: u8 = 3;

/// A call that a machine is asked for, and the reply that it has to give, or none where the call doesn't return.
#[derive(Clone, Copy)]
pub(crate) struct Asked<'h> {
    pub(crate) cpu: u8,
    pub(crate) command: CommandRef<'h>,
    pub(crate) reply: Option<ReplyRef<'h>>,
    /// Whether it reads or extends an extensible measurement.
    pub(crate) is_measured: bool,
}

/// Whether the machine gives a call its reply, and carries it out. What is claimed of one that doesn't return is noted. Extensible measurements
/// are looked at later: what is read of them may be anything, and extensions change nothing.
#[inline(always)]
pub(crate) fn gives(
    machine: &mut Machine,
    asked: Asked<'_>,
    claims: &mut Vec<Claim>,
) -> Result<bool, AllocError> {
    let Asked { cpu, command, .. } = asked;
    if asked.is_measured {
        return Ok(machine.outcome_seen(cpu, command).is_ok());
    }
    match asked.reply {
        Some(reply) => machine.offer_seen(cpu, command, reply),
        None => carries_out(machine, cpu, command, claims),
    }
}

// Whether the machine carries out a call that doesn't return. What is claimed of it is noted.
#[inline(never)]
fn carries_out(
    machine: &mut Machine,
    cpu: u8,
    command: CommandRef<'_>,
    claims: &mut Vec<Claim>,
) -> Result<bool, AllocError> {
    let Some(reply) = accepted(machine, cpu, command) else {
        return Ok(false);
    };
    if !machine.offer_seen(cpu, command, ReplyRef::of(&reply))? {
        return Ok(false);
    }
    put_claim(claims, cpu, reply)?;
    Ok(true)
}

// What the machine replies to a command that it carries out, and to one on a stretch as far as it gets.
fn accepted(machine: &Machine, cpu: u8, command: CommandRef<'_>) -> Option<Reply> {
    match machine.outcome_seen(cpu, command) {
        Err(_) => None,
        Ok(Accepted::Done { words, .. }) => Some(Reply::Ok(words)),
        Ok(Accepted::Reaches(stretch)) => {
            let mut words = ArrayVec::new();
            words.push(furthest_end(machine, &stretch)?);
            Some(Reply::Ok(words))
        }
    }
}

// The last end up to which each entry of the stretch may be set, where there is one.
fn furthest_end(machine: &Machine, stretch: &Stretch) -> Option<u64> {
    let size = entry_size(min(stretch.level, LAST_LEVEL));
    let first = entry_number(stretch.level, stretch.base);
    let mut end = None;
    for number in first..first + ENTRIES {
        let next = (number + 1).checked_mul(size)?;
        let entry = machine.entry_at(stretch.rd, stretch.level, number);
        if next > stretch.top || !can_be_set(stretch.purpose, entry) {
            break;
        }
        end = Some(next);
        if (number + 1) % ENTRIES == 0 {
            break;
        }
    }
    end
}
