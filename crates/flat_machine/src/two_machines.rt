//! The specification machine and the flat one, side by side.

use crate::fault::FlatFault;
use crate::machine::FlatMachine;
use crate::walks::ENTRIES;
use arrayvec::ArrayVec;
use memory_map::{Config, entry_size};
use rmm_spec::{Accepted, Command, Refusal, Reply, Stretch};
use spec_machine::Machine;
use std::alloc::{AllocError, Global};

/// Both machines, to which the same steps are offered.
#[derive(Drop)]
pub struct TwoMachines {
    machine: Machine,
    flat: FlatMachine,
}

/// What the machines did with a step.
#[derive(Clone, Copy, PartialEq)]
pub enum Stepped {
    /// Both took it, and carried the command out.
    Done,
    /// Both took it, with a reply that refuses the command.
    Refused,
    /// Neither took it.
    NotTaken,
    /// They differ in it.
    Differs,
}

impl TwoMachines {
    /// Two machines of that size in which every granule is the host's.
    pub fn new(alloc: Global, config: Config) -> Result<TwoMachines, AllocError> {
        Ok(TwoMachines {
            machine: Machine::new(alloc, config)?,
            flat: FlatMachine::new(alloc, config),
        })
    }

    /// The specification machine.
    pub fn machine(&self) -> &Machine {
        &self.machine
    }

    /// Offers the step to both, which are asked for the outcome of the command before.
    pub fn offer(
        &mut self,
        cpu: u8,
        command: &Command,
        reply: &Reply,
    ) -> Result<Stepped, FlatFault> {
        let outcome = self.machine.outcome(cpu, command);
        if !is_same(&outcome, &self.flat.outcome(cpu, command)?) {
            return Ok(Stepped::Differs);
        }
        let is_taken = self.machine.offer(cpu, command, reply)?;
        if self.flat.offer(cpu, command, reply)? != is_taken {
            return Ok(Stepped::Differs);
        }
        Ok(match (is_taken, reply) {
            (false, _) => Stepped::NotTaken,
            (true, Reply::Ok(_)) => Stepped::Done,
            (true, Reply::Err(..) | Reply::Misplaced) => Stepped::Refused,
        })
    }

    /// Has both carry the command out, with the reply that the specification machine gives. Where that leaves an end to choose,
    /// each is offered, from the farthest in a table on, until one is taken.
    pub fn execute(&mut self, cpu: u8, command: &Command) -> Result<Stepped, FlatFault> {
        let reply = match self.machine.outcome(cpu, command) {
            Ok(Accepted::Done { words, .. }) => Reply::Ok(words),
            Ok(Accepted::Reaches(stretch)) => return self.reach(cpu, command, &stretch),
            Err(refusal) => refusal.reply(),
        };
        self.offer(cpu, command, &reply)
    }

    fn reach(
        &mut self,
        cpu: u8,
        command: &Command,
        stretch: &Stretch,
    ) -> Result<Stepped, FlatFault> {
        if stretch.level > 3 {
            return Ok(Stepped::Differs);
        }
        let size = entry_size(stretch.level);
        for less in 0..ENTRIES {
            let mut words = ArrayVec::new();
            words.push(stretch.base.wrapping_add(size.wrapping_mul(ENTRIES - less)));
            let stepped = self.offer(cpu, command, &Reply::Ok(words))?;
            if stepped != Stepped::NotTaken {
                return Ok(stepped);
            }
        }
        Ok(Stepped::NotTaken)
    }
}

// Whether the outcomes have one reply, or leave the end of one stretch open.
fn is_same(one: &Result<Accepted, Refusal>, other: &Result<Accepted, Refusal>) -> bool {
    match (one, other) {
        (Err(one), Err(other)) => one == other,
        (Ok(Accepted::Done { words: one, .. }), Ok(Accepted::Done { words: other, .. })) => {
            one.as_slice() == other.as_slice()
        }
        (Ok(Accepted::Reaches(one)), Ok(Accepted::Reaches(other))) => {
            (one.rd, one.level, one.base, one.top) == (other.rd, other.level, other.base, other.top)
        }
        _ => false,
    }
}
