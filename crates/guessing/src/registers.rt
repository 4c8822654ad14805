//! Extensible measurements, and the calls that read and extend them.

use crate::calls::{CPUS, command_at, number_of};
use history::History;
use realm_desc::Rem;
use rmi_view::{CommandRef, ReplyRef};
use rmm_spec::FunctionId;
use std::alloc::{AllocError, Global};
use std::collections::HashMap;

/// How many extensible measurements a realm has.
const REMS: usize = 4;

/// The place of the return of a call that doesn't return.
pub(crate) const NEVER: u32 = u32::MAX;

/// A call that reads or extends a measurement, with the places of its two events.
#[derive(Clone, Copy)]
pub(crate) struct Use {
    pub(crate) cpu: u8,
    pub(crate) called: u32,
    pub(crate) returned: u32,
    /// Whether it extends the measurement, and doesn't read it.
    pub(crate) extends: bool,
}

/// A reading of a measurement that gave another value than those which were found.
#[derive(Clone, Copy)]
pub struct Unread {
    /// The address of the realm's descriptor.
    pub rd: u64,
    /// Which of its extensible measurements it is, counted from 0.
    pub number: usize,
    /// The place of its return.
    pub place: u32,
}

/// A measurement of one realm, with the calls that read and extend it, in the order of their returns.
#[derive(Drop)]
pub(crate) struct Register {
    pub(crate) rd: u64,
    pub(crate) number: usize,
    pub(crate) start: Rem,
    pub(crate) uses: Vec<Use>,
}

impl Register {
    /// A reading of it that gave another value.
    pub(crate) fn unread(&self, used: &Use) -> Unread {
        Unread {
            rd: self.rd,
            number: self.number,
            place: used.returned,
        }
    }
}

/// The measurements of all realms that were made, four of each in a row.
#[derive(Drop)]
pub(crate) struct Registers {
    alloc: Global,
    pub(crate) all: Vec<Register>,
    // by the address of its descriptor where the measurements of the realm stand that was made there last
    firsts: HashMap<u64, usize>,
    // the same for the realm whose REC runs on each CPU
    inside: [Option<usize>; CPUS],
}

impl Registers {
    /// No realm was made.
    pub(crate) fn new(alloc: Global) -> Registers {
        Registers {
            alloc,
            all: Vec::new(alloc),
            firsts: HashMap::new(alloc),
            inside: [None; CPUS],
        }
    }

    /// The same measurements once more.
    pub(crate) fn copy(&self) -> Result<Registers, AllocError> {
        Ok(Registers {
            alloc: self.alloc,
            all: copied(self.alloc, self.all.as_slice())?,
            firsts: copied_firsts(self.alloc, &self.firsts)?,
            inside: self.inside,
        })
    }

    /// A realm is made at the address.
    pub(crate) fn make_realm(&mut self, rd: u64, algo: u64) -> Result<(), AllocError> {
        let first = self.all.len();
        for number in 0..REMS {
            self.all.push(Register {
                rd,
                number,
                start: Rem::start(algo),
                uses: Vec::new(self.alloc),
            })?;
        }
        self.firsts.insert(rd, first)?;
        Ok(())
    }

    /// A REC of the realm runs on the CPU.
    pub(crate) fn enter(&mut self, cpu: u8, rd: u64) {
        if let Some(inside) = self.inside.get_mut(usize::from(cpu)) {
            *inside = self.firsts.get(&rd).copied();
        }
    }

    /// The measurement of that number, counted from 0, of the realm whose REC runs on the CPU.
    pub(crate) fn register(&self, cpu: u8, number: usize) -> Option<usize> {
        let Some(Some(first)) = self.inside.get(usize::from(cpu)) else {
            return None;
        };
        first.checked_add(number)
    }

    /// A call that reads or extends the measurement returns.
    pub(crate) fn add(&mut self, register: usize, used: Use) -> Result<(), AllocError> {
        match self.all.get_mut(register) {
            Some(register) => register.uses.push(used)?,
            None => {}
        }
        Ok(())
    }

    /// A CPU's call that was made at the place doesn't return. Where it extends a measurement, another call may need it.
    pub(crate) fn add_open(
        &mut self,
        history: &History,
        cpu: u8,
        called: u32,
    ) -> Result<(), AllocError> {
        let Some(command) = command_at(history, called as usize) else {
            return Ok(());
        };
        if !matches!(command.function, FunctionId::MeasurementExtend) {
            return Ok(());
        }
        let Some(number) = number_of(command) else {
            return Ok(());
        };
        let Some(register) = self.register(cpu, number) else {
            return Ok(());
        };
        let used = Use {
            cpu,
            called,
            returned: NEVER,
            extends: true,
        };
        self.add(register, used)
    }

    /// Notes what a call does to a realm that was made, or that it makes. `owner` is the realm of a REC that is entered.
    pub(crate) fn note(
        &mut self,
        cpu: u8,
        command: CommandRef<'_>,
        reply: ReplyRef<'_>,
        owner: Option<u64>,
    ) -> Result<(), AllocError> {
        let ReplyRef::Ok(_) = reply else {
            return Ok(());
        };
        match (command.function, command.words, owner) {
            (FunctionId::RealmCreate, [rd, _, _, _, _, algo], _) => self.make_realm(*rd, *algo),
            (FunctionId::RecEnter, _, Some(rd)) => {
                self.enter(cpu, rd);
                Ok(())
            }
            _ => Ok(()),
        }
    }
}

// The same measurements once more.
fn copied(alloc: Global, registers: &[Register]) -> Result<Vec<Register>, AllocError> {
    let mut copies = Vec::with_capacity(alloc, registers.len())?;
    for register in registers {
        copies.push(Register {
            rd: register.rd,
            number: register.number,
            start: register.start,
            uses: register.uses.to_vec(alloc)?,
        })?;
    }
    Ok(copies)
}

// The same once more.
fn copied_firsts(
    alloc: Global,
    firsts: &HashMap<u64, usize>,
) -> Result<HashMap<u64, usize>, AllocError> {
    let mut copies = HashMap::new(alloc);
    for (rd, first) in firsts.iter() {
        copies.insert(*rd, *first)?;
    }
    Ok(copies)
}
