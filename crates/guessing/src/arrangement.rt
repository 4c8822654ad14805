//! An order whose calls on measurements are put in anew.

use crate::calls::{CPUS, command_at, measured, reply_at};
use crate::order::{Arranged, Placed, with_uses};
use crate::registers::{Registers, Use};
use crate::tries::Tries;
use history::{History, Places};
use rmi_view::{CommandRef, ReplyRef};
use rmm_spec::{Call, FunctionId};
use std::alloc::{AllocError, Global};
use std::collections::HashMap;

/// A call on a measurement, by the measurement's number.
#[derive(Clone, Copy)]
struct Measured {
    register: usize,
    used: Use,
}

/// An order that is gone through, call by call.
#[derive(Drop)]
struct Arrangement {
    alloc: Global,
    registers: Registers,
    // how many calls of each CPU were passed
    counts: [u32; CPUS],
    // by the address of a REC the realm that it was made for last
    owners: HashMap<u64, u64>,
    // the calls on no measurement
    others: Vec<Placed>,
    measured: Vec<Measured>,
    // by the place of its return which of those it is, counted from 1
    by_return: Vec<usize>,
}

/// The order, where the calls on each extensible measurement stand as they return, or in an order in which each reads what it read, if one is
/// found. One that doesn't return stands there only where a reading needs it.
pub fn arranged<T: Tries>(
    alloc: Global,
    history: &History,
    order: &[Placed],
    tries: &mut T,
) -> Result<Arranged, AllocError> {
    let mut arrangement = Arrangement {
        alloc,
        registers: Registers::new(alloc),
        counts: [0; CPUS],
        owners: HashMap::new(alloc),
        others: Vec::with_capacity(alloc, order.len())?,
        measured: Vec::new(alloc),
        by_return: vec![in alloc; 0usize; history.len()]?,
    };
    for placed in order {
        arrangement.pass(history, *placed)?;
    }
    arrangement.with_measured(history, tries)
}

impl Arrangement {
    // Takes the next call of the order.
    fn pass(&mut self, history: &History, placed: Placed) -> Result<(), AllocError> {
        let Some(count) = self.counts.get_mut(usize::from(placed.cpu)) else {
            return Ok(());
        };
        let number = *count;
        *count = number.saturating_add(1);
        let Some(places) = history.places_of(placed.cpu, number) else {
            return Ok(());
        };
        let Some(command) = command_at(history, places.called as usize) else {
            return Ok(());
        };
        match places.returned {
            Some(returned) => match reply_at(history, returned as usize) {
                Some(reply) => self.pass_finished(placed, places, command, reply),
                None => Ok(()),
            },
            None
                if matches!(
                    command.function,
                    FunctionId::MeasurementRead | FunctionId::MeasurementExtend
                ) => {
                *count = number;
                Ok(())
            }
            None => {
                self.others.push(placed)?;
                Ok(())
            }
        }
    }

    // Takes a call that returned.
    fn pass_finished(
        &mut self,
        placed: Placed,
        places: Places,
        command: CommandRef<'_>,
        reply: ReplyRef<'_>,
    ) -> Result<(), AllocError> {
        let register = match measured(command, reply) {
            Some(number) => self.registers.register(placed.cpu, number),
            None => None,
        };
        match register {
            Some(register) => self.pass_measured(register, placed.cpu, places, command),
            None => {
                self.others.push(placed)?;
                self.note(placed.cpu, command, reply)
            }
        }
    }

    // Takes a call on the measurement.
    fn pass_measured(
        &mut self,
        register: usize,
        cpu: u8,
        places: Places,
        command: CommandRef<'_>,
    ) -> Result<(), AllocError> {
        let Some(returned) = places.returned else {
            return Ok(());
        };
        self.measured.push(Measured {
            register,
            used: Use {
                cpu,
                called: places.called,
                returned,
                extends: matches!(command.function, FunctionId::MeasurementExtend),
            },
        })?;
        if let Some(at) = self.by_return.get_mut(returned as usize) {
            *at = self.measured.len();
        }
        Ok(())
    }

    // Notes which realms are made, whose RECs are made, and which are entered.
    fn note(
        &mut self,
        cpu: u8,
        command: CommandRef<'_>,
        reply: ReplyRef<'_>,
    ) -> Result<(), AllocError> {
        let owner = match command.function {
            FunctionId::RecEnter => match command.words.first() {
                Some(rec) => self.owners.get(rec).copied(),
                None => None,
            },
            FunctionId::RecCreate => {
                self.note_owner(command, reply)?;
                None
            }
            _ => None,
        };
        self.registers.note(cpu, command, reply, owner)
    }

    // A REC is made.
    fn note_owner(
        &mut self,
        command: CommandRef<'_>,
        reply: ReplyRef<'_>,
    ) -> Result<(), AllocError> {
        match (command.call(), reply) {
            (Call::RecCreate { rd, rec, .. }, ReplyRef::Ok(_)) => {
                self.owners.insert(rec, rd)?;
                Ok(())
            }
            _ => Ok(()),
        }
    }

    // The order of all calls, those on measurements among them.
    fn with_measured<T: Tries>(
        self,
        history: &History,
        tries: &mut T,
    ) -> Result<Arranged, AllocError> {
        let mut registers = self.registers;
        for at in &self.by_return {
            let Some(index) = at.checked_sub(1) else {
                continue;
            };
            if let Some(measured) = self.measured.get(index) {
                registers.add(measured.register, measured.used)?;
            }
        }
        add_open_calls(history, &self.counts, &mut registers)?;
        with_uses(self.alloc, history, self.others, &registers, tries)
    }
}

// Adds the next calls of the CPUs that don't return.
fn add_open_calls(
    history: &History,
    counts: &[u32; CPUS],
    registers: &mut Registers,
) -> Result<(), AllocError> {
    for (cpu, number) in counts.iter().enumerate() {
        let Some(places) = history.places_of(cpu as u8, *number) else {
            continue;
        };
        if places.returned.is_none() {
            registers.add_open(history, cpu as u8, places.called)?;
        }
    }
    Ok(())
}
