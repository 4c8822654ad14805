//! An order that is put together event by event.

use crate::calls::{CPUS, OpenCall, command_at, is_look, is_never, measured, never, reply_of};
use crate::checkpoints::Checkpoints;
use crate::claims::{Claim, copied_claims};
use crate::open_calls::OpenCalls;
use crate::registers::{Registers, Use};
use crate::steps::Step;
use history::{EventRef, History, Places};
use rmm_spec::FunctionId;
use spec_machine::Machine;
use std::alloc::{AllocError, Global};

/// The calls that were put in so far, with the machine after all of them, and one after some of them.
#[derive(Drop)]
pub(crate) struct Draft<'h> {
    pub(crate) machine: Machine,
    pub(crate) open: OpenCalls<'h>,
    pub(crate) steps: Vec<Step>,
    /// What those that don't return are claimed to have been answered.
    pub(crate) claims: Vec<Claim>,
    pub(crate) checkpoints: Checkpoints,
    pub(crate) registers: Registers,
    // what returns there or later counts as what doesn't return
    until: u32,
}

impl<'h> Draft<'h> {
    /// No call yet. What returns at the place or later counts as what doesn't return.
    pub(crate) fn new(
        alloc: Global,
        history: &'h History,
        until: u32,
    ) -> Result<Draft<'h>, AllocError> {
        Ok(Draft {
            machine: Machine::new(alloc, history.config())?,
            open: OpenCalls::none(),
            steps: Vec::new(alloc),
            claims: Vec::new(alloc),
            checkpoints: Checkpoints::none(alloc),
            registers: Registers::new(alloc),
            until,
        })
    }

    /// The same calls once more, where what returns at the place or later counts as what doesn't return.
    pub(crate) fn copy(&self, alloc: Global, until: u32) -> Result<Draft<'h>, AllocError> {
        Ok(Draft {
            machine: self.machine.copy()?,
            open: self.open,
            steps: self.steps.to_vec(alloc)?,
            claims: copied_claims(alloc, self.claims.as_slice())?,
            checkpoints: self.checkpoints.copy()?,
            registers: self.registers.copy()?,
            until,
        })
    }

    /// Takes the event at the place. Whether the order goes on: a call that returns has to stand in it.
    pub(crate) fn take(
        &mut self,
        alloc: Global,
        history: &'h History,
        place: usize,
        event: EventRef<'_>,
    ) -> Result<bool, AllocError> {
        match event {
            EventRef::Called { cpu, number, .. } => {
                self.take_call(history, place, cpu, number)?;
                Ok(true)
            }
            EventRef::Returned { cpu, .. } => {
                self.take_return(alloc, history, usize::from(cpu), place)
            }
        }
    }

    // The CPU's call is open. Where it changes nothing, by its later reply, it is put in now if it is given that.
    fn take_call(
        &mut self,
        history: &'h History,
        place: usize,
        cpu: u8,
        number: u32,
    ) -> Result<(), AllocError> {
        let Some(places) = history.places_of(cpu, number) else {
            return Ok(());
        };
        let Some(call) = self.open_call(history, cpu, places) else {
            return Ok(());
        };
        self.open.put(call);
        if call.is_look {
            self.place_call(usize::from(cpu), place)?;
        }
        Ok(())
    }

    // The CPU's call that was made at one place and returns at the other, or doesn't return.
    fn open_call(&self, history: &'h History, cpu: u8, places: Places) -> Option<OpenCall<'h>> {
        let returned = match places.returned {
            Some(returned) if returned < self.until => returned,
            _ => never(cpu),
        };
        let command = command_at(history, places.called as usize)?;
        let reply = reply_of(history, returned)?;
        let register = match measured(command, reply) {
            Some(number) => self.registers.register(cpu, number),
            None => None,
        };
        Some(OpenCall {
            cpu,
            called: places.called,
            returned,
            command,
            reply,
            is_look: !is_never(returned) && is_look(command, reply),
            is_placed: false,
            register,
        })
    }

    /// Adds the calls that are open now to their measurements: each that extends one may be needed by another call.
    pub(crate) fn add_open_calls(&mut self, history: &History) -> Result<(), AllocError> {
        for cpu in 0..CPUS {
            if let Some(call) = self.open.of(cpu) {
                let (by, called) = (call.cpu, call.called);
                self.registers.add_open(history, by, called)?;
            }
        }
        Ok(())
    }

    fn take_return(
        &mut self,
        alloc: Global,
        history: &History,
        cpu: usize,
        place: usize,
    ) -> Result<bool, AllocError> {
        if self.open.waits(cpu) && !self.place_with_others(alloc, history, cpu, place)? {
            if !self.place_earlier(alloc, history, cpu)?
                && !self.place_reordered(alloc, history, cpu, place)?
            {
                return Ok(false);
            }
            self.place_looks(cpu, place)?;
        }
        self.close(cpu)?;
        Ok(true)
    }

    // The CPU's call is open no longer.
    fn close(&mut self, cpu: usize) -> Result<(), AllocError> {
        let Some(call) = self.open.of(cpu) else {
            return Ok(());
        };
        let register = call.register;
        let used = Use {
            cpu: call.cpu,
            called: call.called,
            returned: call.returned,
            extends: matches!(call.command.function, FunctionId::MeasurementExtend),
        };
        self.open.close(cpu);
        match register {
            Some(register) => self.registers.add(register, used),
            None => Ok(()),
        }
    }

    /// Puts in each open call that changes nothing and is given its reply now, after a CPU's call that may have changed something.
    pub(crate) fn place_looks(&mut self, after: usize, place: usize) -> Result<(), AllocError> {
        if !self.open.has_looks() || self.open.is_look(after) {
            return Ok(());
        }
        for cpu in 0..CPUS {
            if self.open.waits_for_a_look(cpu) {
                self.place_call(cpu, place)?;
            }
        }
        Ok(())
    }
}
