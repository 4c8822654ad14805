//! Open calls that are put in.

use crate::asked::gives;
use crate::draft::Draft;
use crate::ripas::ripas_set;
use crate::steps::{Step, insert};
use command_rows::Sight;
use rmi_view::CommandRef;
use rmm_spec::FunctionId;
use std::alloc::AllocError;

impl Draft<'_> {
    /// Puts in the CPU's call, where it is given its reply now.
    pub(crate) fn place_call(&mut self, cpu: usize, place: usize) -> Result<bool, AllocError> {
        let Some(call) = self.open.of(cpu) else {
            return Ok(false);
        };
        if !gives(&mut self.machine, call.asked(), &mut self.claims)? {
            return Ok(false);
        }
        let index = self.steps.len();
        self.note(cpu, index, place)?;
        Ok(true)
    }

    /// Notes that the CPU's call stands in the order, where it was put in at the place and comes before the step of that index.
    pub(crate) fn note(
        &mut self,
        cpu: usize,
        index: usize,
        place: usize,
    ) -> Result<(), AllocError> {
        let Some(call) = self.open.of(cpu) else {
            return Ok(());
        };
        let sets = ripas_set(&self.machine, call.command, call.reply).map(|set| set.ripas);
        let step = Step {
            sets,
            ..call.step(place)
        };
        insert(&mut self.steps, index, step)?;
        self.note_placed(cpu)
    }

    /// The same, where the order has the call already.
    pub(crate) fn note_placed(&mut self, cpu: usize) -> Result<(), AllocError> {
        let Some(call) = self.open.of(cpu) else {
            return Ok(());
        };
        let (number, command, reply) = (call.cpu, call.command, call.reply);
        let owner = self.owner(command);
        self.open.place(cpu);
        self.registers.note(number, command, reply, owner)
    }

    // The realm of the REC that a command enters.
    fn owner(&self, command: CommandRef<'_>) -> Option<u64> {
        if !matches!(command.function, FunctionId::RecEnter) {
            return None;
        }
        let rec = self.machine.rec(*command.words.first()?)?;
        Some(rec.owner.address())
    }
}
