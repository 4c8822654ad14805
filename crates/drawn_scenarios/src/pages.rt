//! Realms with a table of pages for each CPU, and the commands that fill and empty it.

ghost use Rattle.std.specs.Prelude.{◌<◌};

use crate::lives::command;
use memory_map::GRANULE_BYTES;
use rmm_spec::{Command, FunctionId};
use std::alloc::AllocError;

/// How many granules a CPU has: those of its realm, its tables of levels 2 and 3, and its page.
const SPAN: u64 = 5;

/// A CPU's table of pages, in a realm of its own or in that of CPU 0.
#[derive(Clone, Copy)]
pub struct Pages {
    cpu: u64,
    is_shared: bool,
    ghost few: { cpu < 8 },
}

impl Pages {
    ghost use Rattle.std.specs.Prelude.{◌<◌};

    pub fn new(cpu: u64, is_shared: bool) -> Pages
        requires { cpu < 8 }
    {
        Pages { cpu, is_shared }
    }

    /// Appends the commands that make the table, and before them those that make its realm.
    pub fn push_made(self, program: &mut Vec<Command>) -> Result<(), AllocError> {
        for number in 0..5 {
            program.push(command(FunctionId::GranuleDelegate, &[self.granule(number)]))?;
        }
        if !self.is_shared || self.cpu == 0 {
            let words = [self.rd(), self.granule(1), 0x27, 1, self.cpu, 0];
            program.push(command(FunctionId::RealmCreate, &words))?;
        }
        let (ipa, function) = (self.base(), FunctionId::RttCreate);
        program.push(command(function, &[self.rd(), self.granule(2), ipa, 2]))?;
        program.push(command(function, &[self.rd(), self.granule(3), ipa, 3]))?;
        Ok(())
    }

    /// Appends so many times that the page is mapped, looked at, and taken back.
    pub fn push_rounds(self, program: &mut Vec<Command>, rounds: u64) -> Result<(), AllocError> {
        let (rd, page) = (self.rd(), self.granule(4));
        for round in 0..rounds {
            let ipa = self.base() | (round % 512) << 12;
            program.push(command(FunctionId::DataCreateUnknown, &[rd, page, ipa]))?;
            program.push(command(FunctionId::RttReadEntry, &[rd, ipa, 3]))?;
            program.push(command(FunctionId::DataDestroy, &[rd, ipa]))?;
        }
        Ok(())
    }

    // The first address of its table.
    fn base(self) -> u64 {
        self.cpu << 30
    }

    fn rd(self) -> u64 {
        if self.is_shared {
            GRANULE_BYTES
        } else {
            self.granule(0)
        }
    }

    // The address of one of the CPU's granules.
    fn granule(self, number: u64) -> u64
        requires { number < 5 }
    {
        (1 + self.cpu * SPAN + number) * GRANULE_BYTES
    }
}
