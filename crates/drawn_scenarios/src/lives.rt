//! The commands of a realm's life, one after another.

ghost use Rattle.std.specs.Prelude.{◌≤◌, ◌<◌, length};

use arrayvec::ArrayVec;
use memory_map::GRANULE_BYTES;
use rmm_spec::{Command, FunctionId};
use std::alloc::AllocError;

/// How many granules a realm with its REC has.
pub const SPAN: u64 = 5;

/// How many commands a life has.
pub const LENGTH: u32 = 21;

/// A realm with one REC, which is entered and left twice, and its end. Its granules are delegated before, and undelegated after.
#[derive(Clone, Copy)]
pub struct Life {
    place: u64,
    vmid: u64,
    step: u8,
    ghost low: { place < 1024 },
}

impl Life {
    ghost use Rattle.std.specs.Prelude.{◌<◌};

    /// The life of a realm with this VMID whose granules are at this place.
    pub fn new(place: u64, vmid: u64) -> Life
        requires { place < 1024 }
    {
        Life {
            place,
            vmid,
            step: 0,
        }
    }

    /// Whether the next command is the first.
    pub fn begins(self) -> bool {
        self.step == 0
    }

    /// Appends the next commands.
    pub fn push_next(&mut self, program: &mut Vec<Command>, count: u32) -> Result<(), AllocError> {
        for _command in 0..count {
            program.push(self.next())?;
        }
        Ok(())
    }

    /// The next command. After the last comes the first again.
    pub fn next(&mut self) -> Command {
        let step = self.step;
        self.step = if step < 20 { step + 1 } else { 0 };
        match step {
            0..5 => command(FunctionId::GranuleDelegate, &[self.granule(step)]),
            16..21 => command(FunctionId::GranuleUndelegate, &[self.granule(step - 16)]),
            5 | 6 => self.made(step == 6),
            _ => self.between(step),
        }
    }

    // The realm or the REC is made.
    fn made(self, is_rec: bool) -> Command {
        let (rd, second) = (self.granule(0), self.granule(1));
        if !is_rec {
            return command(
                FunctionId::RealmCreate,
                &[rd, second, 0x27, 1, self.vmid, 0],
            );
        }
        let words = [rd, self.granule(2), 0, 1, self.granule(3), self.granule(4)];
        command(FunctionId::RecCreate, &words)
    }

    // What comes once both are made, until they are destroyed.
    fn between(self, step: u8) -> Command {
        let (rd, rec) = (self.granule(0), self.granule(2));
        match step {
            7 => command(FunctionId::RealmActivate, &[rd]),
            8 | 11 => command(FunctionId::RecEnter, &[rec]),
            9 => command(FunctionId::HostCall, &[1]),
            12 => command(FunctionId::RealmConfig, &[]),
            14 => command(FunctionId::RecDestroy, &[rec]),
            15 => command(FunctionId::RealmDestroy, &[rd]),
            _ => command(FunctionId::Exit, &[]),
        }
    }

    // The address of one of its granules.
    fn granule(self, number: u8) -> u64
        requires { number < 5 }
    {
        (self.place * SPAN + u64::from(number)) * GRANULE_BYTES
    }
}

/// A command of these words.
pub fn command(function: FunctionId, given: &[u64]) -> Command
    requires { length given.now ≤ 10 }
{
    let mut words = ArrayVec::new();
    words.try_extend_from_slice(given).unwrap();
    Command { function, words }
}
