//! Whose turn is next, and what that CPU is told.

ghost use Rattle.std.specs.Prelude.{◌<◌};

use crate::dice::Dice;
use memory_map::Config;
use scenario::{Due, Will};

/// A schedule that is drawn turn by turn. For one seed and as many CPUs it is the same.
#[derive(Drop)]
pub(crate) struct Schedule {
    dice: Dice,
    cpus: u8,
    cpu: u8,
    // another CPU is drawn after one of so many turns
    stay: u64,
    // one of so many turns ends a CPU
    lasting: u64,
    ghost some: { 0 < cpus },
    ghost stays: { 0 < stay },
    ghost lasts: { 0 < lasting },
}

impl Schedule {
    /// CPUs go on for 1 to 32 turns at a time on average, and are told to end rarely, or almost never.
    pub(crate) fn new(config: &Config, seed: u64) -> Schedule {
        let mut dice = Dice::new(seed);
        let stay = 1 + dice.below(32);
        let lasting = match dice.below(4) {
            0 => 400,
            1 => 1000,
            2 => 4000,
            _ => 1_000_000,
        };
        Schedule {
            dice,
            cpus: config.cpus(),
            cpu: 0,
            stay,
            lasting,
        }
    }

    pub(crate) fn next(&mut self) -> Due {
        if self.dice.one_in(self.stay) {
            self.cpu = self.dice.below(u64::from(self.cpus)) as u8;
        }
        Due {
            cpu: self.cpu,
            will: self.will(),
        }
    }

    // Go, but for one of so many turns.
    fn will(&mut self) -> Will {
        if !self.dice.one_in(self.lasting) {
            return Will::Go;
        }
        if self.dice.one_in(2) {
            Will::Stop
        } else {
            Will::GiveUp
        }
    }
}
