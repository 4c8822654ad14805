//! The commands of a realm's life with tables in both halves, pages and a REC that asks for memory.

ghost use Rattle.std.specs.Prelude.{◌<◌};

use crate::deep_emptying::EMPTYING;
use crate::deep_making::MAKING;
use crate::deep_running::RUNNING;
use crate::deep_words::{Listed, Word};
use crate::lives::command;
use arrayvec::ArrayVec;
use memory_map::GRANULE_BYTES;
use rmm_spec::{Command, FunctionId};

/// How many granules such a realm has.
pub const DEEP_SPAN: u64 = 10;

/// Such a realm at a place, and how far its life is.
#[derive(Clone, Copy)]
pub struct DeepLife {
    place: u64,
    vmid: u64,
    step: u8,
    ghost low: { place < 256 },
}

impl DeepLife {
    ghost use Rattle.std.specs.Prelude.{◌<◌};

    pub fn new(place: u64, vmid: u64) -> DeepLife
        requires { place < 256 }
    {
        DeepLife {
            place,
            vmid,
            step: 0,
        }
    }

    /// Whether the next command is the first.
    pub fn begins(self) -> bool {
        self.step == 0
    }

    /// The next command. After the last comes the first again.
    pub fn next(&mut self) -> Command {
        let step = self.step;
        self.step = if step < 54 { step + 1 } else { 0 };
        match step {
            0..10 => command(FunctionId::GranuleDelegate, &[self.granule(step)]),
            10..45 => self.between(step - 10),
            _ => command(
                FunctionId::GranuleUndelegate,
                &[self.granule(step.wrapping_sub(45) % 10)],
            ),
        }
    }

    fn between(self, step: u8) -> Command {
        let Some((function, words)) = listed(usize::from(step)) else {
            return command(FunctionId::Exit, &[]);
        };
        let mut given = ArrayVec::new();
        for word in words.iter().take(10) {
            let _ = given.try_push(self.word(*word));
        }
        Command {
            function: *function,
            words: given,
        }
    }

    fn word(self, word: Word) -> u64 {
        match word {
            Word::Granule(number) => self.granule(number % 10),
            Word::Vmid => self.vmid,
            Word::Plain(word) => word,
        }
    }

    // The address of one of its granules. The first of all is no realm's.
    fn granule(self, number: u8) -> u64
        requires { number < 10 }
    {
        (1 + self.place * DEEP_SPAN + u64::from(number)) * GRANULE_BYTES
    }
}

// The command of that number after the delegations, where there is one: the stages follow each other.
fn listed(number: usize) -> Option<&'static Listed> {
    let run = number.saturating_sub(MAKING.len());
    let emptied = run.saturating_sub(RUNNING.len());
    if number < MAKING.len() {
        MAKING.get(number)
    } else if run < RUNNING.len() {
        RUNNING.get(run)
    } else {
        EMPTYING.get(emptied)
    }
}
