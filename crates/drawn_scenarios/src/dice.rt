//! Numbers drawn from a seed.

ghost use Rattle.std.specs.Prelude.{◌<◌};

use rand_core::{Rng, SeedableRng};
use rand_xoshiro::Xoshiro256PlusPlus;

/// A generator. For one seed it draws the same numbers on every machine.
#[derive(Drop)]
pub struct Dice {
    words: Xoshiro256PlusPlus,
}

impl Dice {
    pub fn new(seed: u64) -> Dice {
        Dice {
            words: Xoshiro256PlusPlus::seed_from_u64(seed),
        }
    }

    /// A number below the limit. Those below 2^64 modulo the limit come a little more often.
    pub fn below(&mut self, limit: u64) -> u64
        requires { 0 < limit }
        ensures { result < limit }
    {
        self.words.next_u64() % limit
    }

    /// Whether this is the one of so many cases.
    pub fn one_in(&mut self, cases: u64) -> bool
        requires { 0 < cases }
    {
        self.below(cases) == 0
    }

    /// Any number.
    pub(crate) fn word(&mut self) -> u64 {
        self.words.next_u64()
    }
}
