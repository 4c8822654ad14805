//! Scenarios that are drawn as a caller wants them.

use crate::dice::Dice;
use crate::draft::{listed_turns, scenario_of};
use crate::drafting::{Amount, Edges, drafted_programs};
use crate::schedule::Schedule;
use crate::sharing::Sharing;
use anyhow::Result;
use memory_map::Config;
use scenario::Scenario;
use std::alloc::Global;

/// Of so many turns a command with nobody in its way needs about one.
const TURNS: u64 = 12;

/// What a drawn scenario is to be like.
#[derive(Clone, Copy)]
pub struct Plan {
    pub config: Config,
    pub sharing: Sharing,
    /// How many commands all CPUs have together.
    pub commands: u32,
    /// Whether the turns are listed for which the programs were drafted.
    pub has_turns: bool,
}

impl Plan {
    /// The scenario of a seed.
    pub fn drawn(self, alloc: Global, seed: u64) -> Result<Scenario> {
        let mut dice = Dice::new(seed);
        let schedule_seed = dice.word();
        let amount = Amount {
            commands: u64::from(self.commands),
            edges: Edges::Some,
        };
        let schedule = Schedule::new(&self.config, schedule_seed);
        let programs = drafted_programs(
            alloc,
            &self.config,
            self.sharing,
            amount,
            schedule,
            &mut dice,
        )?;
        let count = if self.has_turns {
            u64::from(self.commands) * TURNS
        } else {
            0
        };
        let schedule = Schedule::new(&self.config, schedule_seed);
        let turns = listed_turns(alloc, schedule, count)?;
        scenario_of(self.config, programs, 4096, turns)
    }
}
