//! How far a CPU has come.

use memory_map::Pa;
use rmm_spec::{Command, Reply};

/// How far a CPU has come with its calls, which it numbers from 0.
#[derive(Drop)]
pub(crate) enum Phase {
    /// No call is open, and the next has this number.
    Between {
        number: u32,
    },
    /// The call is open and not committed. An Enter may have learnt the realm of its REC.
    Deciding {
        number: u32,
        command: Command,
        learnt: Option<Pa>,
    },
    /// The call is committed.
    Decided {
        number: u32,
        command: Command,
        reply: Reply,
    },
    GivenUp,
    Stopped,
}

impl Phase {
    ghost use Rattle.std.specs.Prelude.{◌≡◌};
    ghost use Rattle.rmm_spec.specs.World.{phase_learnt};
    ghost use Rattle.world.specs.Cpus as spec;
    ghost use Rattle.world.specs.Cpus.{phase_in};

    /// Whether the CPU hasn't ended.
    pub(crate) fn is_going(&self) -> bool
        ensures { result ≡ spec.is_going (phase_in self.now) }
    {
        match self {
            Phase::Between { .. } | Phase::Deciding { .. } | Phase::Decided { .. } => true,
            Phase::GivenUp | Phase::Stopped => false,
        }
    }

    /// Whether a call is open and not committed.
    pub(crate) fn is_deciding(&self) -> bool
        ensures { result ≡ spec.is_deciding (phase_in self.now) }
    {
        matches!(self, Phase::Deciding { .. })
    }

    /// What was learnt gives way to what is.
    pub(crate) fn learn(&mut self, now: Option<Pa>)
        ensures { phase_in self.new ≡ phase_learnt now (phase_in self.old) }
    {
        if let Phase::Deciding { learnt, .. } = self {
            *learnt = now;
        }
    }
}
