//! What is watched on the way to a failing line.

ghost use Rattle.std.specs.Prelude.{◌≡◌};
ghost use Rattle.spec_machine.specs.View.{state_of};
ghost use Rattle.explain.specs.Watch as spec;
ghost use Rattle.explain.specs.Track.{IsSampleOf};

use arrayvec::ArrayVec;
use reasons::{Source, Test, is_standing, is_there, passes, read, source_of};
use rmm_spec::{Accepted, Command, Refusal};
use spec_machine::Machine;

/// What is asked of each state.
#[derive(Drop)]
pub(crate) enum Watch {
    /// Whether the condition fails, of what is there; and whether that is there before the failing line.
    Condition(Test, bool),
    /// Whether the command of the CPU is accepted.
    Accepted(u8, Command),
    /// Nothing but what the source has.
    Read(Source),
}

/// What one state answers.
#[derive(Drop)]
pub(crate) struct Sample {
    pub(crate) is_so: bool,
    pub(crate) is_there: bool,
    pub(crate) read: ArrayVec<u64, 10>,
}

/// What the machine's state answers.
#[tactic(auto, unfolding(crate::specs::Watch::is_so, crate::specs::Watch::is_there, crate::specs::Watch::has))]
pub(crate) fn sample_of(machine: &Machine, watch: &Watch) -> Sample
    ensures { IsSampleOf (state_of machine.now) watch.now result }
{
    match watch {
        Watch::Condition(test, standing) => {
            let is_there = is_standing(machine, *test) || !*standing;
            Sample {
                is_so: is_there && !passes(machine, *test),
                is_there,
                read: read(machine, source_of(*test)),
            }
        }
        Watch::Accepted(cpu, command) => Sample {
            is_so: is_accepted(&machine.outcome(*cpu, command)),
            is_there: true,
            read: ArrayVec::new(),
        },
        Watch::Read(source) => Sample {
            is_so: true,
            is_there: is_there(machine, *source),
            read: read(machine, *source),
        },
    }
}

// Whether an answer is no refusal.
fn is_accepted(answer: &Result<Accepted, Refusal>) -> bool
    ensures { result ≡ spec.is_accepted answer.now }
{
    match answer {
        Ok(_) => true,
        Err(_) => false,
    }
}
