//! What each CPU called last.

ghost use Rattle.std.specs.Prelude.{◌≡◌, ◌<◌};
ghost use Rattle.merging.specs.SeenEvents.{happened_seen};
ghost use Rattle.merging.specs.Renamed.{lasts_in, lasts_with, no_lasts};

use crate::{HappenedRef, MomentRef};
use rmm_spec::FunctionId;

/// The function of each CPU's last call.
#[derive(Clone, Copy)]
pub struct Lasts {
    pub(crate) functions: [Option<FunctionId>; 8],
}

impl Lasts {
    /// Before the first call.
    pub fn new() -> Lasts
        ensures { lasts_in result ≡ no_lasts }
    {
        Lasts {
            functions: [None; 8],
        }
    }

    /// The function of a CPU's last call, if it has made one.
    pub fn at(&self, cpu: u8) -> Option<FunctionId>
        ensures { result ≡ lasts_in self.now cpu }
    {
        self.functions
            .get(usize::from(cpu))
            .copied()
            .unwrap_or(None)
    }

    /// Takes the next moment.
    pub fn take(&mut self, slot: HappenedRef<'_>)
        requires { slot.cpu < 8 }
        ensures { lasts_in self.new ≡ lasts_with (lasts_in self.old) (happened_seen slot.entry) }
    {
        let before = self.at(slot.cpu);
        let last = last_after(before, slot.moment);
        let cpu = usize::from(slot.cpu);
        self.functions[cpu] = last;
    }
}

ghost use Rattle.merging.specs.SeenEvents.{moment_seen};
ghost use Rattle.merging.specs.Renamed.{function_after};

// The function of a CPU's last call after one more moment.
fn last_after(last: Option<FunctionId>, moment: MomentRef<'_>) -> Option<FunctionId>
    ensures { result ≡ function_after last (moment_seen moment.entry) }
{
    match moment {
        MomentRef::Call(command) => Some(command.function),
        MomentRef::Commit(_) => last,
        MomentRef::Return(_) => last,
    }
}
