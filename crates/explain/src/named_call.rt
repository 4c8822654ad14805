//! A call of a history by its name.

ghost use Rattle.std.specs.Prelude.{◌≡◌};
ghost use Rattle.explain.specs.Told.{IsTold};
ghost use Rattle.rmm_spec.specs.Linearization.{IsKnown};

use history::History;
use reasons::NamedCall;

/// The call of that number of a CPU.
pub(crate) fn named_call(history: &History, cpu: u8, number: u32) -> NamedCall
    requires { IsKnown history.now.recorded.events cpu number }
    ensures told { IsTold history.now.recorded.events result }
    ensures cpu { result.cpu ≡ cpu }
    ensures number { result.number ≡ number }
{
    let Some(call) = history.call_of(cpu, number) else {
        unreachable!()
    };
    NamedCall { cpu, number, call }
}
