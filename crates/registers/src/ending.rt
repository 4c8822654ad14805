//! What possibilities come to by the call that returns.

ghost use Rattle.std.specs.Prelude.{◌<◌, OnOk};
ghost use Rattle.verdict_laws.specs.Registers.{IsAmong, Possibility};
ghost use Rattle.registers.specs.Growing.{EndsIn, Keeps};
ghost use Rattle.registers.specs.Leads.{call_done};

use crate::collecting::take;
use crate::done::Done;
use crate::fitting::fits;
use crate::possible::Possible;
use history::History;
use std::alloc::AllocError;

/// Adds what the possibilities come to by the call that returns at the place.
pub(crate) fn end_each(
    history: &History,
    place: u32,
    cpu: u8,
    call: &Done,
    begun: &[Possible],
    next: &mut Vec<Possible>,
) -> Result<(), AllocError>
    requires { cpu < 8 }
    ensures kept { OnOk result (Keeps next.old.items next.new.items) }
    ensures ended { OnOk result ((possibility : Possibility) → IsAmong possibility begun.now
        → EndsIn history.now.recorded.events place cpu (call_done call.now) next.new.items possibility) }
{
    for one in begun {
        end(history, place, cpu, call, one, next)?;
    }
    Ok(())
}

/// Adds what one of the possibilities comes to by that call, where it may come after it.
fn end(
    history: &History,
    place: u32,
    cpu: u8,
    call: &Done,
    one: &Possible,
    next: &mut Vec<Possible>,
) -> Result<(), AllocError>
    requires { cpu < 8 }
    ensures kept { OnOk result (Keeps next.old.items next.new.items) }
    ensures ended { OnOk result (EndsIn history.now.recorded.events place cpu (call_done call.now) next.new.items one.now) }
{
    if !fits(history, call, Some(place), one.value()) {
        return Ok(());
    }
    take(next, one.with(cpu, false, call))
}
