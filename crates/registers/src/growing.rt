//! The possibilities at a return.

ghost use Rattle.std.specs.Prelude.{◌≡◌, ◌<◌, ℕ, List, slice_get, Some, IfOk, IfSome, IsTrue, OnOk};
ghost use Rattle.verdict_laws.specs.Registers.{Possibility};
ghost use Rattle.registers.specs.declared.open_call.OpenCall.{OpenCall};
ghost use Rattle.registers.specs.Growing.{AllGrow, GrowsBy, GrowsByEach, Keeps};
ghost use Rattle.registers.specs.Leads.{Leads, call_done};

use crate::collecting::{FEW, take, with_call, without_call};
use crate::done::Done;
use crate::ending::end_each;
use crate::fitting::fits;
use crate::open_call::OpenCall;
use crate::possible::Possible;
use crate::setting::Setting;
use history::History;
use std::alloc::AllocError;

/// The possibilities after a call of the CPU that returns at the place, from those before, with the open calls of the other CPUs. None where
/// there are too many. What there is more of than few is taken from what is to spare for all registers.
pub(crate) fn next_possible(
    setting: &Setting<'_>,
    spare: &mut usize,
    opens: &[OpenCall],
    place: u32,
    cpu: u8,
    call: &Done,
    possible: &[Possible],
) -> Result<Option<Vec<Possible>>, AllocError>
    requires cpu { cpu < 8 }
    requires opens { (i : ℕ) (one : OpenCall) → slice_get opens.now i ≡ Some one → one.cpu < 8 }
    ensures { IfOk result (λ next. IfSome next (λ n. (begun : List Possibility)
        × Leads setting.now.history.now.recorded.events opens.now place cpu (call_done call.now) possible.now begun n.items)) }
{
    let most = FEW.saturating_add(*spare);
    let mut begun = without_call(setting.alloc, cpu, possible)?;
    let all = grow(setting.history, opens, most, &mut begun)?;
    *spare = spare.saturating_sub(begun.len().saturating_sub(FEW));
    if !all {
        return Ok(None);
    }
    let mut next = with_call(setting.alloc, cpu, possible)?;
    end_each(
        setting.history,
        place,
        cpu,
        call,
        begun.as_slice(),
        &mut next,
    )?;
    if next.len() > most {
        return Ok(None);
    }
    Ok(Some(next))
}

/// Adds what the possibilities come to by open calls, one after another. Whether these are all, since there aren't more than that.
fn grow(
    history: &History,
    opens: &[OpenCall],
    most: usize,
    begun: &mut Vec<Possible>,
) -> Result<bool, AllocError>
    requires { (i : ℕ) (one : OpenCall) → slice_get opens.now i ≡ Some one → one.cpu < 8 }
    ensures kept { OnOk result (Keeps begun.old.items begun.new.items) }
    ensures all { IfOk result (λ all. IsTrue all → AllGrow history.now.recorded.events opens.now begun.new.items) }
{
    for index in 0..most {
        if index >= begun.len() {
            return Ok(true);
        }
        let one = begun[index];
        grow_by_each(history, opens, &one, begun)?;
        if begun.len() > most {
            return Ok(false);
        }
    }
    Ok(begun.len() <= most)
}

/// Adds what one of the possibilities comes to by each open call.
fn grow_by_each(
    history: &History,
    opens: &[OpenCall],
    one: &Possible,
    begun: &mut Vec<Possible>,
) -> Result<(), AllocError>
    requires { (i : ℕ) (one : OpenCall) → slice_get opens.now i ≡ Some one → one.cpu < 8 }
    ensures kept { OnOk result (Keeps begun.old.items begun.new.items) }
    ensures grown { OnOk result (GrowsByEach history.now.recorded.events opens.now begun.new.items one.now) }
{
    for other in opens {
        grow_by(history, other, one, begun)?;
    }
    Ok(())
}

/// Adds what one of the possibilities comes to by an open call, where that isn't in it and may come after it.
fn grow_by(
    history: &History,
    other: &OpenCall,
    one: &Possible,
    begun: &mut Vec<Possible>,
) -> Result<(), AllocError>
    requires { other.now.cpu < 8 }
    ensures kept { OnOk result (Keeps begun.old.items begun.new.items) }
    ensures grown { OnOk result (GrowsBy history.now.recorded.events other.now begun.new.items one.now) }
{
    if one.is_placed(other.cpu) || !fits(history, &other.done, other.returned, one.value()) {
        return Ok(());
    }
    take(begun, one.with(other.cpu, true, &other.done))
}
