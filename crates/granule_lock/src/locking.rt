//! A CPU takes and frees granules.

ghost use Rattle.std.specs.Prelude.{◌≡◌, ℕ, ◌-◌, [], false, length, slice_get, Option, IsTrue, IfSome, IfNone};
ghost use Rattle.rmm_spec.specs.Call.{call_of};
ghost use Rattle.rmm_spec.specs.Local.{granules_held};
ghost use Rattle.command_core.specs.Seen.{place_of, is_held};
ghost use Rattle.command_core.specs.Settled.{is_settled};
ghost use Rattle.granule_lock.specs.HeldCells.{freed_cells, hold_cells};
ghost use Rattle.granule_lock.specs.Locked.{AreGranules, IsPlannedStep, IsReached, locking};

use crate::granules::Granules;
use crate::hold::Hold;
use command_core::{CpuPlace, Next, next_step};
use memory_map::{Config, Pa};
use rmm_spec::{Call, Command};
use std::sync::Wait;

/// Takes and frees granules as the plan of a command says, from a hold of none until what is held settles it.
pub fn lock_for<R: Wait>(
    rt: &R,
    granules: &Granules,
    config: &Config,
    place: &CpuPlace,
    command: &Command,
    hold: &mut Hold,
)
    requires size { granules.now.granules ≡ config.now.granules }
    requires none { hold_cells hold.old ≡ [] }
    ensures settled { IsTrue (is_settled config.now (call_of command.now) (place_of place.now) (hold_cells hold.new)) }
    ensures granules { AreGranules granules.now.granules (hold_cells hold.new) }
    ensures planned { (learnt : Option ℕ)
        × IsReached config.now (call_of command.now) (place_of place.now) (locking (hold_cells hold.new) learnt) }
{
    let call = command.call();
    let mut learnt = None;
    for _step in rt.forever() {
        if !goes_on(rt, granules, config, place, &call, hold, &mut learnt) {
            return;
        }
    }
    unreachable!()
}

// Takes or frees what the plan says next, and returns whether there was such a step.
fn goes_on<R: Wait>(
    rt: &R,
    granules: &Granules,
    config: &Config,
    place: &CpuPlace,
    call: &Call,
    hold: &mut Hold,
    learnt: &mut Option<Pa>,
) -> bool
    requires size { granules.now.granules ≡ config.now.granules }
    requires granules { AreGranules granules.now.granules (hold_cells hold.old) }
    ensures settled { result ≡ false → IsTrue (is_settled config.now call.now (place_of place.now) (hold_cells hold.new)) }
    ensures stays { result ≡ false → hold.new ≡ hold.old }
    ensures granules { AreGranules granules.now.granules (hold_cells hold.new) }
    ensures planned { IsTrue result → IsPlannedStep config.now call.now (place_of place.now)
        (locking (hold_cells hold.old) learnt.old) (locking (hold_cells hold.new) learnt.new) }
{
    match next_step(config, call, place, *learnt, &hold.pairs) {
        Next::Take(pa) => granules.take(rt, hold, pa),
        Next::Free(pa, owner) => {
            granules.give(rt, hold, pa);
            *learnt = owner;
        }
        Next::Ready => return false,
    }
    true
}

/// Frees all that is held, the cell taken last first. The hold keeps, for contracts alone, what it was.
pub fn free_all<R: Wait>(rt: &R, granules: &Granules, hold: &mut Hold)
    requires { AreGranules granules.now.granules (hold_cells hold.old) }
    ensures none { hold_cells hold.new ≡ [] }
    ensures freed { freed_cells hold.new ≡ hold_cells hold.old }
{
    hold.begin_freeing();
    while let Some(last) = last_held(hold) {
        granules.give(rt, hold, last);
    }
}

// The granule that was taken last, if any is held.
fn last_held(hold: &Hold) -> Option<Pa>
    ensures last { result ≡ slice_get (granules_held (hold_cells hold.now)) (length (granules_held (hold_cells hold.now)) - 1) }
    ensures some { IfSome result (λ last. IsTrue (is_held last (hold_cells hold.now))) }
    ensures none { IfNone result (hold_cells hold.now ≡ []) }
{
    hold.pairs.held().last().copied()
}
