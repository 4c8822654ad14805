//! A table's events, merged.

ghost use Rattle.std.specs.Prelude.{◌≡◌, ◌≢◌, ℕ, ◌<◌, ◌≤◌, length, Err, IfOk, IfErr, OnOk};
ghost use Rattle.merging.specs.Merge.{AreReturns, CanMerge};
ghost use Rattle.merging.specs.Naming.{events_named};
ghost use Rattle.merging.specs.Refusals.{IsFaultOf};
ghost use Rattle.merging.specs.Run.{starts, known_front, IsRun};

use crate::fault::MergeFault;
use crate::naming::Naming;
use crate::run::Run;
use crate::walk::{Walk, idle_cpus, step_told};
use crate::{EventTable, HappenedRef, Lasts, MomentRef};
use history::Config;

/// Which events are merged.
#[derive(Clone, Copy)]
pub enum Extent {
    /// All, and no stamp may be missing.
    Whole,
    /// Those before the first stamp that is missing.
    UpToHole,
}

/// Merges what is known from stamp 0 on, as it is told, for a machine of that configuration.
pub fn merge(
    table: EventTable,
    config: Config,
    extent: Extent,
    naming: Naming,
) -> Result<Run, MergeFault>
    ensures merged { IfOk result (λ run. run
        ≡ record { config = config; naming = naming; events = events_named naming config.granules (known_front table.slots) }) }
    ensures is_run { OnOk result (IsRun config.cpus starts (events_named naming config.granules (known_front table.slots))) }
    ensures whole { extent ≡ Extent.Whole → OnOk result (length (known_front table.slots) ≡ length table.slots) }
    ensures fault { IfErr result (IsFaultOf config.cpus table.slots (events_named naming config.granules (known_front table.slots))) }
    ensures passes { extent ≡ Extent.UpToHole → (stamp : ℕ) → result ≢ Err (MergeFault.Hole stamp) }
{
    let front = front_of(&table);
    check(&table, &front, config, extent, &naming)?;
    Ok(Run {
        table,
        front,
        naming,
        config,
    })
}

// Sees that the events are a run.
fn check(
    table: &EventTable,
    front: &Front,
    config: Config,
    extent: Extent,
    naming: &Naming,
) -> Result<(), MergeFault>
    requires { front.now.stamps ≡ length (known_front table.now.slots) }
    ensures ok { OnOk result (CanMerge config.cpus (events_named naming.now config.granules (known_front table.now.slots))) }
    ensures whole { extent ≡ Extent.Whole → OnOk result (length (known_front table.now.slots) ≡ length table.now.slots) }
    ensures fault { IfErr result (IsFaultOf config.cpus table.now.slots (events_named naming.now config.granules (known_front table.now.slots))) }
    ensures passes { extent ≡ Extent.UpToHole → (stamp : ℕ) → result ≢ Err (MergeFault.Hole stamp) }
{
    match extent {
        Extent::Whole => check_whole(table, front, config, naming),
        Extent::UpToHole => check_front(table, front, config, naming),
    }
}

// Sees that the front is a run, and that nothing stands behind it.
fn check_whole(
    table: &EventTable,
    front: &Front,
    config: Config,
    naming: &Naming,
) -> Result<(), MergeFault>
    requires { front.now.stamps ≡ length (known_front table.now.slots) }
    ensures ok { OnOk result (CanMerge config.cpus (events_named naming.now config.granules (known_front table.now.slots))) }
    ensures whole { OnOk result (length (known_front table.now.slots) ≡ length table.now.slots) }
    ensures fault { IfErr result (IsFaultOf config.cpus table.now.slots (events_named naming.now config.granules (known_front table.now.slots))) }
{
    if front.stamps < table.len() {
        return Err(MergeFault::Hole(front.stamps as u32));
    }
    check_front(table, front, config, naming)
}

/// How many stamps are known from 0 on, and how often each CPU returns at them.
#[derive(Clone, Copy)]
pub(crate) struct Front {
    pub(crate) stamps: usize,
    pub(crate) returns: [u32; 8],
}

fn front_of(table: &EventTable) -> Front
    ensures stamps { result.stamps ≡ length (known_front table.now.slots) }
    ensures returns { AreReturns result.returns (known_front table.now.slots) }
{
    let _fact = table.well_formed();
    let mut returns = [0; 8];
    for stamp in 0..table.len() {
        let Some(slot) = table.slot(stamp) else {
            return Front {
                stamps: stamp,
                returns,
            };
        };
        count_return(&mut returns, slot);
    }
    Front {
        stamps: table.len(),
        returns,
    }
}

ghost use Rattle.std.specs.Prelude.{◌+◌, ◌^◌, slice_index, slice_set};
ghost use Rattle.merging.specs.SeenEvents.{happened_seen};
ghost use Rattle.merging.specs.Run.{return_count};

// Counts the moment, where it is a return.
fn count_return(returns: &mut [u32; 8], slot: HappenedRef<'_>)
    requires cpu { slot.cpu < 8 }
    requires room { slice_index returns.old slot.cpu + 1 < 2 ^ 32 }
    ensures { returns.new ≡ slice_set returns.old slot.entry.cpu
        (slice_index returns.old slot.entry.cpu + return_count (happened_seen slot.entry).moment) }
{
    let cpu = usize::from(slot.cpu);
    match slot.moment {
        MomentRef::Return(_) => returns[cpu] += 1,
        _ => returns[cpu] += 0,
    }
}

// Sees that the front is a run, as it is told.
fn check_front(
    table: &EventTable,
    front: &Front,
    config: Config,
    naming: &Naming,
) -> Result<(), MergeFault>
    requires { front.now.stamps ≡ length (known_front table.now.slots) }
    ensures ok { OnOk result (CanMerge config.cpus (events_named naming.now config.granules (known_front table.now.slots))) }
    ensures fault { IfErr result (IsFaultOf config.cpus table.now.slots (events_named naming.now config.granules (known_front table.now.slots))) }
    ensures no_hole { (stamp : ℕ) → result ≢ Err (MergeFault.Hole stamp) }
{
    let _fact = table.well_formed();
    let _fact = table.len();
    let count = config.cpus();
    let granules = config.granules();
    let mut walk = Walk {
        cpus: idle_cpus(),
        events: 0,
        lines: 0,
    };
    let mut lasts = Lasts::new();
    for stamp in 0..front.stamps {
        let Some(slot) = table.slot(stamp) else {
            unreachable!()
        };
        if let Err(refusal) = step_told(&mut walk, count, granules, naming, &lasts, slot) {
            return Err(MergeFault::Refused(slot.line, refusal));
        }
        lasts.take(slot);
    }
    Ok(())
}
