//! A walk over what happened, moment after moment.

ghost use Rattle.std.specs.Prelude.{◌≡◌, ℕ, ◌+◌, ◌<◌, ◌≤◌, ◌↔◌, length, slice_index_or, IsTrue, IfErr, OnOk};
ghost use Rattle.merging.specs.Renamed.{lasts_in};
ghost use Rattle.merging.specs.SeenEvents.{happened_seen, moment_seen, HasFewWords};
ghost use Rattle.merging.specs.Table.{IsHappened};
ghost use Rattle.merging.specs.Merge.{AreFew, IsSmall, IsStep};
ghost use Rattle.merging.specs.Naming.{named_slot};
ghost use Rattle.merging.specs.Refusals.{IsFull, Refuses};
ghost use Rattle.merging.specs.Run.{event_count, line_count, start, stand_at, stands_with};
ghost use Rattle.merging.specs.Seen.{stand_seen, stands_in, walked_seen};
ghost use Rattle.merging.specs.declared.cpu.Cpu.{Cpu};

use crate::cpu::{Cpu, misfit};
use crate::fault::Refusal;
use crate::naming::{Naming, named};
use crate::{HappenedRef, Lasts, MOST_NAMES, MomentRef};
use history::MOST_LINES;

/// Where each CPU stands, and how many events of a history and lines of a certificate there were.
#[derive(Drop)]
pub(crate) struct Walk {
    pub(crate) cpus: [Cpu; 8],
    pub(crate) events: u32,
    pub(crate) lines: u32,
}

/// The eight CPUs that a machine may have, before their first moments.
pub(crate) fn idle_cpus() -> [Cpu; 8]
    ensures counted { length result ≡ 8 }
    ensures each { (cpu : ℕ) (other : Cpu) → cpu < 8 → stand_seen (slice_index_or result cpu other) ≡ start }
{
    std::array::from_fn(|_cpu| Cpu::new())
}

/// Takes the next moment as it is told, where it may follow. The words of the names lie in no other place than here.
pub(crate) fn step_told(
    walk: &mut Walk,
    cpus: u8,
    granules: u64,
    naming: &Naming,
    lasts: &Lasts,
    slot: HappenedRef<'_>,
) -> Result<(), Refusal>
    requires granules { granules ≤ MOST_NAMES }
    requires happened { IsHappened (happened_seen slot) }
    requires few { HasFewWords (moment_seen slot.moment) }
    requires small { IsSmall (walked_seen walk.old) }
    ensures ok { OnOk result (IsStep cpus (walked_seen walk.old) (walked_seen walk.new)
        (named_slot naming.now granules (lasts_in lasts.now slot.entry.cpu) (happened_seen slot.entry))) }
    ensures refused { IfErr result (Refuses cpus walk.old.events walk.old.lines (stand_at (stands_in walk.old.cpus) slot.entry.cpu)
        (named_slot naming.now granules (lasts_in lasts.now slot.entry.cpu) (happened_seen slot.entry))) }
    ensures happened { IsHappened (named_slot naming.now granules (lasts_in lasts.now slot.entry.cpu) (happened_seen slot.entry)) }
{
    let mut words = [0; 10];
    let event = named(naming, granules, &mut words, lasts, slot);
    step(walk, cpus, event)
}

// Takes the next moment, where it may follow.
fn step(walk: &mut Walk, cpus: u8, slot: HappenedRef<'_>) -> Result<(), Refusal>
    requires happened { IsHappened (happened_seen slot) }
    requires few { HasFewWords (moment_seen slot.moment) }
    requires small { IsSmall (walked_seen walk.old) }
    ensures ok { OnOk result (IsStep cpus (walked_seen walk.old) (walked_seen walk.new) (happened_seen slot.entry)) }
    ensures refused { IfErr result (Refuses cpus walk.old.events walk.old.lines (stand_at (stands_in walk.old.cpus) slot.entry.cpu)
        (happened_seen slot.entry)) }
{
    if slot.cpu >= cpus {
        return Err(Refusal::NoSuchCpu);
    }
    let cpu = &walk.cpus[usize::from(slot.cpu)];
    if slot.line <= cpu.line {
        return Err(Refusal::OutOfOrder);
    }
    if let Some(refusal) = misfit(&cpu.phase, slot.moment) {
        return Err(refusal);
    }
    if is_full(walk, slot.moment) {
        return Err(Refusal::Full);
    }
    advance(&mut walk.cpus, slot);
    count(walk, slot.moment);
    Ok(())
}

// Whether the text of a moment has no room for its line.
fn is_full(walk: &Walk, moment: MomentRef<'_>) -> bool
    ensures { IsTrue result ↔ IsFull walk.now.events walk.now.lines (moment_seen moment.entry) }
{
    let most = MOST_LINES as u32;
    match moment {
        MomentRef::Call(_) | MomentRef::Return(_) => most - 1 <= walk.events,
        MomentRef::Commit(_) => most <= walk.lines,
    }
}

/// Takes a moment of a CPU.
pub(crate) fn advance(cpus: &mut [Cpu; 8], slot: HappenedRef<'_>)
    requires cpu { slot.cpu < 8 }
    requires few { HasFewWords (moment_seen slot.moment) }
    requires few_calls { AreFew (stand_at (stands_in cpus.old)) }
    ensures { stand_at (stands_in cpus.new) ≡ stands_with (stand_at (stands_in cpus.old)) (happened_seen slot.entry) }
{
    let at = usize::from(slot.cpu);
    let next = cpus[at].after(slot);
    cpus[at] = next;
}

// Counts the line of a moment, for which its text has room.
fn count(walk: &mut Walk, moment: MomentRef<'_>)
    requires { IsFull walk.old.events walk.old.lines (moment_seen moment) → ⊥ }
    ensures cpus { walk.new.cpus ≡ walk.old.cpus }
    ensures events { walk.new.events ≡ walk.old.events + event_count (moment_seen moment.entry) }
    ensures lines { walk.new.lines ≡ walk.old.lines + line_count (moment_seen moment.entry) }
{
    match moment {
        MomentRef::Call(_) | MomentRef::Return(_) => walk.events += 1,
        MomentRef::Commit(_) => walk.lines += 1,
    }
}
