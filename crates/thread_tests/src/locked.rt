//! What comes back from a granule, on one thread and on two.

ghost use Rattle.std.specs.Prelude.{◌≡◌, ◌∷◌, [], IfOk, IsTrue};
ghost use Rattle.rmm_spec.specs.Cell as whole;
ghost use Rattle.rmm_spec.specs.Lookup.{is_granule};
ghost use Rattle.world_laws.specs.Replaced.{held_at};
ghost use Rattle.command_core.specs.Seen.{cell_of};
ghost use Rattle.granule_cells.specs.declared.cell.Cell.{Cell};
ghost use Rattle.granule_lock.specs.HeldCells.{hold_cells};

use command_core::{Change, CpuPlace, room_for};
use granule_lock::{Granules, Hold};
use memory_map::{Config, Pa};
use rmm_spec::{Tag, TagChange};
use std::alloc::Global;
use std::sync::Wait;
use std::sync::atomic::{AtomicU64, Ordering};
use std::test::Fail;
use std::thread;
use std::thread::Threads;

/// How often a thread looks at most.
const LOOKS: u64 = 1_000_000;

/// A machine of four granules, with two of them.
#[tactic(auto, unfolding(rmm_spec::specs::Lookup::is_granule))]
fn four_granules(alloc: Global) -> Result<(Granules, Pa, Pa), Fail>
    ensures low { IfOk result (λ made. IsTrue (is_granule made.0.granules made.1)) }
    ensures high { IfOk result (λ made. IsTrue (is_granule made.0.granules made.2)) }
{
    let config = Config::new(4, 2).ok_or("no such machine")?;
    let granules = Granules::new(alloc, &config)?;
    Ok((granules, Pa::new(0x1000), Pa::new(0x3000)))
}

/// A hold of one granule alone.
fn hold_of<R: Wait>(rt: &R, granules: &Granules, pa: Pa) -> Hold
    requires { IsTrue (is_granule granules.now.granules pa) }
    ensures { (cell : Cell) × (hold_cells result ≡ held_at pa (cell_of cell) ∷ []) }
{
    let mut hold = Hold::new();
    granules.take(rt, &mut hold, pa);
    hold
}

fn tag_of(hold: &Hold, pa: Pa) -> Option<Tag> {
    Some(hold.pairs().cell(pa)?.tag())
}

/// Gives home all that is held.
fn give_home<R: Wait>(rt: &R, granules: &Granules, mut hold: Hold, pa: Pa)
    requires granule { IsTrue (is_granule granules.now.granules pa) }
    requires held { (cell : whole.Cell) × (hold_cells hold ≡ held_at pa cell ∷ []) }
{
    granules.give(rt, &mut hold, pa);
    hold.end();
}

/// Delegates the granule that is held, and gives it home.
#[tactic(auto, unfolding(command_core::specs::Changed::new_cells))]
fn give_delegated<R: Wait>(rt: &R, alloc: Global, granules: &Granules, mut hold: Hold, pa: Pa)
    requires granule { IsTrue (is_granule granules.now.granules pa) }
    requires held { (cell : whole.Cell) × (hold_cells hold ≡ held_at pa cell ∷ []) }
{
    let change = Change::Retagged(TagChange {
        granule: pa.address(),
        tag: Tag::Delegated,
    });
    let Ok(room) = room_for(alloc, &change) else {
        unreachable!()
    };
    hold.apply(&mut CpuPlace::Outside, &change, room);
    give_home(rt, granules, hold, pa);
}

/// Whether a granule is found as it was given home, while another one is held.
fn comes_back<R: Wait>(rt: &R, alloc: Global, granules: &Granules, low: Pa, high: Pa) -> bool
    requires low { IsTrue (is_granule granules.now.granules low) }
    requires high { IsTrue (is_granule granules.now.granules high) }
{
    let below = hold_of(rt, granules, low);
    let hold = hold_of(rt, granules, high);
    let tags = (tag_of(&below, low), tag_of(&hold, high));
    give_delegated(rt, alloc, granules, hold, high);
    let hold = hold_of(rt, granules, high);
    let found = (tag_of(&hold, low), tag_of(&hold, high));
    give_home(rt, granules, hold, high);
    give_home(rt, granules, below, low);
    tags == (Some(Tag::Undelegated), Some(Tag::Undelegated))
        && found == (None, Some(Tag::Delegated))
}

#[test]
fn given_cells_come_back(rt: HostRuntime) -> Result<(), Fail> {
    let (granules, low, high) = four_granules(rt.alloc())?;
    assert!(rt; comes_back(&rt, rt.alloc(), &granules, low, high));
    Ok(())
}

/// Takes the granule and says so, looks at the other's counter, and gives the granule home only then. Returns whether the counter
/// was 0 at each look.
fn hold_long<R: Wait>(
    rt: &R,
    alloc: Global,
    granules: &Granules,
    pa: Pa,
    held: &AtomicU64,
    taken: &AtomicU64,
) -> bool
    requires { IsTrue (is_granule granules.now.granules pa) }
{
    let hold = hold_of(rt, granules, pa);
    held.store(1, Ordering::SeqCst);
    let stayed = (0..LOOKS).all(|_| taken.load(Ordering::SeqCst) == 0);
    give_delegated(rt, alloc, granules, hold, pa);
    stayed
}

/// Takes the granule once another holds it, counts that, and returns what it found.
fn take_counted<R: Wait>(
    rt: &R,
    granules: &Granules,
    pa: Pa,
    held: &AtomicU64,
    taken: &AtomicU64,
) -> Option<Tag>
    requires { IsTrue (is_granule granules.now.granules pa) }
{
    for _look in 0..LOOKS {
        if held.load(Ordering::SeqCst) == 1 {
            break;
        }
        thread::yield_now();
    }
    let hold = hold_of(rt, granules, pa);
    taken.fetch_add(1, Ordering::SeqCst);
    let tag = tag_of(&hold, pa);
    give_home(rt, granules, hold, pa);
    tag
}

/// One thread takes what another holds.
fn take_beside<R: Threads + Wait + Sync>(
    rt: &R,
    alloc: Global,
    granules: &Granules,
    pa: Pa,
) -> (Option<Tag>, bool)
    requires { IsTrue (is_granule granules.now.granules pa) }
{
    let held = AtomicU64::new(0);
    let taken = AtomicU64::new(0);
    thread::join(
        rt,
        || -> Option<Tag>
            requires { IsTrue (is_granule granules.now.granules pa) }
        { take_counted(rt, granules, pa, &held, &taken) },
        || -> bool
            requires { IsTrue (is_granule granules.now.granules pa) }
        { hold_long(rt, alloc, granules, pa, &held, &taken) },
    )
}

#[test]
fn holder_keeps_others_out(rt: HostRuntime) -> Result<(), Fail> {
    let (granules, pa, _) = four_granules(rt.alloc())?;
    let (found, stayed) = take_beside(&rt, rt.alloc(), &granules, pa);
    assert!(rt; found == Some(Tag::Delegated) && stayed);
    Ok(())
}
