//! The ends that a stretch may be set up to.

ghost use Rattle.std.specs.Prelude.{◌≡◌, ◌≤◌, ◌<◌, ℕ, IfSome, IfNone};
ghost use Rattle.rmm_spec.specs.Walk as walk;
ghost use Rattle.finding.specs.Ends.{IsBelow, IsEnd};

use memory_map::table_number;
use rmm_spec::Stretch;
use std::cmp::min;

/// The greatest end below `above` that a stretch may have by the words of its command. Whether its entries may be set is left open.
pub(crate) fn next_end(stretch: &Stretch, above: Option<u64>) -> Option<u64>
    ensures some { IfSome result (λ top. (end : ℕ) → IsEnd stretch.now end → IsBelow above end → end ≤ top) }
    ensures none { IfNone result ((end : ℕ) → IsEnd stretch.now end → IsBelow above end → ⊥) }
{
    let last = furthest(stretch, above);
    let size = entry_size(stretch.level);
    let beyond = last.saturating_sub(stretch.base);
    let count = beyond / size;
    if count == 0 {
        return None;
    }
    let reach = count * size;
    let top = stretch.base + reach;
    Some(top)
}

/// The last address that an end below `above` may have.
fn furthest(stretch: &Stretch, above: Option<u64>) -> u64
    ensures { (end : ℕ) → IsEnd stretch.now end → IsBelow above end → end ≤ result }
{
    let end = last_end(stretch);
    match above {
        None => end,
        Some(above) if above <= end => above.saturating_sub(1),
        Some(_) => end,
    }
}

/// The last address that an end may have: the top of the stretch, or the end of its table.
fn last_end(stretch: &Stretch) -> u64
    ensures { (end : ℕ) → IsEnd stretch.now end → end ≤ result }
{
    let tables = table_number(stretch.level, stretch.base) + 1;
    let table_end = tables.saturating_mul(table_size(stretch.level));
    min(stretch.top, table_end)
}

// How many bytes an entry of the level covers.
#[tactic(auto, unfolding(rmm_spec::specs::Walk::entry_size))]
fn entry_size(level: u8) -> u64
    ensures size { result ≡ walk.entry_size level }
    ensures some { 0 < result }
{
    1 << (12 + 9 * 3u8.saturating_sub(level))
}

// How many bytes a table of the level covers.
#[tactic(auto, unfolding(rmm_spec::specs::Walk::table_size))]
fn table_size(level: u8) -> u64
    ensures { result ≡ walk.table_size level }
{
    1 << (12 + 9 * 4u8.saturating_sub(level))
}
