//! How far a RIPAS command gets: to the greatest end that its rows allow.

ghost use Rattle.std.specs.Prelude.{◌≡◌, ◌≤◌, ◌^◌};
ghost use Rattle.rmm_spec.specs.Walk as walk;
ghost use Rattle.command_core.specs.Furthest as spec;

use crate::held_sight::HeldSight;
use memory_map::{can_be_set, entry_number, table_number};
use rmm_spec::Stretch;
use std::cmp::min;

// How many bytes an entry of the level covers.
#[tactic(auto, unfolding(rmm_spec::specs::Walk::entry_size))]
fn entry_size(level: u8) -> u64
    ensures { result ≡ walk.entry_size level }
{
    1 << (12 + 9 * 3u8.saturating_sub(level))
}

// How many bytes a table of the level covers.
#[tactic(auto, unfolding(rmm_spec::specs::Walk::table_size))]
fn table_size(level: u8) -> u64
    ensures { result ≡ walk.table_size level }
{
    1 << (12 + 9 * 4u8.saturating_sub(level))
}

// How many entries end by the top that is asked for, and by the end of the first one's table.
#[tactic(auto, unfolding(rmm_spec::specs::Walk::entry_number))]
fn most_set(stretch: &Stretch) -> u64
    ensures exact { result ≡ spec.most_set stretch.now }
    ensures within { result ≤ 2 ^ 52 }
{
    let number = table_number(stretch.level, stretch.base) + 1;
    let end = min(
        stretch.top,
        number.saturating_mul(table_size(stretch.level)),
    );
    entry_number(stretch.level, end.saturating_sub(stretch.base))
}

impl<'a> HeldSight<'a> {
    ghost use Rattle.std.specs.Prelude.{◌≡◌, ◌≤◌, ◌<◌, ◌^◌};
    ghost use Rattle.world_laws.specs.SeenState.{seen_state};
    ghost use Rattle.command_core.specs.Furthest as spec;
    ghost use Rattle.command_core.specs.Pairs.{pair_cells};

    // Whether the RIPAS of the entry so many behind the first may be set.
    fn may_set(&self, stretch: &Stretch, behind: u64) -> bool
        requires { behind < 2 ^ 52 }
        ensures { result ≡ spec.may_set (seen_state self.now.config.now (pair_cells self.now.held.now)) stretch.now behind }
    {
        let number = entry_number(stretch.level, stretch.base) + behind;
        can_be_set(
            stretch.purpose,
            self.entry(stretch.rd, stretch.level, number),
        )
    }

    // How many of the first entries may be set.
    fn leading(&self, stretch: &Stretch, most: u64) -> u64
        requires { most ≤ 2 ^ 52 }
        ensures { result ≡ spec.leading most (spec.may_set (seen_state self.now.config.now (pair_cells self.now.held.now)) stretch.now) }
    {
        for behind in 0..most {
            if !self.may_set(stretch, behind) {
                return behind;
            }
        }
        most
    }

    /// The greatest end up to which the stretch may be set.
    #[tactic(auto, unfolding(crate::specs::Furthest::furthest))]
    pub(crate) fn furthest(&self, stretch: &Stretch) -> u64
        ensures { result ≡ spec.furthest (seen_state self.now.config.now (pair_cells self.now.held.now)) stretch.now }
    {
        stretch.base + self.leading(stretch, most_set(stretch)) * entry_size(stretch.level)
    }
}
