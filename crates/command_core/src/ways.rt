//! Which commands walk a realm's tables: for which address, down to which level, and what they take out below.

ghost use Rattle.std.specs.Prelude.{◌≡◌, option_map};
ghost use Rattle.rmm_spec.specs.Rows.{all_allowed};
ghost use Rattle.rmm_spec.specs.Step.Terms.{words_of};
ghost use Rattle.world_laws.specs.Walking as spec;
ghost use Rattle.command_core.specs.Walks as own;
ghost use Rattle.command_words.specs.Ways.{way_seen};

use command_words::{Way, way_of, words_allow};
use rmm_spec::{Call, Entry};

/// Where a host's command whose words are allowed walks, if it does.
pub(crate) fn way_taken(call: &Call) -> Option<Way>
    ensures { option_map way_seen result ≡ own.way_taken call.now }
{
    way_given(call, words_allow(call))
}

/// The same, where it is known whether the words are allowed.
#[tactic(auto, unfolding(crate::specs::Walks::way_taken))]
pub(crate) fn way_given(call: &Call, allowed: bool) -> Option<Way>
    requires { allowed ≡ all_allowed (words_of call.now) }
    ensures { option_map way_seen result ≡ own.way_taken call.now }
{
    if allowed { way_of(call) } else { None }
}

/// Whether a command reads more of its realm than the address space, so that it keeps the realm to its commit.
#[tactic(auto, unfolding(world_laws::specs::Walking::keeps_realm))]
pub(crate) fn keeps_realm(call: &Call) -> bool
    ensures { result ≡ spec.keeps_realm call.now }
{
    matches!(call, Call::DataCreate { .. } | Call::RttInitRipas { .. })
}

/// The granule below the walk's end that a command takes out: a table that it reads first, or a page.
#[tactic(auto, unfolding(world_laws::specs::Walking::part_below))]
pub(crate) fn part_below(call: &Call, entry: Entry) -> Option<u64>
    ensures { result ≡ spec.part_below call.now entry }
{
    match (call, entry) {
        (Call::RttRemove { .. }, Entry::Table(granule))
        | (Call::DataDestroy { .. }, Entry::Assigned(_, granule)) => Some(granule),
        _ => None,
    }
}
