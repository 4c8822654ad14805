//! Which entry and which table of a level an address has, and how much an entry covers.

ghost use Rattle.std.specs.Prelude.{◌≡◌, ◌^◌, ◌<◌, ◌≤◌};
ghost use Rattle.rmm_spec.specs.Walk as spec;

/// The number of the level's entry for an address: levels past 3 count as level 3.
#[tactic(auto, using(crate::proofs::Sizes::shifted_small), unfolding(rmm_spec::specs::Walk::entry_number, rmm_spec::specs::Walk::entry_size))]
pub fn entry_number(level: u8, ipa: u64) -> u64
    ensures number { result ≡ spec.entry_number level ipa }
    ensures small { result < 2 ^ 52 }
{
    let shift = 12 + 9 * 3u8.saturating_sub(level);
    ipa >> shift
}

/// The number of the level's table for an address: levels past 4 count as level 4.
#[tactic(auto, using(crate::proofs::Sizes::shifted_small), unfolding(rmm_spec::specs::Walk::table_number, rmm_spec::specs::Walk::table_size))]
pub fn table_number(level: u8, ipa: u64) -> u64
    ensures number { result ≡ spec.table_number level ipa }
    ensures small { result < 2 ^ 52 }
{
    let shift = 12 + 9 * 4u8.saturating_sub(level);
    ipa >> shift
}

/// How many bytes an entry of the level covers.
#[tactic(auto, unfolding(rmm_spec::specs::Walk::entry_size))]
pub fn entry_size(level: u8) -> u64
    requires { level ≤ 3 }
    ensures size { result ≡ spec.entry_size level }
    ensures some { 0 < result }
{
    1 << (12 + 9 * (3 - level))
}
