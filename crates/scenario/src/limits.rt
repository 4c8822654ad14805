//! Whether the numbers of a scenario are within their ranges.

ghost use Rattle.std.specs.Prelude.{◌≡◌, ◌↔◌, ◌≤◌, ℕ, pos, IsTrue, IfSome, IfNone, length, map, sum, vec_len};
ghost use Rattle.rmm_spec.specs.HistoryText.{IsConfig, granule_limit, is_version, version_of};
ghost use Rattle.rmm_spec.specs.Scenario.{AreInRange, IsBetween, is_numbered, version_number};
ghost use Rattle.rmm_spec.specs.declared.version.Version.TheVariants.{One};
ghost use Rattle.scenario.specs.SeenTexts.{seen_lists, stated_seen};
ghost use Rattle.scenario.specs.Sizes.{AreNumbers, AreSizes};

use crate::keys::Stated;
use memory_map::{Config, granule_limit};
use rmm_spec::Version;

// The most commands of all programs together: a history has room for a call and a return of each.
const MOST_COMMANDS: usize = 499_999;

/// The numbers of a scenario, each within its range.
#[derive(Clone, Copy)]
pub(crate) struct Sizes {
    pub(crate) config: Config,
    pub(crate) queue: usize,
    pub(crate) limit: u32,
}

/// The numbers that are stated, where all are within their ranges, each CPU has a program, and there are few enough commands.
pub(crate) fn sizes_of(stated: &Stated<'_>) -> Option<Sizes>
    ensures found { IfSome result (AreSizes (stated_seen stated.now)) }
    ensures version { IfSome result (λ sizes. (stated_seen stated.now).version ≡ pos (version_number sizes.config.version)) }
    ensures none { IfNone result (¬ AreInRange (stated_seen stated.now)) }
{
    let sizes = numbers_of(stated)?;
    if stated.programs.len() as u64 != u64::from(sizes.config.cpus()) {
        return None;
    }
    if !are_few(stated.programs.as_slice()) {
        return None;
    }
    Some(sizes)
}

// The numbers that are stated, where all are within their ranges.
fn numbers_of(stated: &Stated<'_>) -> Option<Sizes>
    ensures found { IfSome result (AreNumbers (stated_seen stated.now)) }
    ensures version { IfSome result (λ sizes. (stated_seen stated.now).version ≡ pos (version_number sizes.config.version)) }
    ensures none { IfNone result (¬ AreInRange (stated_seen stated.now)) }
{
    let config = config_of(stated.granules, stated.cpus, stated.version)?;
    let queue = number_between(stated.queue, 1, 65_536)?;
    let limit = number_between(stated.limit, 1, 10_000_000)?;
    Some(Sizes {
        config,
        queue: queue as usize,
        limit: limit as u32,
    })
}

// The machine of these numbers, each within its range.
fn config_of(granules: i64, cpus: i64, version: i64) -> Option<Config>
    ensures limits { IfSome result (λ config. IsConfig config) }
    ensures granules { IfSome result (λ config. granules ≡ pos config.granules) }
    ensures cpus { IfSome result (λ config. cpus ≡ pos config.cpus) }
    ensures version { IfSome result (λ config. version ≡ pos (version_number config.version)) }
    ensures numbered { IfSome result (λ config. IsTrue (is_numbered config.version)) }
    ensures none { IfNone result (¬ (IsBetween 1 (granule_limit One) granules × IsBetween 1 8 cpus × IsBetween 1 2 version)) }
{
    let granules = number_between(granules, 1, granule_limit(Version::One))?;
    let cpus = number_between(cpus, 1, 8)?;
    let version = version_from(version)?;
    Config::with_version(granules, cpus, version)
}

// A version's number, which is 1 or 2.
fn version_from(number: i64) -> Option<u64>
    ensures found { IfSome result (λ n. number ≡ pos (version_number (version_of n))) }
    ensures is { IfSome result (λ n. IsTrue (is_version n)) }
    ensures none { IfNone result (¬ IsBetween 1 2 number) }
{
    let version = number_between(number, 1, 2)?;
    if version == 2 { Some(2) } else { Some(1) }
}

// A number that lies between two others, or is one of them.
fn number_between(number: i64, low: u64, high: u64) -> Option<u64>
    ensures found { IfSome result (λ n. number ≡ pos n) }
    ensures within { IfSome result (λ n. IsBetween low high (pos n)) }
    ensures none { IfNone result (¬ IsBetween low high number) }
{
    if number < 0 {
        return None;
    }
    let number = number as u64;
    if number < low || high < number {
        return None;
    }
    Some(number)
}

/// Whether a history has room for all commands.
pub fn are_few(programs: &[Vec<&str>]) -> bool
    ensures { IsTrue result ↔ (sum (map length (seen_lists programs.now)) ≤ 499999) }
{
    let mut left = MOST_COMMANDS;
    for program in programs {
        let count = program.len();
        if count > left {
            return false;
        }
        left -= count;
    }
    true
}
