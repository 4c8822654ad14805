//! The size of a machine, and the version of its rules.

ghost use Rattle.std.specs.Prelude.{◌≡◌, ◌≤◌, IsTrue};
ghost use Rattle.std.specs.Option.{SomeIff};
ghost use Rattle.rmm_spec.specs.declared.version.Version.TheVariants.{One, Large};
ghost use Rattle.rmm_spec.specs.HistoryText.{Config, IsConfig, granule_limit, is_version, version_of};
ghost use Rattle.rmm_spec.specs.Lookup.{is_granule};

use crate::pa::Pa;
use rmm_spec::Version;
use std::marker::Model;

/// How many bytes a granule has.
pub const GRANULE_BYTES: u64 = 4096;

/// How many granules a machine of any version has at most.
pub const MOST_GRANULES: u64 = 1_048_576;

/// How many granules and CPUs a machine has, within the limits of both, and the version of its rules.
#[derive(Clone, Copy)]
pub struct Config {
    granules: u64,
    cpus: u8,
    version: Version,
}

impl Model for Config {
    ghost use Rattle.rmm_spec.specs.HistoryText.{Config, IsConfig};

    ghost Value = { Config };

    ghost view = { λ c. record { granules = c.granules; cpus = c.cpus; version = c.version } };

    ghost invariant = { λ c. IsConfig (record { granules = c.granules; cpus = c.cpus; version = c.version }) };

    ghost inverse = { λ s. record { granules = s.granules; cpus = s.cpus; version = s.version } };
}

impl Config {
    /// A machine of 1 to 4096 granules and 1 to 8 CPUs that goes by version 1, or nothing out of those limits.
    pub fn new(granules: u64, cpus: u64) -> Option<Config>
        ensures { let config : Config = record { granules = granules; cpus = cpus; version = One } in
            SomeIff result (IsConfig config) config }
    {
        Config::of(granules, cpus, Version::One)
    }

    /// The same of version 1 or 2, or nothing for another version.
    pub fn with_version(granules: u64, cpus: u64, version: u64) -> Option<Config>
        ensures { let config : Config = record { granules = granules; cpus = cpus; version = version_of version } in
            SomeIff result (IsConfig config × IsTrue (is_version version)) config }
    {
        match version {
            1 => Config::of(granules, cpus, Version::One),
            2 => Config::of(granules, cpus, Version::Two),
            _ => None,
        }
    }

    /// A machine of 1 to 1,048,576 granules, else with the limits and the rules of version 2, or nothing out of those limits.
    pub fn large(granules: u64, cpus: u64) -> Option<Config>
        ensures { let config : Config = record { granules = granules; cpus = cpus; version = Large } in
            SomeIff result (IsConfig config) config }
    {
        Config::of(granules, cpus, Version::Large)
    }

    /// A machine that goes by the version, or nothing out of its limits.
    pub fn of(granules: u64, cpus: u64, version: Version) -> Option<Config>
        ensures { let config : Config = record { granules = granules; cpus = cpus; version = version } in
            SomeIff result (IsConfig config) config }
    {
        if granules < 1 || granules > granule_limit(version) || cpus < 1 || cpus > 8 {
            return None;
        }
        Some(Config {
            granules,
            cpus: cpus as u8,
            version,
        })
    }

    #[tactic(auto, using(spec_lemmas::proofs::Limits::granule_limit_le))]
    pub fn granules(&self) -> u64
        ensures count { result ≡ self.now.granules }
        ensures limits { IsConfig self.now }
        ensures most { self.now.granules ≤ MOST_GRANULES }
    {
        self.granules
    }

    pub fn cpus(&self) -> u8
        ensures count { result ≡ self.now.cpus }
        ensures limits { IsConfig self.now }
    {
        self.cpus
    }

    pub fn version(&self) -> Version
        ensures { result ≡ self.now.version }
    {
        self.version
    }
}

/// How many granules a machine of the version has at most.
pub fn granule_limit(version: Version) -> u64
    ensures { result ≡ granule_limit version }
{
    match version {
        Version::One | Version::Two => 4096,
        Version::Large => MOST_GRANULES,
    }
}

/// The granule that begins at an address, or nothing where none does.
#[tactic(auto, using(std::proofs::lemmas::Bool::Decides::nat_tests), unfolding(rmm_spec::specs::Lookup::is_granule))]
pub fn granule_at(config: &Config, address: u64) -> Option<Pa>
    ensures { SomeIff result (IsTrue (is_granule config.now.granules address)) address }
{
    if address % GRANULE_BYTES == 0 && address < config.granules() * GRANULE_BYTES {
        Some(Pa::new(address))
    } else {
        None
    }
}
