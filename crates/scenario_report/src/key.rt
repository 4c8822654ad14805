//! The keys of a scenario.

ghost use Rattle.std.specs.Prelude.{◌≡◌};
ghost use Rattle.scenario_report.specs.Keys.{is_needed, key_name, most, number_name};

use memory_map::granule_limit;
use rmm_spec::Version;

/// A number that a scenario states.
#[derive(Clone, Copy)]
pub enum Number {
    Granules,
    Cpus,
    Queue,
    Limit,
    Version,
}

/// A key that a scenario has, or may have.
#[derive(Clone, Copy)]
pub enum Key {
    Number(Number),
    Programs,
    Turns,
}

impl Number {
    /// All of them.
    pub const ALL: [Number; 5] = [
        Number::Granules,
        Number::Cpus,
        Number::Queue,
        Number::Limit,
        Number::Version,
    ];

    /// What its key is called.
    pub fn name(self) -> &'static str
        ensures { result.now ≡ number_name self }
    {
        match self {
            Number::Granules => "granules",
            Number::Cpus => "cpus",
            Number::Queue => "queue",
            Number::Limit => "limit",
            Number::Version => "version",
        }
    }

    /// The most that it may be. The least is 1.
    pub fn most(self) -> u32
        ensures { result ≡ most self }
    {
        match self {
            Number::Granules => granule_limit(Version::One) as u32,
            Number::Cpus => 8,
            Number::Queue => 65_536,
            Number::Limit => 10_000_000,
            Number::Version => 2,
        }
    }
}

impl Key {
    /// All of them.
    pub const ALL: [Key; 7] = [
        Key::Number(Number::Granules),
        Key::Number(Number::Cpus),
        Key::Programs,
        Key::Number(Number::Queue),
        Key::Turns,
        Key::Number(Number::Limit),
        Key::Number(Number::Version),
    ];

    /// What it is called.
    pub fn name(self) -> &'static str
        ensures { result.now ≡ key_name self }
    {
        match self {
            Key::Number(number) => number.name(),
            Key::Programs => "programs",
            Key::Turns => "turns",
        }
    }

    /// Whether a scenario has to have it.
    pub fn is_needed(self) -> bool
        ensures { result ≡ is_needed self }
    {
        match self {
            Key::Number(Number::Granules | Number::Cpus) | Key::Programs => true,
            Key::Number(Number::Queue | Number::Limit | Number::Version) | Key::Turns => false,
        }
    }
}
