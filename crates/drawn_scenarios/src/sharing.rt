//! How the CPUs of a machine share its granules.

ghost use Rattle.std.specs.Prelude.{◌<◌, ◌≤◌, ◌*◌, ◌^◌};
ghost use Rattle.rmm_spec.specs.declared.version.Version.TheVariants.{One};
ghost use Rattle.rmm_spec.specs.HistoryText.{granule_limit};

use crate::dice::Dice;
use memory_map::{Config, granule_limit};
use rmm_spec::Version;

/// Which granules a CPU draws from.
#[derive(Clone, Copy)]
pub struct Sharing {
    // how far a CPU's own granules are from those of the CPU before
    apart: u64,
    // how many granules are a CPU's own
    home: u64,
    strays: Strays,
    // without a look at the machine one of so many addresses is drawn
    halves: u64,
    ghost low: { apart ≤ granule_limit One },
    ghost few: { home ≤ 2 * granule_limit One },
    ghost some: { 0 < home },
    ghost addresses: { 0 < halves },
}

// How often a CPU draws from all granules.
#[derive(Clone, Copy)]
enum Strays {
    // never, and its VMIDs are its own too
    Never,
    // once for so many times that it draws from its own
    Past(u64),
}

impl Sharing {
    ghost use Rattle.std.specs.Prelude.{◌<◌, ◌≤◌, ◌^◌};

    /// One for a machine as large as `granules` says.
    pub fn drawn(dice: &mut Dice) -> Sharing {
        Sharing {
            apart: 3 + dice.below(6),
            home: 8,
            strays: Strays::Past(match dice.below(3) {
                0 => 7,
                1 => 31,
                _ => 127,
            }),
            halves: 80,
        }
    }

    /// Each CPU has granules and VMIDs of its own, where there is a granule for each.
    pub fn none(config: &Config) -> Sharing {
        let own = part_of(config);
        Sharing {
            apart: own,
            home: own,
            strays: Strays::Never,
            halves: config.granules() + 8,
        }
    }

    /// Each CPU most often draws from some granules, of which half are another's too.
    pub fn some(config: &Config) -> Sharing {
        let own = part_of(config);
        Sharing {
            apart: own,
            home: own * 2,
            strays: Strays::Past(15),
            halves: config.granules() * 2 + 16,
        }
    }

    /// Each CPU draws from all granules.
    pub fn all(config: &Config) -> Sharing {
        Sharing {
            apart: 0,
            home: drawn_from(config),
            strays: Strays::Past(0),
            halves: config.granules() * 2 + 16,
        }
    }

    /// How many granules a machine of so many CPUs has, so that they are as close as that.
    pub fn granules(self, cpus: u64) -> u64
        requires { cpus ≤ 8 }
        ensures { result < 65536 }
    {
        self.home + self.apart * cpus
    }

    pub(crate) fn is_apart(self) -> bool {
        matches!(self.strays, Strays::Never)
    }

    /// One of how many addresses is drawn without a look at the machine.
    pub(crate) fn halves(self) -> u64
        ensures { 0 < result }
    {
        self.halves
    }

    /// Whether a granule is drawn from all.
    pub(crate) fn is_strayed(self, dice: &mut Dice) -> bool {
        match self.strays {
            Strays::Never => false,
            Strays::Past(cases) => dice.below(cases.saturating_add(1)) == 0,
        }
    }

    /// The place of one of the CPU's own granules, where there are as many.
    pub(crate) fn own_place(self, cpu: u8, dice: &mut Dice) -> u64
        ensures { result < 2 ^ 32 }
    {
        u64::from(cpu) * self.apart + dice.below(self.home)
    }
}

// How many granules there are for each CPU, or one.
fn part_of(config: &Config) -> u64
    ensures some { 0 < result }
    ensures few { result ≤ granule_limit One }
{
    (drawn_from(config) / u64::from(config.cpus())).max(1)
}

// How many granules a scenario can draw from.
fn drawn_from(config: &Config) -> u64
    ensures some { 0 < result }
    ensures few { result ≤ granule_limit One }
{
    let (granules, most) = (config.granules(), granule_limit(Version::One));
    if granules < most { granules } else { most }
}
