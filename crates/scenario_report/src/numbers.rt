//! The first number of a scenario that is out of its range.

ghost use Rattle.std.specs.Prelude.{◌≡◌, ◌≤◌, ◌↔◌, pos, IsTrue, IfNone, IfSome};
ghost use Rattle.rmm_spec.specs.Scenario.{IsBetween};
ghost use Rattle.scenario_report.specs.Flaws.{AreInRange, IsInRange, IsRangeFlaw, stated_number};

use crate::flaw::Flaw;
use crate::key::Number;

/// The numbers that a scenario states.
#[derive(Clone, Copy)]
pub struct Numbers {
    pub granules: i64,
    pub cpus: i64,
    pub queue: i64,
    pub limit: i64,
    pub version: i64,
}

impl Numbers {
    fn stated(&self, number: Number) -> i64
        ensures { result ≡ stated_number self.now number }
    {
        match number {
            Number::Granules => self.granules,
            Number::Cpus => self.cpus,
            Number::Queue => self.queue,
            Number::Limit => self.limit,
            Number::Version => self.version,
        }
    }
}

/// The first of the numbers that is out of its range.
pub fn wrong_number<'t>(numbers: &Numbers) -> Option<Flaw<'t>>
    ensures some { IfSome result (IsRangeFlaw numbers.now) }
    ensures none { IfNone result (AreInRange numbers.now) }
{
    for number in Number::ALL {
        if let Some(flaw) = flaw_at(numbers, number) {
            return Some(flaw);
        }
    }
    None
}

// That a number is out of its range.
fn flaw_at<'t>(numbers: &Numbers, number: Number) -> Option<Flaw<'t>>
    ensures some { IfSome result (IsRangeFlaw numbers.now) }
    ensures none { IfNone result (IsInRange numbers.now number) }
{
    let stated = numbers.stated(number);
    if is_up_to(stated, number.most()) {
        None
    } else {
        Some(Flaw::Range { number, stated })
    }
}

// Whether a number is one from 1 to the most.
fn is_up_to(number: i64, most: u32) -> bool
    ensures { IsTrue result ↔ IsBetween 1 most number }
{
    1 <= number && number <= i64::from(most)
}
