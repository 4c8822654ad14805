//! Which of two calls on a measurement came first.

use crate::registers::Use;
use std::cmp::{max, min};

/// How many bits of a logarithm stand after the point.
const PART_BITS: u32 = 8;

/// The odds against what can't be.
const IMPOSSIBLE: u32 = 64 << PART_BITS;

/// How unlikely some calls come first, in this order. The likelier of two is the less.
#[derive(Clone, Copy, PartialEq, Eq, PartialOrd, Ord)]
pub(crate) struct Odds {
    /// The logarithm of the odds against it, in parts of a bit.
    pub(crate) against: u32,
    /// The event about when the last of them came, if so.
    pub(crate) at: u32,
}

impl Odds {
    /// No call came.
    pub(crate) const NONE: Odds = Odds { against: 0, at: 0 };
}

/// When a call may have come: from one event to another.
#[derive(Clone, Copy)]
pub(crate) struct Open {
    from: u32,
    to: u32,
}

impl Open {
    /// From when the call was made, but from the given event at the earliest, until it returned, or until the history's end.
    pub(crate) fn of(used: &Use, since: u32, end: u32) -> Open {
        Open {
            from: max(used.called, since),
            to: min(used.returned, end),
        }
    }

    /// About when it came, where it was the first of so many that may have come up to the bound.
    pub(crate) fn first_of(&self, count: u32, bound: u32) -> u32 {
        let time = min(self.to, bound).saturating_sub(self.from);
        let share = time.checked_div(count.saturating_add(1)).unwrap_or(0);
        self.from.saturating_add(share)
    }

    /// Whether it may have come before the event.
    pub(crate) fn is_before(&self, event: u32) -> bool {
        self.from < event
    }

    fn length(&self) -> u64 {
        u64::from(self.to.saturating_sub(self.from))
    }
}

/// The logarithm of the odds against one call's coming before another, where each came at any moment at which it may have, in parts of a bit.
pub(crate) fn odds_against(one: Open, other: Open) -> u32 {
    if one.to <= other.from {
        return 0;
    }
    let both = Open {
        from: max(one.from, other.from),
        to: min(one.to, other.to),
    };
    let before = u64::from(both.from.saturating_sub(one.from));
    let after = u64::from(other.to.saturating_sub(both.to));
    // pairs of moments, each counted twice
    let first = product(twice(before), other.length()).saturating_add(product(
        both.length(),
        twice(after).saturating_add(both.length()),
    ));
    if first == 0 {
        return IMPOSSIBLE;
    }
    let all = product(twice(one.length()), other.length());
    logarithm(all).saturating_sub(logarithm(first))
}

// The logarithm to the base 2, in parts of a bit: exact at powers of 2, and on a straight line between two of them.
fn logarithm(number: u64) -> u32 {
    let zeros = number.leading_zeros();
    if zeros >= 64 {
        return 0;
    }
    let whole = 63u32.saturating_sub(zeros);
    let part = ((number << zeros) >> (63 - PART_BITS)) & 0xff;
    (whole << PART_BITS).saturating_add(part as u32)
}

fn twice(length: u64) -> u64 {
    length.saturating_mul(2)
}

fn product(one: u64, other: u64) -> u64 {
    one.saturating_mul(other)
}
