//! The clock that stops a search, and the terminal on which it is followed.

ghost use Rattle.std.specs.Prelude.{◌≡◌, ◌-◌, ◌≤◌, ℕ, Some};

use finding::{Advance, Watch};
use std::time::Clock;

/// How many milliseconds a line stands on the terminal.
const SECOND: u64 = 1000;

/// Stops a search once its time has passed, and shows once a second how far it is where a terminal is watched.
#[derive(Drop)]
pub(crate) struct Follower<'a, R> {
    rt: &'a R,
    lines: usize,
    // milliseconds by the clock: when the search began, its last reading, and how many the search may take
    begun: u64,
    now: u64,
    most: Option<u64>,
    // where a terminal is watched, when a line was shown last
    shown: Option<u64>,
    has_line: bool,
}

impl<'a, R: Clock + Eprint> Follower<'a, R> {
    /// Follows a search of a history of so many lines that begins now.
    pub(crate) fn new(rt: &'a R, lines: usize, most: Option<u64>, shows: bool) -> Follower<'a, R>
        ensures { result.most ≡ most }
    {
        let now = milliseconds(rt);
        Follower {
            rt,
            lines,
            begun: now,
            now,
            most,
            shown: if shows { Some(now) } else { None },
            has_line: false,
        }
    }

    /// Takes the line off the terminal.
    pub(crate) fn clear(&mut self) {
        if self.has_line {
            let _ = eprint!(self.rt; "\r\x1b[K");
            self.has_line = false;
        }
    }

    // Shows how far the search is, once a second.
    fn show(&mut self, advance: Advance)
        ensures most { self.new.most ≡ self.old.most }
        ensures now { self.new.now ≡ self.old.now }
        ensures begun { self.new.begun ≡ self.old.begun }
    {
        let Some(shown) = self.shown else {
            return;
        };
        if self.now.saturating_sub(shown) < SECOND {
            return;
        }
        let line = advance.events.saturating_add(1);
        let lines = self.lines;
        let orders = advance.orders;
        let _ = eprint!(self.rt; "\r\x1b[Krmmfind: line {line} of {lines}, orders kept: {orders}");
        self.shown = Some(self.now);
        self.has_line = true;
    }
}

impl<R: Clock + Eprint> Watch for Follower<'_, R> {
    ghost has_stopped = { λ f. (most : ℕ) × (f.most ≡ Some most) × (most ≤ f.now - f.begun) };

    fn goes_on(&mut self, advance: Advance) -> bool {
        self.now = milliseconds(self.rt);
        self.show(advance);
        match self.most {
            Some(most) => self.now.saturating_sub(self.begun) < most,
            None => true,
        }
    }
}

// The time by the clock; none passes where it can't be read.
fn milliseconds<R: Clock>(rt: &R) -> u64 {
    match rt.monotonic() {
        Ok(time) => u64::try_from(time.as_millis()).unwrap_or(u64::MAX),
        Err(_) => 0,
    }
}
