//! Who follows a search.

ghost use Rattle.std.specs.Prelude.{◌≡◌, false};

/// How many offers are made before a watch is asked again.
pub(crate) const STEPS: u64 = 1024;

/// How far a search is.
#[derive(Clone, Copy)]
pub struct Advance {
    /// How many of the history's events it is past: each call that returned among them stands in the orders.
    pub events: usize,
    /// How many orders are kept.
    pub orders: usize,
}

/// Who follows a search, and may stop it.
pub trait Watch {
    /// It has told a search to stop.
    ghost has_stopped: { Self → Type 0 };

    /// Whether the search goes on from there.
    fn goes_on(&mut self, advance: Advance) -> bool
        ensures { result ≡ false → has_stopped self.new };
}

/// Nobody follows the search, so it goes on.
#[derive(Drop)]
pub struct Unwatched;

impl Watch for Unwatched {
    ghost has_stopped = { λ _. ⊥ };

    fn goes_on(&mut self, _advance: Advance) -> bool {
        true
    }
}

/// When a watch is asked: at first, and then each time that so much is done.
#[derive(Drop)]
pub(crate) struct Pace {
    next: u64,
}

impl Pace {
    /// It is asked at first.
    pub(crate) fn new() -> Pace {
        Pace { next: 0 }
    }

    /// Whether the watch is asked at so many offers.
    pub(crate) fn is_due_at(&mut self, count: u64) -> bool {
        if count < self.next {
            return false;
        }
        self.next = count.saturating_add(STEPS);
        true
    }
}
