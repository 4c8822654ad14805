//! Stretches of events, and where a picture draws them, in pixels.

ghost use Rattle.std.specs.Prelude.{◌≡◌, ◌≤◌, ◌<◌, ◌+◌};

use history::Places;

/// The most events that a picture shows.
pub(crate) const MOST_SHOWN: usize = 10_000;

/// How wide the names of the lanes are, on each side.
pub(crate) const LEFT: u64 = 64;

/// How high the strip above the lanes is with its words, and what is above the lanes where there is none.
const STRIP: u64 = 60;

const NO_STRIP: u64 = 4;

/// How high a lane is.
pub(crate) const LANE: u64 = 56;

/// How high a bar is.
pub(crate) const BAR: u64 = 20;

/// How wide a picture is that has few events, without the lanes' names.
const NARROW: u64 = 1_000;

/// The least width of an event, and the greatest.
const LEAST: u64 = 10;

const MOST: u64 = 120;

/// Events by their places: from the first one on, and before the end.
#[derive(Clone, Copy)]
pub(crate) struct Stretch {
    pub(crate) first: usize,
    pub(crate) end: usize,
}

impl Stretch {
    /// So many of so many events, with that place a little behind the middle where there are more.
    pub(crate) fn around(place: usize, size: usize, count: usize) -> Stretch
        ensures order { result.first ≤ result.end }
        ensures within { result.end ≤ count }
        ensures few { result.end ≤ result.first + size }
    {
        let latest = count.saturating_sub(size);
        let first = place.saturating_sub(before(size)).min(latest);
        let end = count.min(first.saturating_add(size));
        Stretch { first, end }
    }

    pub(crate) fn len(self) -> usize {
        self.end.saturating_sub(self.first)
    }

    /// Whether a call is open at one of the events.
    pub(crate) fn touches(self, places: Places) -> bool {
        let is_over = match places.returned {
            Some(returned) => (returned as usize) < self.first,
            None => false,
        };
        !is_over && (places.called as usize) < self.end
    }

    /// The first line of the history that is shown. The header is line 1.
    pub(crate) fn first_line(self) -> u64 {
        line_of(self.first)
    }

    /// The last line that is shown.
    pub(crate) fn last_line(self) -> u64 {
        (self.end as u64).saturating_add(1)
    }
}

/// How many of so many events are shown before the one that matters, where there are as many.
pub(crate) fn before(size: usize) -> usize
    ensures { result ≤ size }
{
    size.saturating_sub(size / 3 + 1)
}

/// The line of the event at a place.
pub(crate) fn line_of(place: usize) -> u64 {
    (place as u64).saturating_add(2)
}

/// How wide an event is drawn where so many are.
pub(crate) fn column_of(shown: usize) -> u64
    ensures { result ≤ 120 }
{
    (NARROW / shown.max(1) as u64).max(LEAST).min(MOST)
}

/// A stretch as it is drawn.
#[derive(Clone, Copy)]
pub(crate) struct Window {
    pub(crate) stretch: Stretch,
    left: u64,
    column: u64,
    // how high it is above the lanes
    above: u64,
    ghost at: { left ≤ 1300000 },
    ghost wide: { column ≤ 120 },
    ghost high: { above ≤ 60 },
}

impl Window {
    /// The stretch, drawn from that pixel on, with events of that width, below a strip or not.
    pub(crate) fn at(stretch: Stretch, left: u64, column: u64, has_strip: bool) -> Window
        requires { column ≤ 120 }
    {
        Window {
            stretch,
            left: left.min(1_300_000),
            column,
            above: if has_strip { STRIP } else { NO_STRIP },
        }
    }

    /// Where an event begins. What is outside of the window is at its edge.
    pub(crate) fn x(self, place: usize) -> u64
        ensures { result ≤ 2500000 }
    {
        let shown = place
            .saturating_sub(self.stretch.first)
            .min(self.stretch.len())
            .min(MOST_SHOWN) as u64;
        self.left + shown * self.column
    }

    pub(crate) fn left(self) -> u64
        ensures { result ≤ 1300000 }
    {
        self.left
    }

    /// Where the window ends.
    pub(crate) fn right(self) -> u64
        ensures { result ≤ 2500000 }
    {
        self.x(self.stretch.end)
    }

    /// How wide an event is.
    pub(crate) fn column(self) -> u64
        ensures { result ≤ 120 }
    {
        self.column
    }

    /// The top of a CPU's lane.
    pub(crate) fn lane_top(self, cpu: u8) -> u64
        ensures { result ≤ 20000 }
    {
        self.above + u64::from(cpu) * LANE
    }
}
