//! What a picture shows of a history.

ghost use Rattle.std.specs.Prelude.{◌≤◌};

use crate::calls::places_of;
use crate::focus::Focus;
use crate::window::{LEFT, Stretch, Window, before, column_of};
use history::History;

/// How wide the gap between two windows is.
pub(crate) const GAP: u64 = 60;

/// One window, or two with a gap between them, in the order of their lines.
#[derive(Clone, Copy)]
pub(crate) struct View {
    pub(crate) first: Window,
    pub(crate) second: Option<Window>,
    /// Whether all events are shown.
    pub(crate) is_whole: bool,
}

impl View {
    /// The window at the right.
    pub(crate) fn last(self) -> Window {
        match self.second {
            Some(second) => second,
            None => self.first,
        }
    }
}

/// The view of a picture with at most so many events: around the failing call, with the one behind it where both fit in; else each has a
/// window of half as many. Of an order without a fault it is the end of the history.
pub(crate) fn view_of(history: &History, focus: &Focus, most: usize) -> View {
    let count = history.len();
    if count <= most {
        return one(Stretch::around(0, count, count), true);
    }
    let Some(failing) = focus.failing.and_then(|call| places_of(history, call)) else {
        return one(Stretch::around(count, most, count), false);
    };
    let Some(cause) = focus.cause.and_then(|call| places_of(history, call)) else {
        return one(Stretch::around(failing.called as usize, most, count), false);
    };
    let low = failing.called.min(cause.called) as usize;
    let high = failing.called.max(cause.called) as usize;
    if most < 2 || high.saturating_sub(low) <= before(most) {
        return one(Stretch::around(high, most, count), false);
    }
    let half = most / 2;
    two(
        Stretch::around(low, half, count),
        Stretch::around(high, half, count),
    )
}

fn one(stretch: Stretch, is_whole: bool) -> View {
    let column = column_of(stretch.len());
    View {
        first: Window::at(stretch, LEFT, column, !is_whole),
        second: None,
        is_whole,
    }
}

// Nothing is drawn twice.
fn two(low: Stretch, high: Stretch) -> View {
    let low = Stretch {
        first: low.first,
        end: low.end.min(high.first),
    };
    let column = column_of(low.len().saturating_add(high.len()));
    let first = Window::at(low, LEFT, column, true);
    let left = first.right() + GAP;
    View {
        first,
        second: Some(Window::at(high, left, column, true)),
        is_whole: false,
    }
}
