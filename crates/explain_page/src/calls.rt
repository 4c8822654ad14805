//! The calls of a CPU that a stretch touches.

use crate::window::Stretch;
use history::{History, MOST_LINES, Places};

/// A call by its CPU and number.
#[derive(Clone, Copy, PartialEq)]
pub(crate) struct CallId {
    pub(crate) cpu: u8,
    pub(crate) number: u32,
}

pub(crate) fn places_of(history: &History, call: CallId) -> Option<Places> {
    history.places_of(call.cpu, call.number)
}

/// Calls of one CPU by their numbers: from the first one on, and before the end.
#[derive(Clone, Copy)]
pub(crate) struct Calls {
    pub(crate) first: u32,
    pub(crate) end: u32,
}

impl Calls {
    pub(crate) fn contains(self, number: u32) -> bool {
        self.first <= number && number < self.end
    }
}

/// A call's beginning or its end.
#[derive(Clone, Copy)]
enum Edge {
    Called,
    Returned,
}

/// The calls of a CPU that haven't returned before a stretch and are made before its end.
pub(crate) fn calls_in(history: &History, stretch: Stretch, cpu: u8) -> Calls {
    Calls {
        first: first_from(history, cpu, Edge::Returned, stretch.first),
        end: first_from(history, cpu, Edge::Called, stretch.end),
    }
}

// The first call of a CPU whose edge isn't before a place. Calls of a CPU are in the order of their numbers.
fn first_from(history: &History, cpu: u8, edge: Edge, place: usize) -> u32 {
    let mut low: u32 = 0;
    let mut high = MOST_LINES as u32;
    for _halving in 0..20 {
        let middle = low.saturating_add(high.saturating_sub(low) / 2);
        if low >= high {
            break;
        }
        if is_before(history.places_of(cpu, middle), edge, place) {
            low = middle.saturating_add(1);
        } else {
            high = middle;
        }
    }
    low
}

// Whether a call's edge is before a place. A call that hasn't returned, and one that there isn't, has no edge.
fn is_before(places: Option<Places>, edge: Edge, place: usize) -> bool {
    let Some(places) = places else {
        return false;
    };
    match edge {
        Edge::Called => (places.called as usize) < place,
        Edge::Returned => match places.returned {
            Some(returned) => (returned as usize) < place,
            None => false,
        },
    }
}
