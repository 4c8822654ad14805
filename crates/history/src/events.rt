//! The events of a history, one after another.

ghost use Rattle.std.specs.Prelude.{◌≡◌, [], ◌∷◌, IfSome, IfNone};
ghost use Rattle.history.specs.Entry as entry;
ghost use Rattle.history.specs.EventRef.{event_seen};

use crate::event_ref::EventRef;
use crate::history::History;
use std::marker::Model;

/// The events of a history that are left to read. How many events each CPU has before them tells the numbers of their calls.
#[derive(Drop)]
pub struct Events<'a> {
    history: &'a History,
    place: usize,
    counts: [u32; 8],
}

impl<'a> Model for Events<'a> {
    ghost use Rattle.std.specs.Prelude.{List, drop, take};
    ghost use Rattle.rmm_spec.specs.declared.event.Event.{Event};
    ghost use Rattle.history.specs.Counts.{AreCounts};

    ghost Value = { List Event };

    ghost view = { λ events. drop events.place events.history.now.recorded.events };

    ghost invariant = { λ events. AreCounts events.counts (take events.place events.history.now.recorded.events) };
}

impl<'a> Events<'a> {
    /// All events of a history.
    pub(crate) fn of(history: &'a History) -> Events<'a>
        ensures { result ≡ history.now.recorded.events }
    {
        Events {
            history,
            place: 0,
            counts: [0; 8],
        }
    }

    /// Takes the next event off.
    pub fn next(&mut self) -> Option<EventRef<'a>>
        ensures event { IfSome result (λ event. self.old ≡ event_seen event ∷ self.new) }
        ensures few { IfSome result (λ event. entry.HasFewWords (event_seen event)) }
        ensures over { IfNone result (self.old ≡ []) }
        ensures stays { IfNone result (self.new ≡ []) }
    {
        if self.place >= self.history.len() {
            return None;
        }
        let event = self.history.counted_at(self.place, &mut self.counts);
        self.place += 1;
        Some(event)
    }
}
