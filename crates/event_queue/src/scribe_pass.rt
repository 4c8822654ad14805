//! The pass by which the scribe takes events out of the queue.

ghost use Rattle.std.specs.Prelude.{◌≡◌, [], ◌∷◌, ◌++◌, IfNone, IfSome, MatchOption};
ghost use Rattle.crossbeam_queue.specs.Passes.{IsPassOf, view as page_of};
ghost use Rattle.rmm_spec.specs.HistoryText.{IsEvent, IsRecord, cpu_of, subhistory_of};
ghost use Rattle.event_queue.specs.Numbered.{AreInOrder};
ghost use Rattle.event_queue.specs.Pages.{Scribe};

use crate::book::{Closes, Drains, PagePass, Queue, Takes, Tells};
use crate::order_pass::OrderPass;
use rmm_spec::Event;
use std::marker::Model;
use std::sync::Wait;

/// What the scribe drains by: the list of all events that were drained, which takes no memory.
#[derive(Drop)]
pub struct ScribePass {
    pass: PagePass,
}

impl Model for ScribePass {
    ghost use Rattle.event_queue.specs.View.{ScribeView};

    ghost Value = { ScribeView };

    ghost use Rattle.std.specs.Prelude.{◌≡◌, []};
    ghost use Rattle.crossbeam_queue.specs.Passes.{view as page_of};
    ghost use Rattle.event_queue.specs.Pages.{Scribe};

    ghost view = { λ p. record {
      queue = p.pass.table_id;
      cpus = (page_of p.pass).cpus;
      events = (page_of p.pass).events;
    } };

    ghost invariant = { λ p. (p.pass.me.1 ≡ []) × ((page_of p.pass).holder ≡ Scribe) };
}

impl ScribePass {
    /// The scribe's pass before anything was drained.
    pub(crate) fn seated(pass: PagePass) -> ScribePass
        requires clear { pass.me.1 ≡ [] }
        requires page { (page_of pass).holder ≡ Scribe }
        ensures { result ≡ record { queue = pass.table_id; cpus = (page_of pass).cpus; events = (page_of pass).events } }
    {
        ScribePass { pass }
    }

    /// Takes the oldest event, or nothing where the queue is empty.
    pub(crate) fn take<R: Wait>(&mut self, rt: &R, queue: &Queue) -> Option<Event>
        requires { queue.now.table.shared.table_id ≡ self.old.queue }
        ensures taken { MatchOption result (self.new ≡ self.old) (λ event. self.new ≡ record self.old { events = self.old.events ++ event ∷ [] }) }
        ensures event { IfSome result (λ event. IsEvent self.old.cpus event) }
        ensures record { IfSome result (λ event. IsRecord (subhistory_of (cpu_of event) (self.old.events ++ event ∷ []))) }
    {
        queue.pop_as::<Drains, R>(rt, &mut self.pass)
    }

    /// Takes over the journal's page, and takes the oldest event. Where there is none, the journal is an order of all that was drained.
    pub(crate) fn take_last<R: Wait>(
        &mut self,
        rt: &R,
        queue: &Queue,
        order: OrderPass,
    ) -> Option<Event>
        requires queue { queue.now.table.shared.table_id ≡ self.old.queue }
        requires order { order.queue ≡ self.old.queue }
        ensures taken { MatchOption result (self.new ≡ self.old) (λ event. self.new ≡ record self.old { events = self.old.events ++ event ∷ [] }) }
        ensures event { IfSome result (λ event. IsEvent self.old.cpus event) }
        ensures ordered { IfNone result (AreInOrder self.old.events order.entries) }
    {
        queue.absorb::<Takes>(&mut self.pass, order.into_page());
        queue.pop_as::<Closes, R>(rt, &mut self.pass)
    }

    /// What was drained so far, to be told to a CPU.
    pub(crate) fn note(&mut self, queue: &Queue) -> PagePass
        requires { queue.now.table.shared.table_id ≡ self.old.queue }
        ensures same { self.new ≡ self.old }
        ensures queue { IsPassOf queue.now result }
        ensures note { (page_of result).seen ≡ self.old.events }
    {
        queue.another::<Tells>(&mut self.pass)
    }
}
