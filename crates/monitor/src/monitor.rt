//! What all CPUs share.

ghost use Rattle.std.specs.Prelude.{◌≡◌, ℕ, ◌+◌, ◌≤◌, ◌<◌, [], ◌++◌, List, length, slice_get, Some, IfOk, OnErr};
ghost use Rattle.rmm_spec.specs.declared.event.Event.{Event};
ghost use Rattle.commit_tickets.specs.View.{first_tokens};
ghost use Rattle.event_queue.specs.View.{CanDrain, before_calls};
ghost use Rattle.monitor.specs.Cpus.{AreCpus};

use crate::ordered::Ordered;
use crate::queue::Queue;
use crate::soon::Soon;
use commit_tickets::{CpuToken, Journal, Site};
use event_queue::{CpuPass, History, Recorder, ScribePass};
use granule_lock::Granules;
use history::MOST_LINES;
use memory_map::Config;
use std::alloc::{AllocError, Global};
use std::marker::Model;
use std::sync::Wait;
use std::sync::ledger::Blank;

/// The granules, each behind a lock of its own, the journal behind its one lock, and the queue of events.
#[derive(Drop)]
pub struct Monitor<S: Site> {
    pub(crate) config: Config,
    pub(crate) granules: Granules,
    pub(crate) journal: Soon<Ordered<S>>,
    pub(crate) recorder: Recorder,
}

impl<S: Site> Model for Monitor<S> {
    ghost use Rattle.monitor.specs.View.{MonitorView};

    ghost Value = { MonitorView };

    ghost use Rattle.std.specs.Prelude.{◌≡◌};

    ghost view = { λ m. record { config = m.config; queue = m.recorder.queue; capacity = m.recorder.capacity } };

    ghost invariant = { λ m. (m.granules.granules ≡ m.config.granules) × (m.config ≡ S.config) × (m.config.cpus ≡ S.parts)
        × (m.recorder.queue ≡ S.queue) };
}

impl<S: Site> Monitor<S> {
    /// A monitor whose granules are all the host's, with a queue that is made for its CPUs; a token and a pass for each CPU, and the
    /// scribe's pass. The blank is that of the site's ledger, with one part for each CPU. Where memory is refused there is
    /// nothing.
    pub fn new(
        alloc: Global,
        blank: Blank,
        config: Config,
        queue: Queue,
    ) -> Result<(Monitor<S>, Vec<CpuToken<S>>, Vec<CpuPass>, ScribePass), AllocError>
        requires name { blank.name ≡ S.name }
        requires parts { blank.parts ≡ S.parts }
        requires one_each { blank.parts ≡ config.cpus }
        requires site { config ≡ S.config }
        requires queue { (queue.queue ≡ S.queue) × (queue.cpus ≡ config.cpus) }
        ensures config { IfOk result (λ made. made.0.config ≡ config) }
        ensures capacity { IfOk result (λ made. made.0.capacity ≡ queue.capacity) }
        ensures queue { IfOk result (λ made. made.0.queue ≡ queue.queue) }
        ensures tokens { IfOk result (λ made. made.1.items ≡ first_tokens config.cpus) }
        ensures count { IfOk result (λ made. length made.2.items ≡ config.cpus) }
        ensures passes { IfOk result (λ made. (cpu : ℕ) → cpu < config.cpus
            → slice_get made.2.items cpu ≡ Some (before_calls made.0.queue config.cpus cpu)) }
        ensures cpus { IfOk result (λ made. AreCpus made.0 made.1.items made.2.items) }
        ensures scribe { IfOk result (λ made. made.3 ≡ record { queue = made.0.queue; cpus = config.cpus; events = [] }) }
    {
        let granules = Granules::new(alloc, &config)?;
        let (journal, tokens) = Journal::new(alloc, blank, config)?;
        let Queue {
            recorder,
            passes,
            scribe,
            order,
        } = queue;
        let monitor = Monitor {
            config,
            granules,
            journal: Soon::new(Ordered { journal, order }),
            recorder,
        };
        Ok((monitor, tokens, passes, scribe))
    }

    /// The machine's size.
    pub fn config(&self) -> Config
        ensures { result ≡ self.now.config }
    {
        self.config
    }

    /// That size, which is the site's.
    pub(crate) fn site_config(&self) -> Config
        ensures { result ≡ S.config }
    {
        self.config
    }

    /// Moves events from the queue to the end of the history, and returns how many, as `event_queue::Recorder::drain` does.
    pub fn drain<R: Wait>(
        &self,
        rt: &R,
        scribe: &mut ScribePass,
        history: &mut History,
    ) -> Result<usize, AllocError>
        requires { CanDrain self.now.queue scribe.old history.old.recorded }
        ensures taken { (taken : List Event) × (scribe.new ≡ record scribe.old { events = scribe.old.events ++ taken })
            × (length taken ≤ self.now.capacity) × IfOk result (λ count. count ≡ length taken)
            × OnErr result (history.old.room ≤ length taken) }
        ensures stopped { IfOk result (λ count. count < self.now.capacity
            → length history.new.recorded.events + 1 < MOST_LINES → 1 ≤ history.new.room) }
        ensures left { history.old.room + length scribe.old.events ≤ history.new.room + length scribe.new.events }
        ensures history { history.new.recorded ≡ record history.old.recorded { events = scribe.new.events } }
    {
        self.recorder.drain(rt, scribe, history)
    }
}
