//! The queue of a monitor that isn't made yet.

ghost use Rattle.std.specs.Prelude.{◌≡◌, ℕ, ◌<◌, ◌≤◌, [], length, slice_get, Some, IfOk};

use event_queue::{CpuPass, OrderPass, Recorder, ScribePass};
use memory_map::Config;
use std::alloc::{AllocError, Global};
use std::marker::Model;

/// A queue of events with all its passes. A monitor's site names its queue, so that is made first.
#[derive(Drop)]
pub struct Queue {
    pub(crate) recorder: Recorder,
    pub(crate) passes: Vec<CpuPass>,
    pub(crate) scribe: ScribePass,
    pub(crate) order: OrderPass,
}

impl Model for Queue {
    ghost use Rattle.monitor.specs.View.{QueueView};

    ghost Value = { QueueView };

    ghost use Rattle.std.specs.Prelude.{◌≡◌, ℕ, ◌<◌, [], length, slice_get, Some};
    ghost use Rattle.event_queue.specs.View.{before_calls};

    ghost view = { λ q. record { queue = q.recorder.queue; capacity = q.recorder.capacity; cpus = q.scribe.cpus } };

    ghost invariant = { λ q. (length q.passes.items ≡ q.scribe.cpus)
        × ((cpu : ℕ) → cpu < q.scribe.cpus → slice_get q.passes.items cpu ≡ Some (before_calls q.recorder.queue q.scribe.cpus cpu))
        × (q.scribe ≡ record { queue = q.recorder.queue; cpus = q.scribe.cpus; events = [] })
        × (q.order ≡ record { queue = q.recorder.queue; entries = [] }) };
}

impl Queue {
    /// A queue for so many events of a machine's CPUs.
    pub fn new(alloc: Global, config: &Config, capacity: usize) -> Result<Queue, AllocError>
        requires capacity { (1 ≤ capacity) × (capacity ≤ 65536) }
        ensures capacity { IfOk result (λ queue. queue.capacity ≡ capacity) }
        ensures cpus { IfOk result (λ queue. queue.cpus ≡ config.now.cpus) }
    {
        let (recorder, passes, scribe, order) = Recorder::new(alloc, capacity, config.cpus())?;
        Ok(Queue {
            recorder,
            passes,
            scribe,
            order,
        })
    }
}
