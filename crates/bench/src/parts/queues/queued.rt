//! A round through the event queue.

use crate::parts::queues::{CALL, CALLS, CAPACITY, REPLY};
use crate::timing::Timing;
use event_queue::Recorder;
use history::History;
use memory_map::Config;
use queue_threads::{Calls, record_beside};
use std::alloc::Global;
use std::io;
use std::sync::Wait;
use std::thread::Threads;
use std::time::{Clock, Instant};

/// How many events came into the history, and in what time.
pub(crate) fn round<R: Threads + Wait + Clock + Sync>(
    rt: &R,
    alloc: Global,
    config: Config,
) -> io::Result<Timing> {
    let calls = Calls {
        count: CALLS,
        command: CALL,
        reply: REPLY,
    };
    let (recorder, mut passes, scribe, order) = Recorder::new(alloc, CAPACITY, config.cpus())?;
    let history = History::new(alloc, config);
    let start = Instant::now(rt)?;
    let passes = passes.as_mut_slice();
    let (_scribe, history) = record_beside(rt, &recorder, order, passes, scribe, history, calls)?;
    let time = start.elapsed(rt)?;
    Ok(Timing {
        count: history.len() as u64,
        time,
    })
}
