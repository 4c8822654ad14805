//! The same round through a deque behind a lock. Nothing is known of what comes out, so each event is tested.

ghost use Rattle.std.specs.Prelude.{◌<◌};

use crate::parts::queues::{CALL, CALLS, CAPACITY, REPLY};
use crate::timing::Timing;
use history::{Event, History};
use memory_map::Config;
use rmi_codec::{read_command, read_reply};
use std::alloc::{AllocError, Global};
use std::collections::VecDeque;
use std::sync::atomic::{AtomicBool, Ordering};
use std::sync::{Mutex, Wait};
use std::thread::Threads;
use std::time::{Clock, Instant};
use std::{io, thread};

/// How many events came into the history, and in what time.
pub(crate) fn round<R: Threads + Wait + Clock + Sync>(
    rt: &R,
    alloc: Global,
    config: Config,
) -> io::Result<Timing> {
    let mut cpus = Vec::new(alloc);
    for cpu in 0..config.cpus() {
        cpus.push(cpu)?;
    }
    let queue = Mutex::new(VecDeque::with_capacity(alloc, CAPACITY)?);
    timed(rt, &queue, cpus.as_mut_slice(), History::new(alloc, config))
}

fn timed<R: Threads + Wait + Clock + Sync>(
    rt: &R,
    queue: &Mutex<VecDeque<Event>>,
    cpus: &mut [u8],
    history: History,
) -> io::Result<Timing> {
    let start = Instant::now(rt)?;
    let count = record_beside(rt, queue, cpus, history)?;
    let time = start.elapsed(rt)?;
    Ok(Timing { count, time })
}

// Each CPU records on a thread, beside one that drains. How many events were drained.
fn record_beside<R: Threads + Wait + Sync>(
    rt: &R,
    queue: &Mutex<VecDeque<Event>>,
    cpus: &mut [u8],
    history: History,
) -> Result<u64, AllocError> {
    let have_ended = AtomicBool::new(false);
    let count = cpus.len();
    if count == 0 {
        return Ok(0);
    }
    let ((), drained) = thread::join(
        rt,
        ||
            requires { 0 < count }
        {
            thread::for_each_mut(rt, cpus, count, &|_, cpu| record_all(rt, queue, *cpu));
            have_ended.store(true, Ordering::SeqCst);
        },
        || drain_all(rt, queue, history, &have_ended),
    );
    drained
}

// Records all calls and returns of a producer.
fn record_all<R: Wait>(rt: &R, queue: &Mutex<VecDeque<Event>>, cpu: u8) {
    for number in 0..CALLS {
        if !record_one(rt, queue, cpu, number) {
            break;
        }
    }
}

// Records a call and its return, and returns whether neither was refused.
fn record_one<R: Wait>(rt: &R, queue: &Mutex<VecDeque<Event>>, cpu: u8, number: u32) -> bool {
    let (Ok(command), Ok(reply)) = (read_command(CALL), read_reply(REPLY)) else {
        return false;
    };
    let called = Event::Called {
        cpu,
        number,
        command,
    };
    if queue.lock(rt).push_back(called).is_err() {
        return false;
    }
    let returned = Event::Returned { cpu, number, reply };
    queue.lock(rt).push_back(returned).is_ok()
}

// Drains until the producers have ended and the queue is empty.
fn drain_all<R: Wait>(
    rt: &R,
    queue: &Mutex<VecDeque<Event>>,
    mut history: History,
    have_ended: &AtomicBool,
) -> Result<u64, AllocError> {
    for _look in rt.forever() {
        let are_last = have_ended.load(Ordering::SeqCst);
        match queue.lock(rt).pop_front() {
            Some(event) => {
                if history.fits(&event) && history.has_room() {
                    history.push(event)?;
                }
            }
            None if are_last => break,
            None => thread::yield_now(),
        }
    }
    Ok(history.len() as u64)
}
