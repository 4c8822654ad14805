//! CPUs that record on threads, beside one that drains.

ghost use Rattle.std.specs.Prelude.{◌≡◌, ◌<◌, length, IfOk};
ghost use Rattle.std.specs.List.{AllWithin};
ghost use Rattle.event_queue.specs.View.{CanDrain};

use crate::kept::{Kept, Named};
use event_queue::{CpuPass, History, OrderPass, Recorder, ScribePass};
use rmi_codec::{read_command, read_reply};
use std::alloc::AllocError;
use std::marker::Brand;
use std::sync::atomic::{AtomicBool, Ordering};
use std::sync::{Mutex, Wait};
use std::thread;
use std::thread::Threads;

/// How often each CPU calls, and what, and how that returns: both as in the line of a history.
#[derive(Clone, Copy)]
pub struct Calls<'a> {
    pub count: u32,
    pub command: &'a str,
    pub reply: &'a str,
}

/// Each pass records on a thread, until it has made all calls or is refused one, beside one thread that drains until all have ended and
/// the queue is empty.
pub fn record_beside<R: Threads + Wait + Sync>(
    rt: &R,
    recorder: &Recorder,
    order: OrderPass,
    passes: &mut [CpuPass],
    scribe: ScribePass,
    history: History,
    calls: Calls<'_>,
) -> Result<(ScribePass, History), AllocError>
    requires order { order.queue ≡ recorder.now.queue }
    requires passes { AllWithin (λ pass. pass.queue ≡ recorder.now.queue) passes.old 0 (length passes.old) }
    requires scribe { CanDrain recorder.now.queue scribe history.recorded }
    ensures { IfOk result (λ drained. CanDrain recorder.now.queue drained.0 drained.1.recorded) }
{
    record_named::<Brand, R>(rt, recorder, order, passes, scribe, history, calls)
}

// The same of a queue that has a name.
fn record_named<N: Named + Send + Sync, R: Threads + Wait + Sync>(
    rt: &R,
    recorder: &Recorder,
    order: OrderPass,
    passes: &mut [CpuPass],
    scribe: ScribePass,
    history: History,
    calls: Calls<'_>,
) -> Result<(ScribePass, History), AllocError>
    requires named { recorder.now.queue ≡ N.queue }
    requires order { order.queue ≡ recorder.now.queue }
    requires passes { AllWithin (λ pass. pass.queue ≡ recorder.now.queue) passes.old 0 (length passes.old) }
    requires scribe { CanDrain recorder.now.queue scribe history.recorded }
    ensures { IfOk result (λ drained. CanDrain recorder.now.queue drained.0 drained.1.recorded) }
{
    let have_ended = AtomicBool::new(false);
    let kept = Mutex::new(Kept::<N>::new(order));
    let cpus = passes.len();
    if cpus == 0 {
        return Ok((scribe, history));
    }
    let ((), drained) = thread::join(
        rt,
        ||
            requires { (0 < cpus) × (recorder.now.queue ≡ N.queue)
                × AllWithin (λ pass. pass.queue ≡ recorder.now.queue) passes.now 0 (length passes.now) }
        {
            thread::for_each_mut(
                rt,
                passes,
                cpus,
                &|_, pass| record_all(rt, recorder, &kept, pass, calls),
            );
            have_ended.store(true, Ordering::SeqCst);
        },
        || -> Result<(ScribePass, History), AllocError>
            requires { CanDrain recorder.now.queue scribe history.recorded }
            ensures { IfOk result (λ drained. CanDrain recorder.entry.now.queue drained.0 drained.1.recorded) }
        { drain_all(rt, recorder, scribe, history, &have_ended) },
    );
    drained
}

// Records all calls and returns of a CPU, until one is refused.
fn record_all<N: Named, R: Wait>(
    rt: &R,
    recorder: &Recorder,
    kept: &Mutex<Kept<N>>,
    pass: &mut CpuPass,
    calls: Calls<'_>,
)
    requires { (recorder.now.queue ≡ N.queue) × (pass.old.queue ≡ recorder.now.queue) }
{
    for _call in 0..calls.count {
        if !record_one(rt, recorder, kept, pass, calls) {
            break;
        }
    }
}

// Records a call, its commit and its return, and returns whether none was refused.
fn record_one<N: Named, R: Wait>(
    rt: &R,
    recorder: &Recorder,
    kept: &Mutex<Kept<N>>,
    pass: &mut CpuPass,
    calls: Calls<'_>,
) -> bool
    requires { (recorder.now.queue ≡ N.queue) × (pass.old.queue ≡ recorder.now.queue) }
    ensures { pass.new.queue ≡ pass.old.queue }
{
    let (Ok(command), Ok(reply)) = (read_command(calls.command), read_reply(calls.reply)) else {
        return false;
    };
    if pass.is_open() || pass.is_stopped() || pass.next_number() > 999_999 {
        return false;
    }
    if recorder.call(rt, pass, command).is_err() {
        return false;
    }
    kept.lock(rt).commit(recorder, pass, &reply);
    recorder.returned(rt, pass, reply).is_ok()
}

// Drains until all CPUs have ended and the queue is empty.
fn drain_all<R: Wait>(
    rt: &R,
    recorder: &Recorder,
    mut scribe: ScribePass,
    mut history: History,
    have_ended: &AtomicBool,
) -> Result<(ScribePass, History), AllocError>
    requires { CanDrain recorder.now.queue scribe history.recorded }
    ensures { IfOk result (λ drained. CanDrain recorder.now.queue drained.0 drained.1.recorded) }
{
    for _look in rt.forever() {
        let are_last = have_ended.load(Ordering::SeqCst);
        let taken = recorder.drain(rt, &mut scribe, &mut history)?;
        if taken == 0 && are_last {
            break;
        }
        if taken == 0 {
            thread::yield_now();
        }
    }
    Ok((scribe, history))
}
