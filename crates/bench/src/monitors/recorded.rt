//! A run of a monitor, and what it leaves: a history and a certificate.

ghost use Rattle.std.specs.Prelude.{◌≡◌, ◌≤◌, All, IfOk};
ghost use Rattle.event_queue.specs.View.{CanDrain};
ghost use Rattle.monitor.specs.Cpus.{AreCpus};
ghost use Rattle.monitor.specs.Executed.{ArePaired};

use crate::monitors::cpu::Cpu;
use crate::monitors::cpus::{parted, work_all};
use crate::monitors::job::Job;
use crate::monitors::started::started;
use anyhow::{Result, bail};
use memory_map::Config;
use monitor::{
    Certificate, CpuPass, CpuToken, History, Monitor, Queue, ScribePass, Site, fit_a_history,
};
use std::alloc::{AllocError, Global};
use std::sync::Wait;
use std::sync::atomic::{AtomicBool, Ordering};
use std::sync::ledger::Blank;
use std::thread;
use std::thread::Threads;

/// Runs a monitor of this size: each CPU executes its job on a thread, while the scribe drains. At the end the monitor is closed.
pub(crate) fn recorded<S: Site + Send + Sync, R: Threads + Wait + Sync>(
    rt: &R,
    alloc: Global,
    blank: Blank,
    config: Config,
    queue: Queue,
    jobs: &[Job],
) -> Result<(History, Certificate)>
    requires name { blank.name ≡ S.name }
    requires parts { blank.parts ≡ S.parts }
    requires one_each { blank.parts ≡ config.cpus }
    requires granules { config ≡ S.config }
    requires queue { (queue.queue ≡ S.queue) × (queue.cpus ≡ config.cpus) }
{
    let (monitor, cpus, scribe) = started::<S>(alloc, blank, config, queue)?;
    let history = History::new(alloc, config);
    let (cpus, scribe, history) = worked(rt, alloc, &monitor, jobs, cpus, scribe, history)?;
    let (tokens, passes) = parted(alloc, &monitor, cpus)?;
    closed(rt, alloc, monitor, tokens, passes, scribe, history)
}

// Closes the monitor, where its history has room for all events.
fn closed<S: Site, R: Wait>(
    rt: &R,
    alloc: Global,
    monitor: Monitor<S>,
    tokens: Vec<CpuToken<S>>,
    passes: Vec<CpuPass>,
    scribe: ScribePass,
    history: History,
) -> Result<(History, Certificate)>
    requires cpus { AreCpus monitor tokens.items passes.items }
    requires drain { CanDrain monitor.queue scribe history.recorded }
    requires config { history.recorded.config ≡ monitor.config }
{
    if !fit_a_history(passes.as_slice()) {
        bail!("more events than a history has");
    }
    Ok(monitor.close(rt, alloc, tokens, passes, scribe, history)?)
}

// Each CPU executes its job on a thread, beside one that drains.
fn worked<S: Site + Send + Sync, R: Threads + Wait + Sync>(
    rt: &R,
    alloc: Global,
    monitor: &Monitor<S>,
    jobs: &[Job],
    cpus: Vec<Cpu<S>>,
    scribe: ScribePass,
    history: History,
) -> Result<(Vec<Cpu<S>>, ScribePass, History), AllocError>
    requires cpus { All (λ cpu. ArePaired monitor.now cpu.token cpu.pass) cpus.items }
    requires scribe { CanDrain monitor.now.queue scribe history.recorded }
    ensures cpus { IfOk result (λ left. All (λ cpu. ArePaired monitor.now cpu.token cpu.pass) left.0.items) }
    ensures queue { IfOk result (λ left. CanDrain monitor.now.queue left.1 left.2.recorded) }
    ensures config { IfOk result (λ left. left.2.recorded.config ≡ history.recorded.config) }
{
    let have_ended = AtomicBool::new(false);
    let (cpus, drained) = thread::join(
        rt,
        || -> Vec<Cpu<S>>
            requires { All (λ cpu. ArePaired monitor.now cpu.token cpu.pass) cpus.items }
            ensures { All (λ cpu. ArePaired monitor.entry.now cpu.token cpu.pass) result.items }
        {
            let cpus = work_all(rt, alloc, monitor, None, jobs, cpus);
            have_ended.store(true, Ordering::SeqCst);
            cpus
        },
        || -> Result<(ScribePass, History), AllocError>
            requires { CanDrain monitor.now.queue scribe history.recorded }
            ensures { IfOk result (λ drained. CanDrain monitor.entry.now.queue drained.0 drained.1.recorded
                × (drained.1.recorded.config ≡ history.recorded.config)) }
        { drained(rt, monitor, scribe, history, &have_ended) },
    );
    let (scribe, history) = drained?;
    Ok((cpus, scribe, history))
}

// Drains until the CPUs have ended.
fn drained<S: Site, R: Wait>(
    rt: &R,
    monitor: &Monitor<S>,
    mut scribe: ScribePass,
    mut history: History,
    have_ended: &AtomicBool,
) -> Result<(ScribePass, History), AllocError>
    requires { CanDrain monitor.now.queue scribe history.recorded }
    ensures queue { IfOk result (λ drained. CanDrain monitor.now.queue drained.0 drained.1.recorded) }
    ensures config { IfOk result (λ drained. drained.1.recorded.config ≡ history.recorded.config) }
{
    for _look in rt.forever() {
        if have_ended.load(Ordering::SeqCst) {
            break;
        }
        if monitor.drain(rt, &mut scribe, &mut history)? == 0 {
            thread::yield_now();
        }
    }
    Ok((scribe, history))
}
