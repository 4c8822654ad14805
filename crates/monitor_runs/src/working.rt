//! All CPUs on threads of their own, beside the thread that drains.

ghost use Rattle.std.specs.Prelude.{◌≡◌, ◌≢◌, ◌+◌, ◌<◌, ◌++◌, ◌∷◌, [], All, length, map, IfOk, MatchResult};
ghost use Rattle.rmm_spec.specs.Scenario.{IsScenario};
ghost use Rattle.world_runs.specs.declared.fault.RunFault.TheVariants.{Disagrees};
ghost use Rattle.event_queue.specs.View.{CanDrain};
ghost use Rattle.monitor_runs.specs.Worked.{CanWork, HasWorked, AreWaiting, IsLast, HaveWorked, HasEnded, promised};

use crate::cpu::Cpu;
use history::History;
use monitor::{CpuPass, CpuToken, Monitor, ScribePass, Site};
use rmm_spec::Command;
use scenario::Scenario;
use std::alloc::{AllocError, Global};
use std::snapshot::Snapshot;
use std::sync::Wait;
use std::sync::atomic::{AtomicU64, Ordering};
use std::thread;
use std::thread::{Promise, PromisedHandle, Threads};
use world_runs::RunFault;

/// The CPUs before their first commands: their tokens, their passes and their programs.
#[derive(Drop)]
pub(crate) struct Waiting<S: Site> {
    pub(crate) tokens: Vec<CpuToken<S>>,
    pub(crate) passes: Vec<CpuPass>,
    pub(crate) programs: Vec<Vec<Command>>,
}

/// What is left when all CPUs have ended.
#[derive(Drop)]
pub(crate) struct Ended<S: Site> {
    pub(crate) tokens: Vec<CpuToken<S>>,
    pub(crate) passes: Vec<CpuPass>,
    pub(crate) scribe: ScribePass,
    pub(crate) history: History,
}

// The CPU of this number executes its program and nothing else.
#[derive(Drop)]
struct Works<'a, S: Site> {
    monitor: &'a Monitor<S>,
    cpu: u8,
    program: Snapshot<Vec<Command>>,
}

impl<'a, S: Site> Promise<(CpuToken<S>, CpuPass)> for Works<'a, S> {
    ghost kept_by = { λ works left. HasWorked works.monitor.now works.cpu works.program.value.items left.0 left.1 };
}

/// Each CPU executes its program on a thread, while this thread drains. Returns when all have ended.
pub(crate) fn work_all<S: Site + Send + Sync, R: Threads + Wait + Sync>(
    rt: &R,
    alloc: Global,
    monitor: &Monitor<S>,
    scenario: &Scenario,
    waiting: Waiting<S>,
    scribe: ScribePass,
    history: History,
) -> Result<Ended<S>, RunFault>
    requires limits { IsScenario scenario.now }
    requires waiting { AreWaiting monitor.now scenario.now.programs waiting.tokens.items waiting.passes.items waiting.programs.items
        × (length waiting.tokens.items ≡ monitor.now.config.cpus) }
    requires drained { CanDrain monitor.now.queue scribe history.recorded }
    ensures { MatchResult result (λ ended. HasEnded monitor.now scenario.now.programs history.recorded.config
        ended.tokens.items ended.passes.items ended.scribe ended.history.recorded) (λ fault. fault ≢ Disagrees) }
{
    let count = AtomicU64::new(0);
    let ended = &count;
    thread::scope(
        thread::scope_env(),
        rt,
        |scope| -> Result<Ended<S>, RunFault>
            requires { IsScenario scenario.now × CanDrain monitor.now.queue scribe history.recorded
                × AreWaiting monitor.now scenario.now.programs waiting.tokens.items waiting.passes.items waiting.programs.items
                × (length waiting.tokens.items ≡ monitor.now.config.cpus) }
            ensures { MatchResult result (λ ended. HasEnded monitor.entry.now scenario.entry.now.programs history.recorded.config
                ended.tokens.items ended.passes.items ended.scribe ended.history.recorded) (λ fault. fault ≢ Disagrees) }
        {
            let mut waiting = waiting;
            let cpus = monitor.config().cpus();
            let mut workers = Vec::with_capacity(alloc, usize::from(cpus))?;
            for _cpu in 0..cpus {
                let cpu = last_cpu(monitor, scenario, &mut waiting);
                let promise = Works {
                    monitor,
                    cpu: cpu.token.cpu(),
                    program: Snapshot::of(&cpu.program),
                };
                let worker = scope.spawn_with(
                    promise,
                    move || work_counted(rt, alloc, monitor, cpu, ended),
                )?;
                workers.push_reserved(worker);
            }
            let (scribe, history) = drain_beside(rt, monitor, scribe, history, ended)?;
            let (tokens, passes) = join_all(rt, alloc, monitor, scenario, workers)?;
            Ok(Ended {
                tokens,
                passes,
                scribe,
                history,
            })
        },
    )
}

// The last of some first CPUs that wait.
fn last_cpu<S: Site>(
    _monitor: &Monitor<S>,
    _scenario: &Scenario,
    waiting: &mut Waiting<S>,
) -> Cpu<S>
    requires limits { IsScenario _scenario.now }
    requires waiting { AreWaiting _monitor.now _scenario.now.programs waiting.old.tokens.items waiting.old.passes.items waiting.old.programs.items }
    requires some { 0 < length waiting.old.tokens.items }
    ensures last { IsLast _monitor.now _scenario.now.programs waiting.new.tokens.items waiting.new.passes.items waiting.new.programs.items
        result.token result.pass result.program.items }
    ensures count { length waiting.old.tokens.items ≡ length waiting.new.tokens.items + 1 }
{
    let token = last_of(&mut waiting.tokens);
    let pass = last_of(&mut waiting.passes);
    let program = last_of(&mut waiting.programs);
    Cpu {
        token,
        pass,
        program,
    }
}

// The last of a list that isn't empty, which leaves it.
fn last_of<T>(items: &mut Vec<T>) -> T
    requires { 0 < length items.old.items }
    ensures { items.old.items ≡ items.new.items ++ result ∷ [] }
{
    let Some(last) = items.pop() else {
        unreachable!()
    };
    last
}

// What the CPUs' threads leave, of which the last CPU's was started first, in the order of the CPUs.
fn join_all<'a, S: Site, R: Threads>(
    rt: &R,
    alloc: Global,
    monitor: &Monitor<S>,
    _scenario: &Scenario,
    mut workers: Vec<PromisedHandle<(CpuToken<S>, CpuPass), Works<'a, S>>>,
) -> Result<(Vec<CpuToken<S>>, Vec<CpuPass>), AllocError>
    requires monitor { All (λ worker. worker.promise.monitor.now ≡ monitor.now) workers.items }
    requires promised { map (λ worker. (worker.promise.cpu, worker.promise.program.value.items)) workers.items
        ≡ promised _scenario.now.programs monitor.now.config.cpus monitor.now.config.cpus }
    ensures { IfOk result (λ left. HaveWorked monitor.now _scenario.now.programs monitor.now.config.cpus left.0.items left.1.items) }
{
    let mut tokens = Vec::new(alloc);
    let mut passes = Vec::new(alloc);
    for _cpu in 0..monitor.config().cpus() {
        let (token, pass) = last_of(&mut workers).join(rt);
        tokens.push(token)?;
        passes.push(pass)?;
    }
    Ok((tokens, passes))
}

// Executes a CPU's program, and adds one to those that have ended.
fn work_counted<S: Site, R: Wait>(
    rt: &R,
    alloc: Global,
    monitor: &Monitor<S>,
    cpu: Cpu<S>,
    ended: &AtomicU64,
) -> (CpuToken<S>, CpuPass)
    requires { CanWork monitor.now cpu.program.items cpu.token cpu.pass }
    ensures { HasWorked monitor.now cpu.token.cpu cpu.program.items result.0 result.1 }
{
    let left = cpu.work(rt, alloc, monitor);
    ended.fetch_add(1, Ordering::SeqCst);
    left
}

// Drains again and again until all CPUs have ended.
fn drain_beside<S: Site, R: Wait>(
    rt: &R,
    monitor: &Monitor<S>,
    mut scribe: ScribePass,
    mut history: History,
    ended: &AtomicU64,
) -> Result<(ScribePass, History), AllocError>
    requires { CanDrain monitor.now.queue scribe history.recorded }
    ensures drained { IfOk result (λ drained. CanDrain monitor.now.queue drained.0 drained.1.recorded) }
    ensures config { IfOk result (λ drained. drained.1.recorded.config ≡ history.recorded.config) }
{
    let cpus = u64::from(monitor.config().cpus());
    for _look in rt.forever() {
        if ended.load(Ordering::SeqCst) == cpus {
            return Ok((scribe, history));
        }
        if monitor.drain(rt, &mut scribe, &mut history)? == 0 {
            thread::yield_now();
        }
    }
    unreachable!()
}
