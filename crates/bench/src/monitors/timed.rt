//! Rounds of fixed programs, so that a script can time them.

ghost use Rattle.std.specs.Prelude.{◌≡◌, All, IfOk};
ghost use Rattle.monitor.specs.Executed.{ArePaired};

use crate::monitors::cpu::Cpu;
use crate::monitors::cpus::work_all;
use crate::monitors::job::Job;
use crate::monitors::started::started;
use crate::timing::Timing;
use anyhow::{Context, Result, bail};
use drawn_scenarios::{Life, Pages};
use memory_map::Config;
use monitor::{Monitor, Queue, Site};
use std::alloc::{AllocError, Global};
use std::marker::Brand;
use std::sync::ledger::Blank;
use std::sync::{Mutex, Wait};
use std::thread::Threads;
use std::time::{Clock, Instant};

/// How many events the queue holds: a call and a return of each command of a round on four CPUs.
const CAPACITY: usize = 65536;

/// How many commands a CPU executes in a round.
const COMMANDS: u32 = 8000;

/// What is timed: which commands, whether the CPUs share granules or a realm, and whether one lock is held around each command.
#[derive(Clone, Copy)]
pub(crate) struct Kind {
    is_walking: bool,
    is_shared: bool,
    is_locked: bool,
}

/// Reads `own` or `shared` for lives of realms, `realms` or `realm` for pages in realms of their own or in one, and `many` or `one`.
pub(crate) fn kind_of(granules: &str, locks: &str) -> Result<Kind> {
    let (is_walking, is_shared) = match granules {
        "own" => (false, false),
        "shared" => (false, true),
        "realms" => (true, false),
        "realm" => (true, true),
        _ => bail!("own, shared, realms or realm?"),
    };
    let is_locked = match locks {
        "many" => false,
        "one" => true,
        _ => bail!("many or one?"),
    };
    Ok(Kind {
        is_walking,
        is_shared,
        is_locked,
    })
}

/// Prints how many commands were executed in so many rounds, and in how many nanoseconds. Nothing is timed but the threads.
pub(crate) fn time_rounds<R: Print + Threads + Wait + Clock + Sync>(
    rt: &R,
    alloc: Global,
    kind: Kind,
    cpus: u64,
    rounds: u64,
) -> Result<()> {
    let config = Config::new(64, cpus).context("1 to 8 CPUs")?;
    let mut timing = Timing::none();
    for _round in 0..rounds {
        let blank = Blank::new(u64::from(config.cpus()));
        let queue = Queue::new(alloc, &config, CAPACITY)?;
        timing = timing.and(round::<Brand, R>(rt, alloc, blank, config, queue, kind)?);
    }
    timing.print(rt)?;
    Ok(())
}

// How many commands were executed, and in what time.
fn round<S: Site + Send + Sync, R: Threads + Wait + Clock + Sync>(
    rt: &R,
    alloc: Global,
    blank: Blank,
    config: Config,
    queue: Queue,
    kind: Kind,
) -> Result<Timing>
    requires name { blank.name ≡ S.name }
    requires parts { blank.parts ≡ S.parts }
    requires one_each { blank.parts ≡ config.cpus }
    requires granules { config ≡ S.config }
    requires queue { (queue.queue ≡ S.queue) × (queue.cpus ≡ config.cpus) }
{
    let (monitor, cpus, scribe) = started::<S>(alloc, blank, config, queue)?;
    drop(scribe);
    let cpus = work_before(rt, alloc, &monitor, kind, cpus)?;
    timed(rt, alloc, &monitor, kind, cpus)
}

// The CPUs do what isn't timed.
fn work_before<S: Site + Send + Sync, R: Threads + Wait + Sync>(
    rt: &R,
    alloc: Global,
    monitor: &Monitor<S>,
    kind: Kind,
    cpus: Vec<Cpu<S>>,
) -> Result<Vec<Cpu<S>>, AllocError>
    requires { All (λ cpu. ArePaired monitor.now cpu.token cpu.pass) cpus.items }
    ensures { IfOk result (λ left. All (λ cpu. ArePaired monitor.now cpu.token cpu.pass) left.items) }
{
    let jobs = first_jobs(alloc, kind)?;
    Ok(work_all(rt, alloc, monitor, None, jobs.as_slice(), cpus))
}

// How many calls the CPUs made, and in what time.
fn timed<S: Site + Send + Sync, R: Threads + Wait + Clock + Sync>(
    rt: &R,
    alloc: Global,
    monitor: &Monitor<S>,
    kind: Kind,
    cpus: Vec<Cpu<S>>,
) -> Result<Timing>
    requires { All (λ cpu. ArePaired monitor.now cpu.token cpu.pass) cpus.items }
{
    let made = calls_of(&cpus);
    let jobs = fixed_jobs(alloc, kind)?;
    let one = Mutex::new(());
    let lock = if kind.is_locked { Some(&one) } else { None };
    let start = Instant::now(rt)?;
    let cpus = work_all(rt, alloc, monitor, lock, jobs.as_slice(), cpus);
    let time = start.elapsed(rt)?;
    let count = calls_of(&cpus).wrapping_sub(made);
    Ok(Timing { count, time })
}

// How many calls all CPUs made.
fn calls_of<S: Site>(cpus: &[Cpu<S>]) -> u64 {
    let mut count: u64 = 0;
    for cpu in cpus {
        count = count.wrapping_add(u64::from(cpu.pass.next_number()));
    }
    count
}

// What isn't timed: CPU 0 makes the tables of all eight.
fn first_jobs(alloc: Global, kind: Kind) -> Result<Vec<Job>, AllocError> {
    let mut program = Vec::new(alloc);
    if kind.is_walking {
        for cpu in 0..8 {
            Pages::new(cpu, kind.is_shared).push_made(&mut program)?;
        }
    }
    let mut jobs = Vec::new(alloc);
    jobs.push(Job::new(program, false))?;
    Ok(jobs)
}

// Lives of realms for eight CPUs, all at one place or each at its own, or the page of each mapped again and again.
fn fixed_jobs(alloc: Global, kind: Kind) -> Result<Vec<Job>, AllocError> {
    let mut jobs = Vec::new(alloc);
    for cpu in 0..8 {
        let mut program = Vec::new(alloc);
        if kind.is_walking {
            Pages::new(cpu, kind.is_shared).push_rounds(&mut program, u64::from(COMMANDS / 3))?;
        } else {
            let place = if kind.is_shared { 0 } else { cpu };
            Life::new(place, place).push_next(&mut program, COMMANDS)?;
        }
        jobs.push(Job::new(program, false))?;
    }
    Ok(jobs)
}
