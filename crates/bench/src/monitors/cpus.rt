//! All CPUs of a monitor, on threads side by side.

ghost use Rattle.std.specs.Prelude.{All, IfOk};
ghost use Rattle.monitor.specs.Cpus.{AreCpus, ArePairs};
ghost use Rattle.monitor.specs.Executed.{ArePaired};

use crate::monitors::cpu::Cpu;
use crate::monitors::job::Job;
use anyhow::{Context, Result, bail};
use monitor::{CpuPass, CpuToken, Monitor, Site};
use std::alloc::Global;
use std::sync::{Mutex, Wait};
use std::thread;
use std::thread::Threads;

/// The CPUs of the tokens and passes. The last comes first.
pub(crate) fn paired<S: Site>(
    alloc: Global,
    monitor: &Monitor<S>,
    mut tokens: Vec<CpuToken<S>>,
    mut passes: Vec<CpuPass>,
) -> Result<Vec<Cpu<S>>>
    requires { ArePairs monitor.now tokens.items passes.items }
    ensures { IfOk result (λ cpus. All (λ cpu. ArePaired monitor.now cpu.token cpu.pass) cpus.items) }
{
    let mut cpus = Vec::new(alloc);
    for _cpu in 0..monitor.config().cpus() {
        let token = tokens.pop().context("a token is missing")?;
        let pass = passes.pop().context("a pass is missing")?;
        cpus.push(Cpu { token, pass })?;
    }
    Ok(cpus)
}

/// Each CPU executes its job on a thread. Returns when all have ended.
pub(crate) fn work_all<S: Site + Send + Sync, R: Threads + Wait + Sync>(
    rt: &R,
    alloc: Global,
    monitor: &Monitor<S>,
    lock: Option<&Mutex<()>>,
    jobs: &[Job],
    mut cpus: Vec<Cpu<S>>,
) -> Vec<Cpu<S>>
    requires { All (λ cpu. ArePaired monitor.now cpu.token cpu.pass) cpus.items }
    ensures { All (λ cpu. ArePaired monitor.now cpu.token cpu.pass) result.items }
{
    let count = cpus.len();
    if count > 0 {
        thread::for_each_mut(
            rt,
            cpus.as_mut_slice(),
            count,
            &|_, cpu| work_one(rt, alloc, monitor, lock, jobs, cpu),
        );
    }
    cpus
}

// The CPU executes its job, if it has one.
fn work_one<S: Site, R: Wait>(
    rt: &R,
    alloc: Global,
    monitor: &Monitor<S>,
    lock: Option<&Mutex<()>>,
    jobs: &[Job],
    cpu: &mut Cpu<S>,
)
    requires { ArePaired monitor.now cpu.old.token cpu.old.pass }
    ensures { ArePaired monitor.now cpu.new.token cpu.new.pass }
{
    if let Some(job) = jobs.get(usize::from(cpu.token.cpu())) {
        cpu.work(rt, alloc, monitor, lock, job);
    }
}

/// The tokens and passes of the CPUs, of which the last comes first, in the order of their numbers.
pub(crate) fn parted<S: Site>(
    alloc: Global,
    monitor: &Monitor<S>,
    mut cpus: Vec<Cpu<S>>,
) -> Result<(Vec<CpuToken<S>>, Vec<CpuPass>)>
    requires { All (λ cpu. ArePaired monitor.now cpu.token cpu.pass) cpus.items }
    ensures { IfOk result (λ parts. AreCpus monitor.now parts.0.items parts.1.items) }
{
    let mut tokens = Vec::new(alloc);
    let mut passes = Vec::new(alloc);
    for number in 0..monitor.config().cpus() {
        let cpu = cpus.pop().context("a CPU is missing")?;
        let Cpu { token, pass } = cpu;
        if token.cpu() != number {
            bail!("the CPUs aren't in their order");
        }
        tokens.push(token)?;
        passes.push(pass)?;
    }
    Ok((tokens, passes))
}
