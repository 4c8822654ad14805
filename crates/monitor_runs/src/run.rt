//! A run on threads, from a scenario to texts.

ghost use Rattle.std.specs.Prelude.{◌≡◌, ◌++◌, ℕ, List, IfOk, IfErr, OnErr};
ghost use Rattle.rmm_spec.specs.Scenario.{IsScenario};
ghost use Rattle.world_runs.specs.declared.fault.RunFault.TheVariants.{Disagrees};
ghost use Rattle.monitor_runs.specs.ThreadRun.{IsThreadRun, IsPrinted, MayDisagree};

use crate::working::{Ended, Waiting, work_all};
use certificate::Certificate;
use history::History;
use memory_map::Config;
use monitor::{CloseFault, Monitor, Queue, Site};
use scenario::{Scenario, copied_programs};
use std::alloc::Global;
use std::marker::Brand;
use std::sync::Wait;
use std::sync::ledger::Blank;
use std::thread::Threads;
use world_runs::{RunFault, Verdict, print_run};

/// Runs a monitor: each CPU of the scenario executes its program on a thread of its own, while this thread drains. Appends the
/// history, an empty line, the journal as a certificate, an empty line, and the line of the verdict on the two. Where the run
/// breaks off, nothing is appended. The scenario's turns and their limit aren't used.
pub fn threads_text<R: Threads + Wait + Sync>(
    rt: &R,
    alloc: Global,
    scenario: &Scenario,
    out: &mut Vec<u8>,
) -> Result<Verdict, RunFault>
    ensures printed { IfOk result (λ judged. (text : List ℕ) × (out.new.items ≡ out.old.items ++ text)
        × IsPrinted scenario.now judged text) }
    ensures disagrees { IfErr result (λ fault. fault ≡ Disagrees → MayDisagree scenario.now) }
    ensures err { OnErr result (out.new.items ≡ out.old.items) }
{
    let config = *scenario.config();
    let blank = Blank::new(u64::from(config.cpus()));
    let queue = Queue::new(alloc, &config, scenario.queue())?;
    let (history, certificate) = recorded::<Brand, R>(rt, alloc, blank, queue, config, scenario)?;
    Ok(print_run(alloc, &history, &certificate, out)?)
}

// What the CPUs recorded and committed.
fn recorded<S: Site + Send + Sync, R: Threads + Wait + Sync>(
    rt: &R,
    alloc: Global,
    blank: Blank,
    queue: Queue,
    config: Config,
    scenario: &Scenario,
) -> Result<(History, Certificate), RunFault>
    requires name { blank.name ≡ S.name }
    requires parts { blank.parts ≡ S.parts }
    requires one_each { blank.parts ≡ config.cpus }
    requires site { config ≡ S.config }
    requires queue { (queue.queue ≡ S.queue) × (queue.cpus ≡ config.cpus) }
    requires capacity { queue.capacity ≡ scenario.now.queue }
    requires config { config ≡ scenario.now.config }
    requires limits { IsScenario scenario.now }
    ensures ran { IfOk result (λ ran. IsThreadRun scenario.now ran.0.recorded ran.1.lines) }
    ensures disagrees { IfErr result (λ fault. fault ≡ Disagrees → MayDisagree scenario.now) }
{
    let programs = copied_programs(alloc, scenario.programs())?;
    let (monitor, tokens, passes, scribe) = Monitor::<S>::new(alloc, blank, config, queue)?;
    let history = History::new(alloc, config);
    let waiting = Waiting {
        tokens,
        passes,
        programs,
    };
    let ended = work_all(rt, alloc, &monitor, scenario, waiting, scribe, history)?;
    let Ended {
        tokens,
        passes,
        scribe,
        history,
    } = ended;
    match monitor.close(rt, alloc, tokens, passes, scribe, history) {
        Ok(closed) => Ok(closed),
        Err(CloseFault::NoMemory) => Err(RunFault::NoMemory),
        Err(CloseFault::Disagrees(_)) => Err(RunFault::Disagrees),
    }
}
