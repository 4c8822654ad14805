//! A monitor and its CPUs, before a run.

ghost use Rattle.std.specs.Prelude.{◌≡◌, ◌≤◌, [], All, IfOk};
ghost use Rattle.monitor.specs.Executed.{ArePaired};

use crate::monitors::cpu::Cpu;
use crate::monitors::cpus::paired;
use anyhow::Result;
use memory_map::Config;
use monitor::{Monitor, Queue, ScribePass, Site};
use std::alloc::Global;
use std::sync::ledger::Blank;

/// A monitor of this size, its CPUs, and the pass of the scribe, which has drained nothing yet.
pub(crate) fn started<S: Site>(
    alloc: Global,
    blank: Blank,
    config: Config,
    queue: Queue,
) -> Result<(Monitor<S>, Vec<Cpu<S>>, ScribePass)>
    requires name { blank.name ≡ S.name }
    requires parts { blank.parts ≡ S.parts }
    requires one_each { blank.parts ≡ config.cpus }
    requires granules { config ≡ S.config }
    requires queue { (queue.queue ≡ S.queue) × (queue.cpus ≡ config.cpus) }
    ensures config { IfOk result (λ made. made.0.config ≡ config) }
    ensures cpus { IfOk result (λ made. All (λ cpu. ArePaired made.0 cpu.token cpu.pass) made.1.items) }
    ensures scribe { IfOk result (λ made. made.2 ≡ record { queue = made.0.queue; cpus = config.cpus; events = [] }) }
{
    let (monitor, tokens, passes, scribe) = Monitor::<S>::new(alloc, blank, config, queue)?;
    let cpus = paired(alloc, &monitor, tokens, passes)?;
    Ok((monitor, cpus, scribe))
}
