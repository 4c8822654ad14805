//! A CPU of a monitor, and the two CPUs of a run.

ghost use Rattle.std.specs.Prelude.{◌≡◌, [], IfOk, IfSome};
ghost use Rattle.monitor.specs.Cpus.{ArePairs};
ghost use Rattle.monitor.specs.Executed.{ArePaired};

use memory_map::Config;
use monitor::{CpuPass, CpuToken, Done, Gate, Monitor, Open, Queue, Refused, ScribePass, Site};
use rmi_codec::read_command;
use std::alloc::Global;
use std::sync::Wait;
use std::sync::ledger::Blank;
use std::test::Fail;

pub type Answer = Result<Done, Refused>;

/// How many events the queue of a run holds, more than any run has.
pub const CAPACITY: usize = 64;

/// A CPU's token and pass.
#[derive(Drop)]
pub struct Cpu<S: Site> {
    pub token: CpuToken<S>,
    pub pass: CpuPass,
}

impl<S: Site> Cpu<S> {
    /// The CPU after the commands of the script, a line each, or nothing where one isn't executed.
    pub fn prepare<R: Wait>(
        mut self,
        rt: &R,
        alloc: Global,
        monitor: &Monitor<S>,
        script: &str,
    ) -> Option<Cpu<S>>
        requires { ArePaired monitor.now self.token self.pass }
        ensures { IfSome result (λ cpu. ArePaired monitor.now cpu.token cpu.pass) }
    {
        for text in script.lines() {
            let (cpu, answer) = self.ask(rt, alloc, monitor, &Open, text)?;
            answer.ok()?;
            self = cpu;
        }
        Some(self)
    }

    /// The CPU after the command of a text, and what it is answered, or nothing where the text isn't a command's.
    pub fn ask<R: Wait, G: Gate>(
        mut self,
        rt: &R,
        alloc: Global,
        monitor: &Monitor<S>,
        gate: &G,
        text: &str,
    ) -> Option<(Cpu<S>, Answer)>
        requires { ArePaired monitor.now self.token self.pass }
        ensures pair { IfSome result (λ asked. ArePaired monitor.now asked.0.token asked.0.pass) }
        ensures cpu { IfSome result (λ asked. asked.0.token.cpu ≡ self.token.cpu) }
    {
        if self.pass.next_number() > 999_999 {
            return None;
        }
        let command = read_command(text).ok()?;
        let answer = monitor.execute(rt, alloc, &mut self.token, &mut self.pass, gate, command);
        Some((self, answer))
    }
}

// The CPU of the last token and the last pass.
fn last_cpu<S: Site>(
    monitor: &Monitor<S>,
    tokens: &mut Vec<CpuToken<S>>,
    passes: &mut Vec<CpuPass>,
) -> Result<Cpu<S>, Fail>
    requires { ArePairs monitor.now tokens.old.items passes.old.items }
    ensures { IfOk result (λ cpu. ArePaired monitor.now cpu.token cpu.pass × ArePairs monitor.now tokens.new.items passes.new.items) }
{
    let pass = passes.pop().ok_or("a pass")?;
    let token = tokens.pop().ok_or("a token")?;
    Ok(Cpu { token, pass })
}

// The CPU of the last token but one and the last pass but one, and that of the last.
fn last_two<S: Site>(
    monitor: &Monitor<S>,
    mut tokens: Vec<CpuToken<S>>,
    mut passes: Vec<CpuPass>,
) -> Result<(Cpu<S>, Cpu<S>), Fail>
    requires { ArePairs monitor.now tokens.items passes.items }
    ensures first { IfOk result (λ cpus. ArePaired monitor.now cpus.0.token cpus.0.pass) }
    ensures second { IfOk result (λ cpus. ArePaired monitor.now cpus.1.token cpus.1.pass) }
{
    let second = last_cpu(monitor, &mut tokens, &mut passes)?;
    let first = last_cpu(monitor, &mut tokens, &mut passes)?;
    Ok((first, second))
}

/// A monitor, its last CPU but one and its last, and the pass of the scribe, which has drained nothing yet.
pub fn two_cpus<S: Site>(
    alloc: Global,
    blank: Blank,
    config: Config,
    queue: Queue,
) -> Result<(Monitor<S>, Cpu<S>, Cpu<S>, ScribePass), Fail>
    requires name { blank.name ≡ S.name }
    requires parts { blank.parts ≡ S.parts }
    requires one_each { blank.parts ≡ config.cpus }
    requires granules { config ≡ S.config }
    requires queue { (queue.queue ≡ S.queue) × (queue.cpus ≡ config.cpus) }
    ensures config { IfOk result (λ made. made.0.config ≡ config) }
    ensures first { IfOk result (λ made. ArePaired made.0 made.1.token made.1.pass) }
    ensures second { IfOk result (λ made. ArePaired made.0 made.2.token made.2.pass) }
    ensures scribe { IfOk result (λ made. made.3 ≡ record { queue = made.0.queue; cpus = config.cpus; events = [] }) }
{
    let (monitor, tokens, passes, scribe) = Monitor::<S>::new(alloc, blank, config, queue)?;
    let (first, second) = last_two(&monitor, tokens, passes)?;
    Ok((monitor, first, second, scribe))
}
