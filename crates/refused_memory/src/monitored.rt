//! Runs of a monitor with four granules, on one thread.

ghost use Rattle.std.specs.Prelude.{◌≡◌, ◌≤◌, ◌<◌};
ghost use Rattle.event_queue.specs.View.{CanDrain};
ghost use Rattle.monitor.specs.Cpus.{AreCpus};

use crate::fault::Fault;
use crate::judged::push_judged;
use history::History;
use memory_map::Config;
use monitor::{
    Certificate, CpuPass, CpuToken, Done, Monitor, Open, Queue, Refused, ScribePass, Site,
    fit_a_history,
};
use rmi_codec::read_command;
use std::alloc::{AllocError, Global};
use std::marker::Brand;
use std::sync::Wait;
use std::sync::ledger::Blank;
use text_writers::{push_decimal, write_certificate, write_history, write_reply};

/// What is done in a run.
#[derive(Clone, Copy)]
pub(crate) enum Step {
    /// This CPU executes the command that the text gives.
    Execute(u8, &'static str),
    /// What is queued is drained.
    Drain,
}

const DELEGATE: &str = "c4000151 1000";

pub(crate) const FULL_QUEUE: [Step; 2] = [Step::Execute(0, DELEGATE), Step::Execute(0, DELEGATE)];

pub(crate) const SAME_GRANULE: [Step; 2] = [Step::Execute(0, DELEGATE), Step::Execute(1, DELEGATE)];

pub(crate) const THREE_TICKETS: [Step; 3] = [
    Step::Execute(0, DELEGATE),
    Step::Execute(1, DELEGATE),
    Step::Execute(0, "c4000152 1000"),
];

pub(crate) const DRAINED_TICKETS: [Step; 4] = [
    Step::Execute(0, DELEGATE),
    Step::Drain,
    Step::Execute(1, DELEGATE),
    Step::Execute(0, "c4000152 1000"),
];

pub(crate) const DRAINED_QUEUE: [Step; 4] = [
    Step::Execute(0, DELEGATE),
    Step::Execute(1, "c4000151 2000"),
    Step::Drain,
    Step::Execute(1, "c4000151 2000"),
];

/// Takes the steps with so many CPUs and room for so many events, and appends a line for each answer, the texts of the closed
/// run and the line of the verdict on them.
pub(crate) fn monitor_steps<R: Wait>(
    rt: &R,
    alloc: Global,
    cpus: u64,
    capacity: usize,
    steps: &[Step],
    out: &mut Vec<u8>,
) -> Result<(), Fault>
    requires { (1 ≤ capacity) × (capacity ≤ 65536) }
{
    let Some(config) = Config::new(4, cpus) else {
        return Err(Fault::Wrong("no such machine"));
    };
    let blank = Blank::new(u64::from(config.cpus()));
    let queue = Queue::new(alloc, &config, capacity)?;
    push_run::<Brand, R>(rt, alloc, blank, config, queue, steps, out)
}

fn push_run<S: Site, R: Wait>(
    rt: &R,
    alloc: Global,
    blank: Blank,
    config: Config,
    queue: Queue,
    steps: &[Step],
    out: &mut Vec<u8>,
) -> Result<(), Fault>
    requires name { blank.name ≡ S.name }
    requires parts { blank.parts ≡ S.parts }
    requires one_each { blank.parts ≡ config.cpus }
    requires granules { config ≡ S.config }
    requires queue { (queue.queue ≡ S.queue) × (queue.cpus ≡ config.cpus) }
{
    let (monitor, mut tokens, mut passes, scribe) = Monitor::<S>::new(alloc, blank, config, queue)?;
    let mut drained = Drained {
        scribe,
        history: History::new(alloc, config),
    };
    let answers = take_steps(
        rt,
        alloc,
        &monitor,
        tokens.as_mut_slice(),
        passes.as_mut_slice(),
        &mut drained,
        steps,
    )?;
    out.extend_from_slice(answers.as_slice())?;
    push_closed(rt, alloc, monitor, tokens, passes, drained, out)
}

// The history so far, and the pass by which it is drained into.
#[derive(Drop)]
struct Drained {
    scribe: ScribePass,
    history: History,
}

// Takes the steps, and returns a line for each answer.
fn take_steps<S: Site, R: Wait>(
    rt: &R,
    alloc: Global,
    monitor: &Monitor<S>,
    tokens: &mut [CpuToken<S>],
    passes: &mut [CpuPass],
    drained: &mut Drained,
    steps: &[Step],
) -> Result<Vec<u8>, Fault>
    requires cpus { AreCpus monitor.now tokens.old passes.old }
    requires drain { CanDrain monitor.now.queue drained.old.scribe drained.old.history.recorded }
    ensures cpus { AreCpus monitor.now tokens.new passes.new }
    ensures drain { CanDrain monitor.now.queue drained.new.scribe drained.new.history.recorded }
    ensures config { drained.new.history.recorded.config ≡ drained.old.history.recorded.config }
{
    let mut answers = Vec::new(alloc);
    for step in steps {
        let lines = take_step(rt, alloc, monitor, tokens, passes, drained, *step)?;
        answers.extend_from_slice(lines.as_slice())?;
    }
    Ok(answers)
}

fn take_step<S: Site, R: Wait>(
    rt: &R,
    alloc: Global,
    monitor: &Monitor<S>,
    tokens: &mut [CpuToken<S>],
    passes: &mut [CpuPass],
    drained: &mut Drained,
    step: Step,
) -> Result<Vec<u8>, Fault>
    requires cpus { AreCpus monitor.now tokens.old passes.old }
    requires drain { CanDrain monitor.now.queue drained.old.scribe drained.old.history.recorded }
    ensures cpus { AreCpus monitor.now tokens.new passes.new }
    ensures drain { CanDrain monitor.now.queue drained.new.scribe drained.new.history.recorded }
    ensures config { drained.new.history.recorded.config ≡ drained.old.history.recorded.config }
{
    let Step::Execute(cpu, text) = step else {
        return drain(rt, alloc, monitor, drained);
    };
    execute(rt, alloc, monitor, tokens, passes, cpu, text)
}

// A CPU executes a command, and the same once more where memory is refused. Returns a line for each answer.
fn execute<S: Site, R: Wait>(
    rt: &R,
    alloc: Global,
    monitor: &Monitor<S>,
    tokens: &mut [CpuToken<S>],
    passes: &mut [CpuPass],
    cpu: u8,
    text: &str,
) -> Result<Vec<u8>, Fault>
    requires { AreCpus monitor.now tokens.old passes.old }
    ensures { AreCpus monitor.now tokens.new passes.new }
{
    let cpu = usize::from(cpu);
    if cpu >= usize::from(monitor.config().cpus()) {
        return Err(Fault::Wrong("no such CPU"));
    }
    let mut lines = Vec::new(alloc);
    let answer = ask(rt, alloc, monitor, tokens, passes, cpu, text)?;
    push_answer(&answer, &mut lines)?;
    if !matches!(answer, Err(Refused::NoMemory)) {
        return Ok(lines);
    }
    drop(answer);
    let answer = ask(rt, alloc, monitor, tokens, passes, cpu, text)?;
    push_answer(&answer, &mut lines)?;
    Ok(lines)
}

// What a CPU is answered.
fn ask<S: Site, R: Wait>(
    rt: &R,
    alloc: Global,
    monitor: &Monitor<S>,
    tokens: &mut [CpuToken<S>],
    passes: &mut [CpuPass],
    cpu: usize,
    text: &str,
) -> Result<Result<Done, Refused>, Fault>
    requires cpus { AreCpus monitor.now tokens.old passes.old }
    requires cpu { cpu < monitor.now.config.cpus }
    ensures { AreCpus monitor.now tokens.new passes.new }
{
    let command = read_command(text)?;
    let (token, pass) = (&mut tokens[cpu], &mut passes[cpu]);
    if pass.next_number() > 999_999 {
        return Err(Fault::Wrong("no number for a call"));
    }
    Ok(monitor.execute(rt, alloc, token, pass, &Open, command))
}

fn push_answer(answer: &Result<Done, Refused>, out: &mut Vec<u8>) -> Result<(), AllocError> {
    match answer {
        Ok(done) => push_done(done, out),
        Err(Refused::Unrecorded(done)) => {
            out.extend_from_slice(b"unrecorded ")?;
            push_done(done, out)
        }
        Err(Refused::Full) => out.extend_from_slice(b"full\n"),
        Err(Refused::NoMemory) => out.extend_from_slice(b"no memory\n"),
        Err(Refused::Stopped) => out.extend_from_slice(b"stopped\n"),
        Err(Refused::Disagrees) => out.extend_from_slice(b"disagrees\n"),
    }
}

// A ticket and a reply.
fn push_done(done: &Done, out: &mut Vec<u8>) -> Result<(), AllocError> {
    push_decimal(out, done.ticket as u64)?;
    out.push(b' ')?;
    write_reply(&done.reply, out)?;
    Ok(out.push(b'\n')?)
}

// Drains, and once more where memory is refused. Returns a line of how many events were taken.
fn drain<S: Site, R: Wait>(
    rt: &R,
    alloc: Global,
    monitor: &Monitor<S>,
    drained: &mut Drained,
) -> Result<Vec<u8>, Fault>
    requires { CanDrain monitor.now.queue drained.old.scribe drained.old.history.recorded }
    ensures drain { CanDrain monitor.now.queue drained.new.scribe drained.new.history.recorded }
    ensures config { drained.new.history.recorded.config ≡ drained.old.history.recorded.config }
{
    let taken = match monitor.drain(rt, &mut drained.scribe, &mut drained.history) {
        Ok(taken) => taken,
        Err(_) => monitor.drain(rt, &mut drained.scribe, &mut drained.history)?,
    };
    let mut line = Vec::new(alloc);
    line.extend_from_slice(b"drained ")?;
    push_decimal(&mut line, taken as u64)?;
    line.push(b'\n')?;
    Ok(line)
}

// Closes the run, and appends its texts and the verdict's line.
fn push_closed<S: Site, R: Wait>(
    rt: &R,
    alloc: Global,
    monitor: Monitor<S>,
    tokens: Vec<CpuToken<S>>,
    passes: Vec<CpuPass>,
    drained: Drained,
    out: &mut Vec<u8>,
) -> Result<(), Fault>
    requires cpus { AreCpus monitor tokens.items passes.items }
    requires drain { CanDrain monitor.queue drained.scribe drained.history.recorded }
    requires config { drained.history.recorded.config ≡ monitor.config }
{
    if !fit_a_history(&passes) {
        return Err(Fault::Wrong("more events than a history has"));
    }
    let Drained { scribe, history } = drained;
    let (recorded, order) = monitor.close(rt, alloc, tokens, passes, scribe, history)?;
    push_texts(alloc, &recorded, &order, out)
}

fn push_texts(
    alloc: Global,
    recorded: &History,
    order: &Certificate,
    out: &mut Vec<u8>,
) -> Result<(), Fault> {
    let mut history = Vec::new(alloc);
    write_history(recorded, &mut history)?;
    let mut certificate = Vec::new(alloc);
    write_certificate(order, &mut certificate)?;
    push_judged(alloc, history.as_slice(), certificate.as_slice(), out)
}
