//! Two CPUs that meet between their commands, on one thread and on threads of their own.

ghost use Rattle.std.specs.Prelude.{◌≡◌, ◌<◌, [], ◌∷◌, IfOk, IfSome};
ghost use Rattle.event_queue.specs.View.{count_recorded};
ghost use Rattle.monitor.specs.Cpus.{AreCpus};
ghost use Rattle.monitor.specs.Executed.{ArePaired};

use crate::cpu::{Answer, CAPACITY, Cpu, two_cpus};
use checker::{check, verdict_text};
use history::{History, MOST_LINES};
use memory_map::Config;
use monitor::{
    Certificate, CpuPass, CpuToken, Monitor, Open, Queue, ScribePass, Site, fit_a_history, meet,
};
use std::alloc::{AllocError, Global};
use std::marker::Brand;
use std::sync::Wait;
use std::sync::ledger::Blank;
use std::test::Fail;
use std::thread;
use std::thread::Threads;
use text_writers::{push_decimal, write_certificate, write_history, write_reply};

/// A CPU is asked on a thread of its own, which has ended when this returns.
fn ask_apart<S: Site + Send + Sync, R: Threads + Wait + Sync>(
    rt: &R,
    alloc: Global,
    monitor: &Monitor<S>,
    cpu: Cpu<S>,
    text: &str,
) -> Option<(Cpu<S>, Answer)>
    requires { ArePaired monitor.now cpu.token cpu.pass }
    ensures pair { IfSome result (λ asked. ArePaired monitor.now asked.0.token asked.0.pass) }
    ensures cpu { IfSome result (λ asked. asked.0.token.cpu ≡ cpu.token.cpu) }
{
    thread::join(
        rt,
        || -> Option<(Cpu<S>, Answer)>
            requires { ArePaired monitor.now cpu.token cpu.pass }
            ensures pair { IfSome result (λ asked. ArePaired monitor.entry.now asked.0.token asked.0.pass) }
            ensures cpu { IfSome result (λ asked. asked.0.token.cpu ≡ cpu.token.cpu) }
        { cpu.ask(rt, alloc, monitor, &Open, text) },
        || (),
    )
    .0
}

/// Appends a line of what a CPU was answered: a ticket and a reply.
fn write_answer(answer: &Answer, out: &mut Vec<u8>) -> Result<(), Fail> {
    let Ok(done) = answer else {
        return Err("an answer".into());
    };
    push_decimal(out, done.ticket as u64)?;
    out.extend_from_slice(b" ")?;
    write_reply(&done.reply, out)?;
    Ok(out.extend_from_slice(b"\n")?)
}

/// A CPU is asked, and the answer's line is appended.
fn tell<S: Site + Send + Sync, R: Threads + Wait + Sync>(
    rt: &R,
    alloc: Global,
    monitor: &Monitor<S>,
    cpu: Cpu<S>,
    text: &str,
    is_apart: bool,
    out: &mut Vec<u8>,
) -> Result<Cpu<S>, Fail>
    requires { ArePaired monitor.now cpu.token cpu.pass }
    ensures pair { IfOk result (λ told. ArePaired monitor.now told.token told.pass) }
    ensures cpu { IfOk result (λ told. told.token.cpu ≡ cpu.token.cpu) }
{
    let asked = if is_apart {
        ask_apart(rt, alloc, monitor, cpu, text)
    } else {
        cpu.ask(rt, alloc, monitor, &Open, text)
    };
    let Some((cpu, answer)) = asked else {
        return Err("a command".into());
    };
    write_answer(&answer, out)?;
    Ok(cpu)
}

/// Appends a line of how many entries each CPU has seen.
fn write_seen<S: Site>(
    first: &Cpu<S>,
    second: &Cpu<S>,
    out: &mut Vec<u8>,
) -> Result<(), AllocError> {
    push_decimal(out, first.token.seen_len())?;
    out.extend_from_slice(b" ")?;
    push_decimal(out, second.token.seen_len())?;
    out.extend_from_slice(b"\n")
}

/// Two CPUs meet. Appends a line of what they have seen before, and one of what they have seen then.
fn meet_both<S: Site>(
    _monitor: &Monitor<S>,
    first: &mut Cpu<S>,
    second: &mut Cpu<S>,
    out: &mut Vec<u8>,
) -> Result<(), AllocError>
    requires first { ArePaired _monitor.now first.old.token first.old.pass }
    requires second { ArePaired _monitor.now second.old.token second.old.pass }
    ensures first { ArePaired _monitor.now first.new.token first.new.pass × (first.new.token.cpu ≡ first.old.token.cpu) }
    ensures second { ArePaired _monitor.now second.new.token second.new.pass × (second.new.token.cpu ≡ second.old.token.cpu) }
{
    write_seen(first, second, out)?;
    meet(&mut first.token, &mut second.token);
    write_seen(first, second, out)
}

/// CPU 0 delegates a granule, CPU 1 takes it back, and CPU 0 delegates another. They meet after each of the first two.
fn tell_in_turn<S: Site + Send + Sync, R: Threads + Wait + Sync>(
    rt: &R,
    alloc: Global,
    monitor: &Monitor<S>,
    first: Cpu<S>,
    second: Cpu<S>,
    is_apart: bool,
    out: &mut Vec<u8>,
) -> Result<(Cpu<S>, Cpu<S>), Fail>
    requires first { ArePaired monitor.now first.token first.pass }
    requires second { ArePaired monitor.now second.token second.pass }
    ensures first { IfOk result (λ told. ArePaired monitor.now told.0.token told.0.pass × (told.0.token.cpu ≡ first.token.cpu)) }
    ensures second { IfOk result (λ told. ArePaired monitor.now told.1.token told.1.pass × (told.1.token.cpu ≡ second.token.cpu)) }
{
    let mut second = second;
    let mut first = tell(rt, alloc, monitor, first, "c4000151 1000", is_apart, out)?;
    meet_both(monitor, &mut first, &mut second, out)?;
    let mut second = tell(rt, alloc, monitor, second, "c4000152 1000", is_apart, out)?;
    meet_both(monitor, &mut first, &mut second, out)?;
    let first = tell(rt, alloc, monitor, first, "c4000151 2000", is_apart, out)?;
    Ok((first, second))
}

fn both_tokens<S: Site>(
    alloc: Global,
    first: CpuToken<S>,
    second: CpuToken<S>,
) -> Result<Vec<CpuToken<S>>, AllocError>
    ensures { IfOk result (λ list. list.items ≡ first ∷ second ∷ []) }
{
    Ok(vec![in alloc; first, second]?)
}

/// Both passes, where a history has room for what they have recorded.
fn both_passes(alloc: Global, first: CpuPass, second: CpuPass) -> Result<Vec<CpuPass>, Fail>
    ensures items { IfOk result (λ list. list.items ≡ first ∷ second ∷ []) }
    ensures room { IfOk result (λ list. count_recorded list.items < MOST_LINES) }
{
    let passes = vec![in alloc; first, second]?;
    if !fit_a_history(&passes) {
        return Err("a history with room for the rest".into());
    }
    Ok(passes)
}

/// The tokens and the passes of two CPUs, where a history has room for what they have recorded.
fn parted<S: Site>(
    alloc: Global,
    _monitor: &Monitor<S>,
    first: Cpu<S>,
    second: Cpu<S>,
) -> Result<(Vec<CpuToken<S>>, Vec<CpuPass>), Fail>
    requires two { _monitor.now.config.cpus ≡ 2 }
    requires first { ArePaired _monitor.now first.token first.pass × (first.token.cpu ≡ 0) }
    requires second { ArePaired _monitor.now second.token second.pass × (second.token.cpu ≡ 1) }
    ensures cpus { IfOk result (λ parts. AreCpus _monitor.now parts.0.items parts.1.items) }
    ensures room { IfOk result (λ parts. count_recorded parts.1.items < MOST_LINES) }
{
    let tokens = both_tokens(alloc, first.token, second.token)?;
    let passes = both_passes(alloc, first.pass, second.pass)?;
    Ok((tokens, passes))
}

/// CPU 0 and CPU 1 are told that. Returns their tokens and passes.
fn tell_both<S: Site + Send + Sync, R: Threads + Wait + Sync>(
    rt: &R,
    alloc: Global,
    monitor: &Monitor<S>,
    first: Cpu<S>,
    second: Cpu<S>,
    is_apart: bool,
    out: &mut Vec<u8>,
) -> Result<(Vec<CpuToken<S>>, Vec<CpuPass>), Fail>
    requires two { monitor.now.config.cpus ≡ 2 }
    requires first { ArePaired monitor.now first.token first.pass }
    requires second { ArePaired monitor.now second.token second.pass }
    ensures cpus { IfOk result (λ parts. AreCpus monitor.now parts.0.items parts.1.items) }
    ensures room { IfOk result (λ parts. count_recorded parts.1.items < MOST_LINES) }
{
    if first.token.cpu() != 0 || second.token.cpu() != 1 {
        return Err("CPU 0 and CPU 1".into());
    }
    let (first, second) = tell_in_turn(rt, alloc, monitor, first, second, is_apart, out)?;
    parted(alloc, monitor, first, second)
}

/// Appends the certificate and the verdict's line.
fn push_judged(
    alloc: Global,
    recorded: &History,
    order: &Certificate,
    out: &mut Vec<u8>,
) -> Result<(), AllocError> {
    let mut lines = Vec::new(alloc);
    write_certificate(order, &mut lines)?;
    out.extend_from_slice(lines.as_slice())?;
    let mut text = Vec::new(alloc);
    write_history(recorded, &mut text)?;
    let verdict = check(alloc, text.as_slice(), lines.as_slice())?;
    verdict_text(&verdict, out)
}

/// Closes the run, of which nothing has been drained, and appends the certificate and the verdict's line.
fn push_closed<S: Site, R: Wait>(
    rt: &R,
    alloc: Global,
    monitor: Monitor<S>,
    tokens: Vec<CpuToken<S>>,
    passes: Vec<CpuPass>,
    scribe: ScribePass,
    out: &mut Vec<u8>,
) -> Result<(), Fail>
    requires cpus { AreCpus monitor tokens.items passes.items }
    requires scribe { scribe ≡ record { queue = monitor.queue; cpus = monitor.config.cpus; events = [] } }
    requires room { count_recorded passes.items < MOST_LINES }
{
    let history = History::new(alloc, monitor.config());
    let (recorded, order) = monitor.close(rt, alloc, tokens, passes, scribe, history)?;
    Ok(push_judged(alloc, &recorded, &order, out)?)
}

/// Appends what two CPUs are told and have seen, and then the certificate and the verdict's line.
fn run_two<S: Site + Send + Sync, R: Threads + Wait + Sync>(
    rt: &R,
    alloc: Global,
    blank: Blank,
    config: Config,
    queue: Queue,
    is_apart: bool,
    out: &mut Vec<u8>,
) -> Result<(), Fail>
    requires name { blank.name ≡ S.name }
    requires parts { blank.parts ≡ S.parts }
    requires one_each { blank.parts ≡ config.cpus }
    requires granules { config ≡ S.config }
    requires queue { (queue.queue ≡ S.queue) × (queue.cpus ≡ config.cpus) }
    requires two { config.cpus ≡ 2 }
{
    let (monitor, first, second, scribe) = two_cpus::<S>(alloc, blank, config, queue)?;
    let (tokens, passes) = tell_both(rt, alloc, &monitor, first, second, is_apart, out)?;
    push_closed(rt, alloc, monitor, tokens, passes, scribe, out)
}

/// What the run of two CPUs appends.
const TOLD: &str = "\
0 ok
1 0
1 1
1 ok
1 2
2 2
2 ok
k 0 0
k 1 0
k 0 1
yes 3
";

/// Whether it appends that.
fn meets<R: Threads + Wait + Sync>(rt: &R, alloc: Global, is_apart: bool) -> Result<bool, Fail> {
    let config = Config::new(4, 2).ok_or("a machine of this size")?;
    let queue = Queue::new(alloc, &config, CAPACITY)?;
    let mut out = Vec::new(alloc);
    run_two::<Brand, R>(rt, alloc, Blank::new(2), config, queue, is_apart, &mut out)?;
    Ok(out.as_slice() == TOLD.as_bytes())
}

#[test]
fn meets_on_one_thread(rt: HostRuntime) -> Result<(), Fail> {
    assert!(rt; meets(&rt, rt.alloc(), false)?);
    Ok(())
}

#[test]
fn meets_across_threads(rt: HostRuntime) -> Result<(), Fail> {
    assert!(rt; meets(&rt, rt.alloc(), true)?);
    Ok(())
}
