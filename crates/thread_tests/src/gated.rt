//! Two CPUs on threads of their own, one of which a gate holds up.

ghost use Rattle.std.specs.Prelude.{◌≡◌};
ghost use Rattle.event_queue.specs.View.{CanDrain};
ghost use Rattle.monitor.specs.Executed.{ArePaired};

use crate::cpu::{Answer, CAPACITY, Cpu, two_cpus};
use arrayvec::ArrayVec;
use memory_map::Config;
use monitor::{Gate, History, Monitor, Queue, ScribePass, Site};
use rmi_codec::read_reply;
use rmm_spec::{Command, Reply};
use std::alloc::{AllocError, Global};
use std::marker::Brand;
use std::sync::Wait;
use std::sync::atomic::{AtomicBool, Ordering};
use std::sync::ledger::Blank;
use std::test::Fail;
use std::thread;
use std::thread::Threads;

/// How often a thread looks at most.
const LOOKS: u64 = 1_000_000_000;

/// How often a thread looks at what has to stay as it is.
const STEADY_LOOKS: u64 = 1_000_000;

/// Looks again and again, until the flag is set or it has looked often enough. Returns whether it was set.
fn wait_for(flag: &AtomicBool) -> bool {
    for _look in 0..LOOKS {
        if flag.load(Ordering::SeqCst) {
            return true;
        }
        thread::yield_now();
    }
    false
}

/// A gate that holds CPU 0 up until it is opened. It notes who came.
#[derive(Drop)]
struct Turnstile {
    first_came: AtomicBool,
    second_came: AtomicBool,
    is_open: AtomicBool,
    ran_out: AtomicBool,
}

impl Turnstile {
    fn new() -> Turnstile {
        Turnstile {
            first_came: AtomicBool::new(false),
            second_came: AtomicBool::new(false),
            is_open: AtomicBool::new(false),
            ran_out: AtomicBool::new(false),
        }
    }
}

impl Gate for Turnstile {
    fn pass(&self, cpu: u8, _command: &Command) {
        if cpu != 0 {
            self.second_came.store(true, Ordering::SeqCst);
            return;
        }
        self.first_came.store(true, Ordering::SeqCst);
        if !wait_for(&self.is_open) {
            self.ran_out.store(true, Ordering::SeqCst);
        }
    }
}

/// Two calls, of which CPU 0 makes one and is held up in it while CPU 1 makes the other.
#[derive(Clone, Copy)]
enum Pair {
    OneGranule,
    TwoGranules,
    TwoPages,
    PageAndRead,
}

/// A realm with two tables of pages, for 0 and for 200000.
const TWO_SUBTREES: &str =
    "c4000151 1000\nc4000151 2000\nc4000151 3000\nc4000151 4000\nc4000151 5000\nc4000151 6000\n\
    c4000151 7000\nc4000158 1000 2000 27 1 1 0\nc400015d 1000 3000 0 2\nc400015d 1000 4000 0 3\nc400015d 1000 5000 200000 3\n";

impl Pair {
    /// How many granules the machine has.
    fn granules(self) -> u64 {
        match self {
            Pair::OneGranule | Pair::TwoGranules => 4,
            Pair::TwoPages | Pair::PageAndRead => 16,
        }
    }

    /// What CPU 0 executes before.
    fn script(self) -> &'static str {
        match self {
            Pair::OneGranule | Pair::TwoGranules => "",
            Pair::TwoPages | Pair::PageAndRead => TWO_SUBTREES,
        }
    }

    fn first(self) -> &'static str {
        match self {
            Pair::OneGranule | Pair::TwoGranules => "c4000151 1000",
            Pair::TwoPages | Pair::PageAndRead => "c4000154 1000 6000 0",
        }
    }

    fn second(self) -> &'static str {
        match self {
            Pair::OneGranule => "c4000151 1000",
            Pair::TwoGranules => "c4000151 2000",
            Pair::TwoPages => "c4000154 1000 7000 200000",
            Pair::PageAndRead => "c4000161 1000 200000 3",
        }
    }
}

/// A CPU is asked once CPU 0 is held up.
fn ask_second<S: Site, R: Wait>(
    rt: &R,
    alloc: Global,
    monitor: &Monitor<S>,
    gate: &Turnstile,
    cpu: Cpu<S>,
    text: &str,
    answered: &AtomicBool,
) -> Option<Answer>
    requires { ArePaired monitor.now cpu.token cpu.pass }
{
    if !wait_for(&gate.first_came) {
        return None;
    }
    let answer = cpu.ask(rt, alloc, monitor, gate, text);
    answered.store(true, Ordering::SeqCst);
    Some(answer?.1)
}

/// CPU 0 and CPU 1.
#[derive(Drop)]
struct Cpus<S: Site> {
    first: Cpu<S>,
    second: Cpu<S>,
}

/// Both CPUs on threads of their own: CPU 1 is asked once CPU 0 is held up.
fn ask_both<S: Site + Send + Sync, R: Threads + Wait + Sync>(
    rt: &R,
    alloc: Global,
    monitor: &Monitor<S>,
    gate: &Turnstile,
    cpus: Cpus<S>,
    pair: Pair,
    answered: &AtomicBool,
) -> (Option<Answer>, Option<Answer>)
    requires { ArePaired monitor.now cpus.first.token cpus.first.pass × ArePaired monitor.now cpus.second.token cpus.second.pass }
{
    let Cpus { first, second } = cpus;
    thread::join(
        rt,
        || -> Option<Answer>
            requires { ArePaired monitor.now first.token first.pass }
        { Some(first.ask(rt, alloc, monitor, gate, pair.first())?.1) },
        || -> Option<Answer>
            requires { ArePaired monitor.now second.token second.pass }
        { ask_second(rt, alloc, monitor, gate, second, pair.second(), answered) },
    )
}

/// CPU 0 executes the script, then calls and is held up until CPU 1 has been answered, which calls meanwhile. Whether CPU 0 is
/// answered `ok` and CPU 1 this, and CPU 0 didn't give up waiting.
fn ask_on<S: Site + Send + Sync, R: Threads + Wait + Sync>(
    rt: &R,
    alloc: Global,
    monitor: &Monitor<S>,
    cpus: Cpus<S>,
    pair: Pair,
    reply: &Reply,
) -> Result<bool, Fail>
    requires { ArePaired monitor.now cpus.first.token cpus.first.pass × ArePaired monitor.now cpus.second.token cpus.second.pass }
{
    let Cpus { first, second } = cpus;
    let first = first
        .prepare(rt, alloc, monitor, pair.script())
        .ok_or("a script")?;
    let gate = Turnstile::new();
    let (first, second) = ask_both(
        rt,
        alloc,
        monitor,
        &gate,
        Cpus { first, second },
        pair,
        &gate.is_open,
    );
    Ok(are_answered(&first, &second, reply) && !gate.ran_out.load(Ordering::SeqCst))
}

/// Whether that is so on a new monitor.
fn ask_apart<S: Site + Send + Sync, R: Threads + Wait + Sync>(
    rt: &R,
    alloc: Global,
    blank: Blank,
    config: Config,
    queue: Queue,
    pair: Pair,
    reply: &Reply,
) -> Result<bool, Fail>
    requires name { blank.name ≡ S.name }
    requires parts { blank.parts ≡ S.parts }
    requires one_each { blank.parts ≡ config.cpus }
    requires granules { config ≡ S.config }
    requires queue { (queue.queue ≡ S.queue) × (queue.cpus ≡ config.cpus) }
{
    let (monitor, first, second, _) = two_cpus::<S>(alloc, blank, config, queue)?;
    ask_on(rt, alloc, &monitor, Cpus { first, second }, pair, reply)
}

fn ok() -> Reply {
    Reply::Ok(ArrayVec::new())
}

/// Whether the command was executed to its end, with this reply.
fn is_answered(answer: &Option<Answer>, reply: &Reply) -> bool {
    match answer {
        Some(Ok(done)) => done.reply == *reply,
        _ => false,
    }
}

/// Whether CPU 0 was answered `ok` and CPU 1 this.
fn are_answered(first: &Option<Answer>, second: &Option<Answer>, reply: &Reply) -> bool {
    is_answered(first, &ok()) && is_answered(second, reply)
}

/// Whether CPU 0 is answered `ok` and CPU 1 this, which is asked while CPU 0 is held up.
fn passes_by<R: Threads + Wait + Sync>(
    rt: &R,
    alloc: Global,
    pair: Pair,
    reply: &Reply,
) -> Result<bool, Fail> {
    let config = Config::new(pair.granules(), 2).ok_or("a machine of this size")?;
    let queue = Queue::new(alloc, &config, CAPACITY)?;
    ask_apart::<Brand, R>(rt, alloc, Blank::new(2), config, queue, pair, reply)
}

#[test]
fn two_commands_under_way(rt: HostRuntime) -> Result<(), Fail> {
    assert!(rt; passes_by(&rt, rt.alloc(), Pair::TwoGranules, &ok())?);
    Ok(())
}

// While CPU 0 maps a page, CPU 1 maps one below the neighbouring table, or reads an entry there.
#[test]
fn walks_under_way_in_two_subtrees(rt: HostRuntime) -> Result<(), Fail> {
    assert!(rt; passes_by(&rt, rt.alloc(), Pair::TwoPages, &ok())?);
    let entry = read_reply("ok 3 0 0 0")?;
    assert!(rt; passes_by(&rt, rt.alloc(), Pair::PageAndRead, &entry)?);
    Ok(())
}

/// Drains again and again, until CPU 1's call is in the history or it has drained often enough. Returns whether the call is.
fn drain_second<S: Site, R: Wait>(
    rt: &R,
    monitor: &Monitor<S>,
    mut scribe: ScribePass,
    mut history: History,
) -> Result<bool, AllocError>
    requires { CanDrain monitor.now.queue scribe history.recorded }
{
    for _look in 0..LOOKS {
        monitor.drain(rt, &mut scribe, &mut history)?;
        if history.call_of(1, 0).is_some() {
            return Ok(true);
        }
        thread::yield_now();
    }
    Ok(false)
}

/// Whether CPU 1 has neither passed the gate nor been answered at any of many looks.
fn stays_out(gate: &Turnstile, answered: &AtomicBool) -> bool {
    for look in 0..STEADY_LOOKS {
        if gate.second_came.load(Ordering::SeqCst) || answered.load(Ordering::SeqCst) {
            return false;
        }
        if look % 1000 == 0 {
            thread::yield_now();
        }
    }
    true
}

/// Opens the gate after CPU 1 has called and was looked at. Returns whether it called and stayed out.
fn open_late<S: Site, R: Wait>(
    rt: &R,
    monitor: &Monitor<S>,
    scribe: ScribePass,
    history: History,
    gate: &Turnstile,
    answered: &AtomicBool,
) -> Result<bool, AllocError>
    requires { CanDrain monitor.now.queue scribe history.recorded }
{
    let has_called = drain_second(rt, monitor, scribe, history);
    let is_out = stays_out(gate, answered);
    gate.is_open.store(true, Ordering::SeqCst);
    Ok(has_called? && is_out)
}

/// CPU 0 delegates a granule and is held up with the granule locked, while CPU 1 calls to delegate the same one. Whether CPU 0
/// is answered `ok` and CPU 1 an error, and CPU 1 stayed out until CPU 0 could go on.
fn delegate_on<S: Site + Send + Sync, R: Threads + Wait + Sync>(
    rt: &R,
    alloc: Global,
    monitor: &Monitor<S>,
    cpus: Cpus<S>,
    scribe: ScribePass,
    history: History,
) -> Result<bool, AllocError>
    requires cpus { ArePaired monitor.now cpus.first.token cpus.first.pass × ArePaired monitor.now cpus.second.token cpus.second.pass }
    requires scribe { CanDrain monitor.now.queue scribe history.recorded }
{
    let (gate, answered) = (Turnstile::new(), AtomicBool::new(false));
    let ((first, second), stayed_out) = thread::join(
        rt,
        || -> (Option<Answer>, Option<Answer>)
            requires { ArePaired monitor.now cpus.first.token cpus.first.pass × ArePaired monitor.now cpus.second.token cpus.second.pass }
        { ask_both(rt, alloc, monitor, &gate, cpus, Pair::OneGranule, &answered) },
        || -> Result<bool, AllocError>
            requires { CanDrain monitor.now.queue scribe history.recorded }
        { open_late(rt, monitor, scribe, history, &gate, &answered) },
    );
    let ran_out = gate.ran_out.load(Ordering::SeqCst);
    let are_right = are_answered(&first, &second, &Reply::Err(1, 0));
    Ok(stayed_out? && are_right && !ran_out)
}

/// Whether that is so on a new monitor.
fn delegate_same<S: Site + Send + Sync, R: Threads + Wait + Sync>(
    rt: &R,
    alloc: Global,
    blank: Blank,
    config: Config,
    queue: Queue,
) -> Result<bool, Fail>
    requires name { blank.name ≡ S.name }
    requires parts { blank.parts ≡ S.parts }
    requires one_each { blank.parts ≡ config.cpus }
    requires granules { config ≡ S.config }
    requires queue { (queue.queue ≡ S.queue) × (queue.cpus ≡ config.cpus) }
{
    let (monitor, first, second, scribe) = two_cpus::<S>(alloc, blank, config, queue)?;
    let history = History::new(alloc, config);
    Ok(delegate_on(rt, alloc, &monitor, Cpus { first, second }, scribe, history)?)
}

#[test]
fn holder_keeps_others_out(rt: HostRuntime) -> Result<(), Fail> {
    let config = Config::new(4, 2).ok_or("a machine of this size")?;
    let queue = Queue::new(rt.alloc(), &config, CAPACITY)?;
    assert!(rt; delegate_same::<Brand, _>(&rt, rt.alloc(), Blank::new(2), config, queue)?);
    Ok(())
}
