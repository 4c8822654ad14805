//! Runs of the recorder on one thread and on five.

ghost use Rattle.std.specs.Prelude.{◌≡◌, [], IfOk, IsTrue};
ghost use Rattle.event_queue.specs.View.{CanDrain, before_calls};
ghost use Rattle.thread_tests.specs.Called.{HasCalled};

use arrayvec::ArrayVec;
use event_queue::{CpuPass, OrderPass, Recorder, ScribePass, fit_a_history};
use history::{History, Reply};
use memory_map::Config;
use queue_threads::{Calls, record_beside};
use rmi_codec::read_command;
use rmi_view::ReplyRef;
use std::alloc::{AllocError, Global};
use std::sync::Wait;
use std::test::Fail;
use std::thread::Threads;
use text_writers::write_history;

fn empty(alloc: Global, granules: u64, cpus: u64) -> Result<History, Fail>
    ensures { IfOk result (λ history. (history.recorded.config.cpus ≡ cpus) × (history.recorded.events ≡ [])) }
{
    let config = Config::new(granules, cpus).ok_or("no such machine")?;
    Ok(History::new(alloc, config))
}

/// Whether this is the history's text.
fn has_text(alloc: Global, history: &History, text: &str) -> Result<bool, AllocError> {
    let mut written = Vec::new(alloc);
    write_history(history, &mut written)?;
    Ok(written.as_slice() == text.as_bytes())
}

/// A queue of two events, for two CPUs.
fn of_two_cpus(alloc: Global) -> Result<(Recorder, CpuPass, CpuPass, ScribePass, OrderPass), Fail>
    ensures first { IfOk result (λ made. made.1 ≡ before_calls made.0.queue 2 0) }
    ensures second { IfOk result (λ made. made.2 ≡ before_calls made.0.queue 2 1) }
    ensures scribe { IfOk result (λ made. made.3 ≡ record { queue = made.0.queue; cpus = 2; events = [] }) }
    ensures order { IfOk result (λ made. made.4.queue ≡ made.0.queue) }
{
    let (recorder, mut passes, scribe, order) = Recorder::new(alloc, 2, 2)?;
    let second = passes.pop().ok_or("a pass for CPU 1")?;
    let first = passes.pop().ok_or("a pass for CPU 0")?;
    Ok((recorder, first, second, scribe, order))
}

/// Whether a call of the text's command is recorded, with this number.
fn calls<R: Wait>(rt: &R, recorder: &Recorder, pass: &mut CpuPass, number: u32, text: &str) -> bool
    requires { pass.old.queue ≡ recorder.now.queue }
    ensures same { (pass.new.queue ≡ pass.old.queue) × (pass.new.cpu ≡ pass.old.cpu) }
    ensures called { IsTrue result → HasCalled pass.new }
{
    let Ok(command) = read_command(text) else {
        return false;
    };
    if pass.is_open() || pass.is_stopped() || pass.next_number() > 999_999 {
        return false;
    }
    matches!(recorder.call(rt, pass, command), Ok(given) if given == number)
}

/// Commits the open call, and returns whether its return with nothing is recorded.
fn returns<R: Wait>(rt: &R, recorder: &Recorder, order: &mut OrderPass, pass: &mut CpuPass) -> bool
    requires queue { (pass.old.queue ≡ recorder.now.queue) × (order.old.queue ≡ recorder.now.queue) }
    requires called { HasCalled pass.old }
    ensures same { (pass.new.queue ≡ pass.old.queue) × (pass.new.cpu ≡ pass.old.cpu) }
    ensures order { order.new.queue ≡ order.old.queue }
{
    let reply = Reply::Ok(ArrayVec::new());
    recorder.commit(order, pass, ReplyRef::of(&reply));
    recorder.returned(rt, pass, reply).is_ok()
}

/// Whether a drain takes so many events.
fn drains<R: Wait>(
    rt: &R,
    recorder: &Recorder,
    scribe: &mut ScribePass,
    history: &mut History,
    count: usize,
) -> bool
    requires { CanDrain recorder.now.queue scribe.old history.old.recorded }
    ensures can { CanDrain recorder.now.queue scribe.new history.new.recorded }
    ensures cpus { scribe.new.cpus ≡ scribe.old.cpus }
{
    matches!(recorder.drain(rt, scribe, history), Ok(taken) if taken == count)
}

/// Both CPUs call, the first returns where there is no room, two events are drained, the second returns, and one is drained.
/// Whether the first return alone is refused, and stops its pass with its call open.
fn refuses_first_return<R: Wait>(
    rt: &R,
    recorder: &Recorder,
    mut order: OrderPass,
    first: &mut CpuPass,
    second: &mut CpuPass,
    scribe: &mut ScribePass,
    history: &mut History,
) -> bool
    requires order { order.queue ≡ recorder.now.queue }
    requires first { first.old.queue ≡ recorder.now.queue }
    requires second { second.old.queue ≡ recorder.now.queue }
    requires scribe { CanDrain recorder.now.queue scribe.old history.old.recorded }
{
    if !calls(rt, recorder, first, 0, "c4000151 1000")
        || !calls(rt, recorder, second, 0, "c4000151 2000")
    {
        return false;
    }
    let first_returns = returns(rt, recorder, &mut order, first);
    let two_drained = drains(rt, recorder, scribe, history, 2);
    let second_returns = returns(rt, recorder, &mut order, second);
    let one_drained = drains(rt, recorder, scribe, history, 1);
    let is_stopped = !first_returns && first.is_stopped() && first.is_open();
    let goes_on = second_returns && !second.is_stopped() && !second.is_open();
    two_drained && one_drained && is_stopped && goes_on
}

/// Whether that is so on a new queue, and what is recorded then.
fn record_first_refused<R: Wait>(rt: &R, alloc: Global) -> Result<(bool, History), Fail> {
    let mut history = empty(alloc, 4, 2)?;
    let (recorder, mut first, mut second, mut scribe, order) = of_two_cpus(alloc)?;
    let is_so = refuses_first_return(
        rt,
        &recorder,
        order,
        &mut first,
        &mut second,
        &mut scribe,
        &mut history,
    );
    Ok((is_so, history))
}

#[test]
fn refused_return_stops_its_pass(rt: HostRuntime) -> Result<(), Fail> {
    let (is_so, history) = record_first_refused(&rt, rt.alloc())?;
    assert!(rt; is_so);
    let text = "rmh1 4 2\nc 0 0 c4000151 1000\nc 1 0 c4000151 2000\nr 1 0 ok\n";
    assert!(rt; has_text(rt.alloc(), &history, text)?);
    Ok(())
}

/// Both CPUs call and return, and two events are drained between. Whether nothing is refused.
fn return_both<R: Wait>(
    rt: &R,
    recorder: &Recorder,
    order: &mut OrderPass,
    first: &mut CpuPass,
    second: &mut CpuPass,
    scribe: &mut ScribePass,
    history: &mut History,
) -> bool
    requires order { order.old.queue ≡ recorder.now.queue }
    requires first { first.old.queue ≡ recorder.now.queue }
    requires second { second.old.queue ≡ recorder.now.queue }
    requires scribe { CanDrain recorder.now.queue scribe.old history.old.recorded }
    ensures order { order.new.queue ≡ order.old.queue }
    ensures first { (first.new.queue ≡ first.old.queue) × (first.new.cpu ≡ first.old.cpu) }
    ensures second { (second.new.queue ≡ second.old.queue) × (second.new.cpu ≡ second.old.cpu) }
    ensures scribe { CanDrain recorder.now.queue scribe.new history.new.recorded }
    ensures cpus { scribe.new.cpus ≡ scribe.old.cpus }
{
    if !calls(rt, recorder, first, 0, "c4000151 1000")
        || !calls(rt, recorder, second, 0, "c4000151 2000")
    {
        return false;
    }
    let two_drained = drains(rt, recorder, scribe, history, 2);
    let second_returns = returns(rt, recorder, order, second);
    let first_returns = returns(rt, recorder, order, first);
    two_drained && second_returns && first_returns
}

/// Whether that is so on a new queue and the rest can be drained, and what is recorded with the rest.
fn record_rest<R: Wait>(rt: &R, alloc: Global) -> Result<(bool, History), Fail> {
    let mut history = empty(alloc, 4, 2)?;
    let (recorder, mut first, mut second, mut scribe, mut order) = of_two_cpus(alloc)?;
    let is_so = return_both(
        rt,
        &recorder,
        &mut order,
        &mut first,
        &mut second,
        &mut scribe,
        &mut history,
    );
    drop(order);
    let mut passes = [first, second];
    if !is_so || !fit_a_history(&passes) {
        return Ok((false, history));
    }
    recorder.drain_rest(rt, &mut scribe, &mut passes, &mut history)?;
    Ok((true, history))
}

#[test]
fn rest_makes_each_list_whole(rt: HostRuntime) -> Result<(), Fail> {
    let (is_so, history) = record_rest(&rt, rt.alloc())?;
    assert!(rt; is_so);
    let text = "rmh1 4 2\nc 0 0 c4000151 1000\nc 1 0 c4000151 2000\nr 1 0 ok\nr 0 0 ok\n";
    assert!(rt; has_text(rt.alloc(), &history, text)?);
    Ok(())
}

/// Records 500 calls and returns, or as many as aren't refused, and drains after each of them.
fn record_drained<R: Wait>(
    rt: &R,
    recorder: &Recorder,
    mut order: OrderPass,
    pass: &mut CpuPass,
    scribe: &mut ScribePass,
    history: &mut History,
)
    requires order { order.queue ≡ recorder.now.queue }
    requires pass { pass.old.queue ≡ recorder.now.queue }
    requires scribe { CanDrain recorder.now.queue scribe.old history.old.recorded }
{
    for _round in 0..500 {
        let number = pass.next_number();
        if !calls(rt, recorder, pass, number, "c4000151 1000")
            || !returns(rt, recorder, &mut order, pass)
            || !drains(rt, recorder, scribe, history, 2)
        {
            break;
        }
    }
}

/// Whether none of them is refused on a new queue.
fn takes_more<R: Wait>(rt: &R, alloc: Global) -> Result<bool, Fail> {
    let mut history = empty(alloc, 4, 2)?;
    let (recorder, mut pass, _, mut scribe, order) = of_two_cpus(alloc)?;
    record_drained(rt, &recorder, order, &mut pass, &mut scribe, &mut history);
    Ok(history.len() == 1000 && !pass.is_open() && !pass.is_stopped())
}

#[test]
fn drained_queue_takes_more(rt: HostRuntime) -> Result<(), Fail> {
    assert!(rt; takes_more(&rt, rt.alloc())?);
    Ok(())
}

/// What each CPU records.
const THOUSAND: Calls<'_> = Calls {
    count: 1000,
    command: "c4000151 1000",
    reply: "ok",
};

/// What all CPUs record on threads of their own, beside one that drains.
fn recorded_by_all<R: Threads + Wait + Sync>(
    rt: &R,
    alloc: Global,
    config: Config,
) -> Result<History, AllocError> {
    let history = History::new(alloc, config);
    let (recorder, mut passes, scribe, order) = Recorder::new(alloc, 65536, config.cpus())?;
    let passes = passes.as_mut_slice();
    let (_scribe, history) = record_beside(
        rt, &recorder, order, passes, scribe, history, THOUSAND,
    )?;
    Ok(history)
}

#[test]
fn four_threads_record_while_one_drains(rt: HostRuntime) -> Result<(), Fail> {
    let config = Config::new(4, 4).ok_or("no such machine")?;
    let history = recorded_by_all(&rt, rt.alloc(), config)?;
    assert!(rt; line_count(rt.alloc(), &history)? == 8001);
    assert!(rt; (0..4).all(|cpu| has_thousand(&history, cpu)));
    Ok(())
}

fn line_count(alloc: Global, history: &History) -> Result<usize, AllocError> {
    let mut text = Vec::new(alloc);
    write_history(history, &mut text)?;
    Ok(text.iter().filter(|&&byte| byte == b'\n').count())
}

/// Whether a CPU has 1,000 calls that have returned, and no more.
fn has_thousand(history: &History, cpu: u8) -> bool {
    for number in 0..1000 {
        match history.places_of(cpu, number) {
            Some(places) if places.returned.is_some() => {}
            _ => return false,
        }
    }
    history.places_of(cpu, 1000).is_none()
}
