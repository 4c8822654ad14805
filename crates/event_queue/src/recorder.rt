//! The recorder: the queue that CPUs push events into, and the scribe drains.

ghost use Rattle.std.specs.Prelude.{◌≡◌, ℕ, ◌+◌, ◌-◌, ◌<◌, ◌≤◌, IsTrue, IsOk, IfOk, OnOk, OnErr, List, Some, true, false, [], ◌∷◌, ◌++◌, length, slice_get};
ghost use Rattle.rmm_spec.specs.declared.event.Event.{Event};
ghost use Rattle.rmm_spec.specs.declared.command.Command.{Command};
ghost use Rattle.rmm_spec.specs.CommandText.{IsCommand};
ghost use Rattle.rmi_view.specs.Seen.{reply_seen};
ghost use mathlib.Core.List.{IsPrefix};
ghost use Rattle.rmm_spec.specs.HistoryText.{subhistory_of};
ghost use Rattle.crossbeam_queue.specs.Passes.{IsPassOf, view as page_of};
ghost use Rattle.event_queue.specs.Pages.{opening_page, scribe_page};
ghost use Rattle.event_queue.specs.Records.{WasFull};
ghost use Rattle.event_queue.specs.Stages.{Idle, Open, Committed, entry_at};
ghost use Rattle.event_queue.specs.View.{CanDrain, before_calls, hearing};

use crate::book::{Counts, Lends, PagePass, Queue, Seats};
use crate::cpu_pass::CpuPass;
use crate::full::Full;
use crate::order_pass::OrderPass;
use crate::scribe_pass::ScribePass;
use history::{History, MOST_LINES};
use rmi_view::ReplyRef;
use rmm_spec::{Command, Reply};
use std::alloc::{AllocError, Global};
use std::marker::Model;
use std::sync::Wait;

/// The most events that a queue may hold at once.
pub const MOST_QUEUED: usize = 65536;

/// A bounded queue of events, which all CPUs and the scribe share.
#[derive(Drop)]
pub struct Recorder {
    pub(crate) queue: Queue,
}

impl Model for Recorder {
    ghost use Rattle.event_queue.specs.View.{RecorderView};

    ghost Value = { RecorderView };

    ghost use Rattle.crossbeam_queue.specs.Passes.{ruled_capacity};

    ghost view = { λ r. record { queue = r.queue.table.shared.table_id; capacity = ruled_capacity r.queue } };
}

impl Recorder {
    /// A queue for so many events, with a pass for each CPU, one for the scribe, and one that lies with the journal.
    pub fn new(
        alloc: Global,
        capacity: usize,
        cpus: u8,
    ) -> Result<(Recorder, Vec<CpuPass>, ScribePass, OrderPass), AllocError>
        requires capacity { (1 ≤ capacity) × (capacity ≤ MOST_QUEUED) }
        requires cpus { (1 ≤ cpus) × (cpus ≤ 8) }
        ensures capacity { IfOk result (λ made. made.0.capacity ≡ capacity) }
        ensures count { IfOk result (λ made. length made.1.items ≡ cpus) }
        ensures passes { IfOk result (λ made. (cpu : ℕ) → cpu < cpus → slice_get made.1.items cpu ≡ Some (before_calls made.0.queue cpus cpu)) }
        ensures scribe { IfOk result (λ made. made.2 ≡ record { queue = made.0.queue; cpus = cpus; events = [] }) }
        ensures order { IfOk result (λ made. made.3 ≡ record { queue = made.0.queue; entries = [] }) }
    {
        let (queue, mut scribe) = Queue::ruled(alloc, capacity)?;
        count_cpus(&queue, &mut scribe, cpus);
        let passes = seat_cpus(alloc, &queue, &mut scribe, cpus)?;
        let order = OrderPass::kept(queue.another::<Lends>(&mut scribe));
        Ok((
            Recorder { queue },
            passes,
            ScribePass::seated(scribe),
            order,
        ))
    }

    /// Records a call, and returns its number. Where the queue is full nothing is recorded.
    pub fn call<R: Wait>(&self, rt: &R, pass: &mut CpuPass, command: Command) -> Result<u32, Full>
        requires queue { pass.old.queue ≡ self.now.queue }
        requires command { IsCommand command }
        requires closed { pass.old.stand.is_open ≡ false }
        requires running { pass.old.is_stopped ≡ false }
        requires number { pass.old.stand.next ≤ 999999 }
        ensures number { IfOk result (λ number. number ≡ pass.old.stand.next) }
        ensures called { OnOk result (pass.new ≡ record pass.old {
          events = pass.old.events ++ Event.Called pass.old.cpu pass.old.stand.next command ∷ [];
          stand = record { next = pass.old.stand.next + 1; is_open = true };
          stage = Open command;
        }) }
        ensures full { OnErr result (pass.new ≡ pass.old) }
        ensures cause { OnErr result (WasFull self.now.capacity pass.old.cpus pass.old.cpu pass.old.events pass.old.heard) }
    {
        pass.call(rt, &self.queue, command)
    }

    /// Commits the open call with this reply, behind the commits that the journal has. Its return can be recorded then.
    pub fn commit(&self, order: &mut OrderPass, pass: &mut CpuPass, reply: ReplyRef<'_>)
        requires order { order.old.queue ≡ self.now.queue }
        requires queue { pass.old.queue ≡ self.now.queue }
        requires open { (command : Command) × (pass.old.stage ≡ Open command) }
        ensures order { order.new
            ≡ record order.old { entries = order.old.entries ++ entry_at pass.old.stage pass.old.cpu (reply_seen reply.entry) } }
        ensures committed { pass.new ≡ record pass.old { stage = Committed (reply_seen reply.entry) } }
    {
        pass.commit(&self.queue, order, reply);
    }

    /// Records the return of the open call, which is committed with this reply. Where the queue is full the call stays open for good,
    /// and the pass is stopped.
    pub fn returned<R: Wait>(&self, rt: &R, pass: &mut CpuPass, reply: Reply) -> Result<(), Full>
        requires queue { pass.old.queue ≡ self.now.queue }
        requires open { IsTrue pass.old.stand.is_open }
        requires committed { pass.old.stage ≡ Committed reply }
        requires running { pass.old.is_stopped ≡ false }
        ensures returned { OnOk result (pass.new ≡ record pass.old {
          events = pass.old.events ++ Event.Returned pass.old.cpu (pass.old.stand.next - 1) reply ∷ [];
          stand = record { next = pass.old.stand.next; is_open = false };
          stage = Idle;
        }) }
        ensures full { OnErr result (pass.new ≡ record pass.old { is_stopped = true }) }
        ensures cause { OnErr result (WasFull self.now.capacity pass.old.cpus pass.old.cpu pass.old.events pass.old.heard) }
    {
        pass.returned(rt, &self.queue, reply)
    }

    /// Moves events from the queue to the end of the history, and returns how many. It takes at most as many as the queue
    /// may hold, and stops where the queue is empty or the history's text has no room for another line; where that has room,
    /// an event more is sure to take no memory then. Where memory is refused, what was taken stands in the history, and was all
    /// that it had room for in memory. No more of that room is used up than what was taken.
    pub fn drain<R: Wait>(
        &self,
        rt: &R,
        scribe: &mut ScribePass,
        history: &mut History,
    ) -> Result<usize, AllocError>
        requires { CanDrain self.now.queue scribe.old history.old.recorded }
        ensures taken { (taken : List Event) × (scribe.new ≡ record scribe.old { events = scribe.old.events ++ taken })
            × (length taken ≤ self.now.capacity) × IfOk result (λ count. count ≡ length taken)
            × OnErr result (history.old.room ≤ length taken) }
        ensures stopped { IfOk result (λ count. count < self.now.capacity
            → length history.new.recorded.events + 1 < MOST_LINES → 1 ≤ history.new.room) }
        ensures left { history.old.room + length scribe.old.events ≤ history.new.room + length scribe.new.events }
        ensures history { history.new.recorded ≡ record history.old.recorded { events = scribe.new.events } }
    {
        let capacity = self.queue.capacity();
        for taken in 0..capacity {
            if !self.move_one(rt, scribe, history)? {
                return Ok(taken);
            }
        }
        Ok(capacity)
    }

    /// The law on what was drained: each CPU's part of it is a beginning of the CPU's own list. The pass has heard of it then,
    /// so that a later refusal speaks of a moment after it.
    pub fn drained_in_order(&self, scribe: &mut ScribePass, pass: &mut CpuPass)
        requires scribe { scribe.old.queue ≡ self.now.queue }
        requires pass { pass.old.queue ≡ self.now.queue }
        ensures beginning { IsPrefix (subhistory_of pass.old.cpu scribe.old.events) pass.old.events }
        ensures heard { (scribe.new ≡ scribe.old) × (pass.new ≡ hearing scribe.old.events pass.old) }
    {
        let note = scribe.note(&self.queue);
        pass.compare(&self.queue, note);
    }

    /// Moves the oldest event to the end of the history, and returns whether there was one, and a line for it. Where there was
    /// a line alone, there is room in memory too.
    fn move_one<R: Wait>(
        &self,
        rt: &R,
        scribe: &mut ScribePass,
        history: &mut History,
    ) -> Result<bool, AllocError>
        requires { CanDrain self.now.queue scribe.old history.old.recorded }
        ensures moved { IfOk result (λ moved.
            IsTrue moved → (event : Event) × (scribe.new ≡ record scribe.old { events = scribe.old.events ++ event ∷ [] })) }
        ensures stays { IfOk result (λ moved. moved ≡ false → scribe.new ≡ scribe.old) }
        ensures stopped { IfOk result (λ moved. moved ≡ false → length history.new.recorded.events + 1 < MOST_LINES → 1 ≤ history.new.room) }
        ensures err { OnErr result (scribe.new ≡ scribe.old) }
        ensures succeeds { 1 ≤ history.old.room → IsOk result }
        ensures left { history.old.room + length scribe.old.events ≤ history.new.room + length scribe.new.events }
        ensures history { history.new.recorded ≡ record history.old.recorded { events = scribe.new.events } }
    {
        if !history.has_room() {
            return Ok(false);
        }
        history.make_room()?;
        let Some(event) = scribe.take(rt, &self.queue) else {
            return Ok(false);
        };
        history.push(event).unwrap();
        Ok(true)
    }
}

/// Counts so many CPUs on the scribe's page.
fn count_cpus(queue: &Queue, scribe: &mut PagePass, cpus: u8)
    requires queue { IsPassOf queue.now scribe.old }
    requires page { page_of scribe.old ≡ opening_page }
    ensures queue { IsPassOf queue.now scribe.new }
    ensures page { page_of scribe.new ≡ scribe_page cpus 0 }
{
    for _counted in 0..cpus {
        let _ = queue.another::<Counts>(scribe);
    }
}

/// Gives each CPU its pass.
fn seat_cpus(
    alloc: Global,
    queue: &Queue,
    scribe: &mut PagePass,
    cpus: u8,
) -> Result<Vec<CpuPass>, AllocError>
    requires queue { IsPassOf queue.now scribe.old }
    requires page { page_of scribe.old ≡ scribe_page cpus 0 }
    ensures queue { IsPassOf queue.now scribe.new }
    ensures page { OnOk result (page_of scribe.new ≡ scribe_page cpus cpus) }
    ensures count { IfOk result (λ passes. length passes.items ≡ cpus) }
    ensures passes { IfOk result (λ passes. (cpu : ℕ)
        → cpu < cpus → slice_get passes.items cpu ≡ Some (before_calls queue.now.table.shared.table_id cpus cpu)) }
{
    let mut passes = Vec::with_capacity(alloc, usize::from(cpus))?;
    for cpu in 0..cpus {
        let pass = queue.another::<Seats>(scribe);
        passes.push(CpuPass::seated(pass, cpu))?;
    }
    Ok(passes)
}
