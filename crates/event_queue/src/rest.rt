//! The rest of what the CPUs recorded, once their passes are back.

ghost use Rattle.std.specs.Prelude.{◌≡◌, ◌+◌, ◌<◌, ◌≤◌, ◌^◌, ◌↔◌, IsTrue, IfSome, IfNone, OnOk, OnErr, List, ◌++◌, length, map};
ghost use Rattle.rmm_spec.specs.declared.event.Event.{Event};
ghost use Rattle.event_queue.specs.Numbered.{AreInOrder};
ghost use Rattle.event_queue.specs.View.{CanDrain, AreSeats, AreBegun, AreWhole, count_recorded, hearing};

use crate::cpu_pass::CpuPass;
use crate::order_pass::OrderPass;
use crate::recorder::Recorder;
use crate::scribe_pass::ScribePass;
use history::{History, MOST_LINES};
use std::alloc::AllocError;
use std::sync::Wait;

impl Recorder {
    /// Drains until the history has each CPU's whole list. All passes are here, so nobody records meanwhile, and it tries again
    /// as long as an event is missing. Where memory is refused, what was taken stands in the history, and was all that it had
    /// room for in memory, which was too little for all that the passes recorded and one event more.
    pub fn drain_rest<R: Wait>(
        &self,
        rt: &R,
        scribe: &mut ScribePass,
        passes: &mut [CpuPass],
        history: &mut History,
    ) -> Result<(), AllocError>
        requires can { CanDrain self.now.queue scribe.old history.old.recorded }
        requires count { length passes.old ≡ scribe.old.cpus }
        requires passes { AreSeats self.now.queue passes.old }
        requires room { count_recorded passes.old < MOST_LINES }
        ensures whole { OnOk result (AreWhole passes.old history.new.recorded.events) }
        ensures taken { (rest : List Event) × (scribe.new ≡ record scribe.old { events = scribe.old.events ++ rest })
            × OnErr result (history.old.room ≤ length rest) }
        ensures short { OnErr result (history.old.room + length history.old.recorded.events ≤ count_recorded passes.old) }
        ensures history { history.new.recorded ≡ record history.old.recorded { events = scribe.new.events } }
        ensures passes { passes.new ≡ map (hearing scribe.new.events) passes.old }
        ensures seats { AreSeats self.now.queue passes.new }
        ensures all { OnOk result (AreWhole passes.new scribe.new.events) }
    {
        let Some(count) = count_recorded(passes) else {
            unreachable!()
        };
        let drained = self.drain_to(rt, scribe, history, count);
        let _fact = history.well_formed();
        self.compare_all(scribe, passes);
        drained
    }

    /// The law on a history that has each CPU's whole list: the journal's commits, written as its certificate, are an order of its
    /// calls that keeps real time. Nothing can be committed from then on.
    pub fn keeps_real_time<R: Wait>(
        &self,
        rt: &R,
        scribe: &mut ScribePass,
        order: OrderPass,
        passes: &mut [CpuPass],
    )
        requires scribe { scribe.old.queue ≡ self.now.queue }
        requires order { order.queue ≡ self.now.queue }
        requires count { length passes.old ≡ scribe.old.cpus }
        requires passes { AreSeats self.now.queue passes.old }
        requires whole { AreWhole passes.old scribe.old.events }
        ensures ordered { AreInOrder scribe.old.events order.entries }
        ensures kept { (scribe.new ≡ scribe.old) × (passes.new ≡ passes.old) }
    {
        if let Some(_event) = scribe.take_last(rt, &self.queue, order) {
            // an event that no CPU's list has
            self.compare_all(scribe, passes);
            unreachable!()
        }
    }

    /// Drains again and again until the history has so many events.
    fn drain_to<R: Wait>(
        &self,
        rt: &R,
        scribe: &mut ScribePass,
        history: &mut History,
        count: usize,
    ) -> Result<(), AllocError>
        requires { CanDrain self.now.queue scribe.old history.old.recorded }
        ensures reached { OnOk result (count ≤ length history.new.recorded.events) }
        ensures taken { (rest : List Event) × (scribe.new ≡ record scribe.old { events = scribe.old.events ++ rest })
            × OnErr result (history.old.room ≤ length rest) }
        ensures history { history.new.recorded ≡ record history.old.recorded { events = scribe.new.events } }
    {
        for _look in rt.forever() {
            if count <= history.len() {
                return Ok(());
            }
            self.drain(rt, scribe, history)?;
        }
        unreachable!()
    }

    /// Compares what was drained with each CPU's own list, of which the passes have heard then.
    fn compare_all(&self, scribe: &mut ScribePass, passes: &mut [CpuPass])
        requires scribe { scribe.old.queue ≡ self.now.queue }
        requires passes { AreSeats self.now.queue passes.old }
        ensures begun { AreBegun passes.old scribe.old.events }
        ensures heard { (scribe.new ≡ scribe.old) × (passes.new ≡ map (hearing scribe.old.events) passes.old) }
    {
        for pass in passes.iter_mut() {
            self.drained_in_order(scribe, pass);
        }
    }
}

/// Whether a history has room for all that the passes recorded.
pub fn fit_a_history(passes: &[CpuPass]) -> bool
    ensures { IsTrue result ↔ (count_recorded passes.now < MOST_LINES) }
{
    count_recorded(passes).is_some()
}

/// How many events the passes recorded together, where a history has room for so many.
fn count_recorded(passes: &[CpuPass]) -> Option<usize>
    ensures some { IfSome result (λ count. (count ≡ count_recorded passes.now) × (count < MOST_LINES)) }
    ensures none { IfNone result (MOST_LINES ≤ count_recorded passes.now) }
{
    let mut count = 0;
    for pass in passes {
        count += recorded_by(pass);
        if count >= MOST_LINES {
            return None;
        }
    }
    Some(count)
}

/// How many events a CPU recorded.
fn recorded_by(pass: &CpuPass) -> usize
    ensures count { result ≡ length pass.now.events }
    ensures most { result < 2 ^ 33 }
{
    let _fact = pass.well_formed();
    2 * pass.next_number() as usize - usize::from(pass.is_open())
}
