//! The pass by which a CPU records its calls and returns.

ghost use Rattle.std.specs.Prelude.{◌≡◌, ◌+◌, ◌-◌, ◌<◌, ◌≤◌, IsTrue, IfOk, OnOk, OnErr, Some, true, false, [], ◌∷◌, ◌++◌};
ghost use Rattle.crossbeam_queue.specs.Passes.{IsPassOf, IsSamePass, ruled_capacity, view as page_of};
ghost use Rattle.rmm_spec.specs.declared.command.Command.{Command};
ghost use Rattle.rmm_spec.specs.CommandText.{IsCommand};
ghost use Rattle.rmi_view.specs.Seen.{reply_seen};
ghost use mathlib.Core.List.{IsPrefix};
ghost use Rattle.rmm_spec.specs.HistoryText.{subhistory_of, start, stand_from};
ghost use Rattle.event_queue.specs.Pages.{Cpu, cpu_page, committed, entered};
ghost use Rattle.event_queue.specs.Records.{WasFull};
ghost use Rattle.event_queue.specs.Stages.{Idle, Open, Committed, entry_at};
ghost use Rattle.event_queue.specs.View.{before_calls, hearing};

use crate::book::{Commitment, Commits, Hears, Lends, PagePass, Queue, Records, Takes};
use crate::full::Full;
use crate::order_pass::OrderPass;
use rmi_codec::reply_has_text;
use rmi_view::ReplyRef;
use rmm_spec::{Command, Event, Reply};
use std::marker::{Brand, Model};
use std::sync::Wait;

/// What a CPU records by: its own list of calls and returns, which takes no memory.
#[derive(Drop)]
pub struct CpuPass {
    pass: PagePass,
    cpu: u8,
    next: u32,
    is_open: bool,
    is_stopped: bool,
}

impl Model for CpuPass {
    ghost use Rattle.event_queue.specs.View.{CpuView};

    ghost Value = { CpuView };

    ghost use Rattle.std.specs.Prelude.{◌≡◌, []};
    ghost use Rattle.crossbeam_queue.specs.Passes.{view as page_of};
    ghost use Rattle.event_queue.specs.Pages.{IsSeated};

    ghost view = { λ p. record {
      queue = p.pass.table_id;
      cpus = (page_of p.pass).cpus;
      cpu = p.cpu;
      events = (page_of p.pass).events;
      stand = record { next = p.next; is_open = p.is_open };
      stage = (page_of p.pass).stage;
      heard = (page_of p.pass).seen;
      is_stopped = p.is_stopped;
    } };

    ghost invariant = { λ p. (p.pass.me.1 ≡ []) × IsSeated (page_of p.pass) p.cpu p.next p.is_open };
}

impl CpuPass {
    /// Whether the last call hasn't returned.
    pub fn is_open(&self) -> bool
        ensures { result ≡ self.now.stand.is_open }
    {
        self.is_open
    }

    /// Whether a return was refused, so that nothing more is recorded.
    pub fn is_stopped(&self) -> bool
        ensures { result ≡ self.now.is_stopped }
    {
        self.is_stopped
    }

    /// The number of the next call.
    pub fn next_number(&self) -> u32
        ensures { result ≡ self.now.stand.next }
    {
        self.next
    }

    /// The law that every value keeps.
    pub fn well_formed(&self)
        ensures cpu { self.now.cpu < self.now.cpus }
        ensures stand { stand_from start self.now.events ≡ Some self.now.stand }
    {
        let _fact = self.cpu;
    }

    /// The pass of a CPU before its first call.
    pub(crate) fn seated(pass: PagePass, cpu: u8) -> CpuPass
        requires cpu { cpu < (page_of pass).cpus }
        requires clear { pass.me.1 ≡ [] }
        requires page { page_of pass ≡ cpu_page (page_of pass).cpus cpu }
        ensures { result ≡ before_calls pass.table_id (page_of pass).cpus cpu }
    {
        CpuPass {
            pass,
            cpu,
            next: 0,
            is_open: false,
            is_stopped: false,
        }
    }

    /// Pushes a call.
    pub(crate) fn call<R: Wait>(
        &mut self,
        rt: &R,
        queue: &Queue,
        command: Command,
    ) -> Result<u32, Full>
        requires queue { queue.now.table.shared.table_id ≡ self.old.queue }
        requires command { IsCommand command }
        requires closed { self.old.stand.is_open ≡ false }
        requires number { self.old.stand.next ≤ 999999 }
        ensures number { IfOk result (λ number. number ≡ self.old.stand.next) }
        ensures called { OnOk result (self.new ≡ record self.old {
          events = self.old.events ++ Event.Called self.old.cpu self.old.stand.next command ∷ [];
          stand = record { next = self.old.stand.next + 1; is_open = true };
          stage = Open command;
        }) }
        ensures full { OnErr result (self.new ≡ self.old) }
        ensures cause { OnErr result (WasFull (ruled_capacity queue.now) self.old.cpus self.old.cpu self.old.events self.old.heard) }
    {
        let (cpu, number) = (self.cpu, self.next);
        let event = Event::Called {
            cpu,
            number,
            command,
        };
        match queue.push_as::<Records, R>(rt, &mut self.pass, event) {
            Ok(()) => {
                self.next = number + 1;
                self.is_open = true;
                Ok(number)
            }
            Err(_event) => Err(Full),
        }
    }

    /// Pushes the return of the open call.
    pub(crate) fn returned<R: Wait>(
        &mut self,
        rt: &R,
        queue: &Queue,
        reply: Reply,
    ) -> Result<(), Full>
        requires queue { queue.now.table.shared.table_id ≡ self.old.queue }
        requires open { IsTrue self.old.stand.is_open }
        requires committed { self.old.stage ≡ Committed reply }
        ensures returned { OnOk result (self.new ≡ record self.old {
          events = self.old.events ++ Event.Returned self.old.cpu (self.old.stand.next - 1) reply ∷ [];
          stand = record { next = self.old.stand.next; is_open = false };
          stage = Idle;
        }) }
        ensures full { OnErr result (self.new ≡ record self.old { is_stopped = true }) }
        ensures cause { OnErr result (WasFull (ruled_capacity queue.now) self.old.cpus self.old.cpu self.old.events self.old.heard) }
    {
        let _fact = reply_has_text(&reply);
        let (cpu, number) = (self.cpu, self.next - 1);
        let event = Event::Returned { cpu, number, reply };
        match queue.push_as::<Records, R>(rt, &mut self.pass, event) {
            Ok(()) => {
                self.is_open = false;
                Ok(())
            }
            Err(_event) => {
                self.is_stopped = true;
                Err(Full)
            }
        }
    }

    /// Commits the open call with this reply: the journal's page has its entry then.
    pub(crate) fn commit(&mut self, queue: &Queue, order: &mut OrderPass, reply: ReplyRef<'_>)
        requires queue { queue.now.table.shared.table_id ≡ self.old.queue }
        requires order { order.old.queue ≡ self.old.queue }
        requires open { (command : Command) × (self.old.stage ≡ Open command) }
        ensures order { order.new
            ≡ record order.old { entries = order.old.entries ++ entry_at self.old.stage self.old.cpu (reply_seen reply.entry) } }
        ensures committed { self.new ≡ record self.old { stage = Committed (reply_seen reply.entry) } }
    {
        let page = queue.another::<Lends>(&mut order.pass);
        queue.absorb::<Takes>(&mut self.pass, page);
        order.pass = commit_on::<Brand>(queue, &mut self.pass, self.cpu, reply);
    }

    /// Compares what was drained with the CPU's own list, and has heard of it then.
    pub(crate) fn compare(&mut self, queue: &Queue, note: PagePass)
        requires queue { queue.now.table.shared.table_id ≡ self.old.queue }
        requires note { IsPassOf queue.now note }
        ensures heard { self.new ≡ hearing (page_of note).seen self.old }
        ensures beginning { IsPrefix (subhistory_of self.old.cpu (page_of note).seen) self.old.events }
    {
        queue.absorb::<Hears>(&mut self.pass, note);
        queue.learn_as::<Hears>(&mut self.pass);
    }
}

// The step of the page of a CPU that has the journal's commits.
fn commit_on<C: Commitment>(
    queue: &Queue,
    pass: &mut PagePass,
    _cpu: u8,
    _reply: ReplyRef<'_>,
) -> PagePass
    requires cpu { C.cpu ≡ _cpu }
    requires reply { C.reply ≡ reply_seen _reply }
    requires queue { IsPassOf queue.now pass.old }
    requires holder { (page_of pass.old).holder ≡ Cpu _cpu }
    requires journal { (page_of pass.old).keeps ≡ true }
    requires open { (command : Command) × ((page_of pass.old).stage ≡ Open command) }
    ensures queue { IsSamePass pass.old pass.new × IsPassOf queue.now result }
    ensures own { page_of pass.new ≡ committed (reply_seen _reply.entry) (page_of pass.old) }
    ensures journal { page_of result ≡ entered _cpu (reply_seen _reply.entry) (page_of pass.old) }
{
    queue.another::<Commits<C>>(pass)
}
