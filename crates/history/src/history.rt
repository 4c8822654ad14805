//! Histories.

ghost use Rattle.std.specs.Prelude.{◌≡◌, ℕ, ◌+◌, ◌<◌, ◌≤◌, ◌↔◌, [], ◌∷◌, ◌++◌, length, take, slice_get, Some, IsTrue, IsOk, IfOk, IfSome, IfNone, OnOk, OnErr};
ghost use Rattle.rmm_spec.specs.declared.command.Command.{Command};
ghost use Rattle.rmm_spec.specs.declared.event.Event.{Event};
ghost use Rattle.rmm_spec.specs.declared.reply.Reply.{Reply};
ghost use Rattle.rmm_spec.specs.HistoryText.{IsHistory, CanFollow, cpu_of};
ghost use Rattle.rmm_spec.specs.Linearization.{IsCalled, IsReturned, IsKnown, IsFinished};
ghost use Rattle.history.specs.Calls.{line_at, ArePlacesOf, IsCallOf};
ghost use Rattle.history.specs.Counts.{AreCounts};
ghost use Rattle.history.specs.Entry as entry;
ghost use Rattle.history.specs.EventRef.{event_seen};
ghost use Rattle.history.specs.Spelling.{call_number};
ghost use Rattle.rmi_view.specs.Seen.{command_seen, reply_seen, HasFewWords};
ghost use Rattle.history.specs.Index.{IsSubhistory};
ghost use Rattle.history.specs.Next.{HasText, Continues};

use crate::entry::{
    Entry, command_of, counted_event, entry_cpu, event_of, reply_of, reserve_event, store,
};
use crate::event_ref::EventRef;
use crate::events::Events;
use crate::subhistory::{Subhistory, copies, make_room_at};
use memory_map::Config;
use rmi_codec::reply_has_text;
use rmi_view::{CommandRef, ReplyRef};
use rmm_spec::{Command, Event, Reply};
use std::alloc::{AllocError, Global};
use std::marker::Model;

/// The most events of a history.
pub(crate) const MOST_EVENTS: usize = 999_999;

/// The most lines of a history's text, its header counted.
pub const MOST_LINES: usize = MOST_EVENTS + 1;

/// Where a call of a history was made, and where it returned. Places count the events from 0.
#[derive(Clone, Copy)]
pub struct Places {
    pub called: u32,
    /// Nothing where the call hasn't returned.
    pub returned: Option<u32>,
}

/// A call of a history, with the line of the text on which it was made. The header is line 1.
#[derive(Drop)]
pub struct Call {
    pub called: u32,
    pub command: Command,
    /// Nothing where the call hasn't returned.
    pub answer: Option<Answer>,
}

/// What a call was answered, and on which line.
#[derive(Drop)]
pub struct Answer {
    pub returned: u32,
    pub reply: Reply,
}

/// A machine's size and its events. A call is found by its CPU and number in constant time.
#[derive(Drop)]
pub struct History {
    config: Config,
    entries: Vec<Entry>,
    words: Vec<u64>,
    subhistories: [Subhistory; 8],
}

impl Model for History {
    ghost use Rattle.history.specs.View.{Recording};

    ghost Value = { Recording };

    ghost use Rattle.history.specs.Entry.{events_in, room_of};
    ghost use Rattle.history.specs.Index.{IsStored};
    ghost use Rattle.history.specs.Room.{spare, least_spare};

    ghost view = { λ h. record {
      recorded = record { config = h.config; events = events_in h.words.items h.entries.items };
      room = least_spare (room_of (spare h.entries) (spare h.words)) h.subhistories;
    } };

    ghost invariant = { λ h. IsStored h.config h.words.items h.entries.items h.subhistories };
}

impl History {
    /// No event yet.
    pub fn new(alloc: Global, config: Config) -> History
        ensures { result.recorded ≡ record { config = config; events = [] } }
    {
        let _fact = config.cpus();
        History {
            config,
            entries: Vec::new(alloc),
            words: Vec::new(alloc),
            subhistories: std::array::from_fn(|_cpu| Subhistory::new(alloc)),
        }
    }

    /// The same history once more, without a look at each event.
    pub fn copy(&self, alloc: Global) -> Result<History, AllocError>
        ensures { IfOk result (λ again. again.recorded ≡ self.now.recorded) }
    {
        Ok(History {
            config: self.config,
            entries: self.entries.to_vec(alloc)?,
            words: self.words.to_vec(alloc)?,
            subhistories: copies(alloc, &self.subhistories)?,
        })
    }

    pub fn config(&self) -> Config
        ensures { result ≡ self.now.recorded.config }
    {
        self.config
    }

    /// How many events there are.
    pub fn len(&self) -> usize
        ensures { result ≡ length self.now.recorded.events }
    {
        self.entries.len()
    }

    pub fn is_empty(&self) -> bool
        ensures { IsTrue result ↔ (self.now.recorded.events ≡ []) }
    {
        self.len() == 0
    }

    /// The event at a place.
    pub fn event(&self, place: usize) -> Event
        requires { place < length self.now.recorded.events }
        ensures { slice_get self.now.recorded.events place ≡ Some result }
    {
        event_of(&self.words, self.number_at(place), self.entries[place]).to_event()
    }

    /// The events, one after another.
    pub fn events(&self) -> Events<'_>
        ensures { result ≡ self.now.recorded.events }
    {
        Events::of(self)
    }

    /// The event at a place, whose number the counts of the events before it tell without a search. They then count it too.
    pub(crate) fn counted_at(&self, place: usize, counts: &mut [u32; 8]) -> EventRef<'_>
        requires place { place < length self.now.recorded.events }
        requires counts { AreCounts counts.old (take place self.now.recorded.events) }
        ensures event { slice_get self.now.recorded.events place ≡ Some (event_seen result) }
        ensures few { entry.HasFewWords (event_seen result) }
        ensures counts { AreCounts counts.new (take (place + 1) self.now.recorded.events) }
    {
        let _fact = self.well_formed();
        counted_event(&self.words, self.entries[place], counts)
    }

    /// The number of the call of the event at a place.
    fn number_at(&self, place: usize) -> u32
        requires { place < length self.now.recorded.events }
        ensures { (event : Event) → slice_get self.now.recorded.events place ≡ Some event → call_number event ≡ result }
    {
        let Some(subhistory) = self.subhistory(entry_cpu(self.entries[place])) else {
            unreachable!()
        };
        (subhistory.rank_of(place as u32) / 2) as u32
    }

    /// The CPU and the number of the call at a place, where the event there is a call.
    pub fn called_at(&self, place: usize) -> Option<(u8, u32)>
        requires { place < length self.now.recorded.events }
        ensures some { IfSome result (λ call. (command : Command) × IsCalled self.now.recorded.events place call.0 call.1 command) }
        ensures none { IfNone result ((cpu number : ℕ) (command : Command) → ¬ IsCalled self.now.recorded.events place cpu number command) }
    {
        let Entry::Called { cpu, .. } = self.entries[place] else {
            return None;
        };
        Some((cpu, self.number_at(place)))
    }

    /// The command of the call at a place, where the event there is a call.
    pub fn command_at(&self, place: usize) -> Option<CommandRef<'_>>
        requires { place < length self.now.recorded.events }
        ensures some { IfSome result (λ command. (cpu : ℕ) × (number : ℕ)
            × IsCalled self.now.recorded.events place cpu number (command_seen command)) }
        ensures few { IfSome result (λ command. length command.words.now ≤ 10) }
        ensures none { IfNone result ((cpu number : ℕ) (command : Command) → ¬ IsCalled self.now.recorded.events place cpu number command) }
    {
        command_of(&self.words, self.entries[place])
    }

    /// The reply of the return at a place, where the event there is a return.
    pub fn reply_at(&self, place: usize) -> Option<ReplyRef<'_>>
        requires { place < length self.now.recorded.events }
        ensures some { IfSome result (λ given. (cpu : ℕ) × (number : ℕ) × IsReturned self.now.recorded.events place cpu number (reply_seen given)) }
        ensures few { IfSome result (λ given. HasFewWords (reply_seen given)) }
        ensures none { IfNone result ((cpu number : ℕ) (given : Reply) → ¬ IsReturned self.now.recorded.events place cpu number given) }
    {
        reply_of(&self.words, self.entries[place])
    }

    /// The law that every value keeps.
    pub fn well_formed(&self)
        ensures { IsHistory self.now.recorded }
    {
        let _fact = &self.entries;
    }

    /// Whether an event may be recorded next. Room for its line is asked apart from this.
    pub fn fits(&self, event: &Event) -> bool
        ensures { IsTrue result ↔ CanFollow self.now.recorded event.now }
    {
        has_text(event) && self.continues(EventRef::of(event))
    }

    /// Whether an event is of one of the CPUs and its next.
    pub(crate) fn continues(&self, event: EventRef<'_>) -> bool
        ensures { IsTrue result ↔ Continues self.now.recorded (event_seen event.entry) }
    {
        match self.subhistory(cpu_of(event)) {
            Some(subhistory) => subhistory.takes(event),
            None => false,
        }
    }

    /// Whether the text has room for the line of another event.
    pub fn has_room(&self) -> bool
        ensures { IsTrue result ↔ (length self.now.recorded.events + 1 < MOST_LINES) }
    {
        self.len() < MOST_EVENTS
    }

    /// Makes room in memory for one more event, so that its `push` isn't refused.
    pub fn make_room(&mut self) -> Result<(), AllocError>
        ensures kept { self.new.recorded ≡ self.old.recorded }
        ensures ok { OnOk result (1 ≤ self.new.room) }
        ensures succeeds { 1 ≤ self.old.room → IsOk result }
        ensures grows { self.old.room ≤ self.new.room }
    {
        reserve_event(&mut self.entries, &mut self.words)?;
        make_room_at(&mut self.subhistories)
    }

    /// Records an event at the end. Where memory is refused, nothing is recorded.
    pub fn push(&mut self, event: Event) -> Result<(), AllocError>
        requires follows { CanFollow self.old.recorded event }
        requires line { length self.old.recorded.events + 1 < MOST_LINES }
        ensures ok { OnOk result (self.new.recorded ≡ record self.old.recorded { events = self.old.recorded.events ++ event ∷ [] }) }
        ensures err { OnErr result (self.new.recorded ≡ self.old.recorded) }
        ensures succeeds { 1 ≤ self.old.room → IsOk result }
        ensures left { self.old.room ≤ self.new.room + 1 }
    {
        self.append(EventRef::of(&event))
    }

    /// Records an event at the end, as `push` does.
    #[inline(always)]
    pub(crate) fn append(&mut self, event: EventRef<'_>) -> Result<(), AllocError>
        requires follows { CanFollow self.old.recorded (event_seen event) }
        requires line { length self.old.recorded.events + 1 < MOST_LINES }
        ensures ok { OnOk result (self.new.recorded ≡ record self.old.recorded { events = self.old.recorded.events ++ event_seen event.entry ∷ [] }) }
        ensures err { OnErr result (self.new.recorded ≡ self.old.recorded) }
        ensures succeeds { 1 ≤ self.old.room → IsOk result }
        ensures left { self.old.room ≤ self.new.room + 1 }
    {
        let place = self.entries.len() as u32;
        let subhistory = &mut self.subhistories[cpu_of(event) as usize];
        subhistory.make_room()?;
        store(&mut self.entries, &mut self.words, event)?;
        subhistory.enter(place);
        Ok(())
    }

    /// Where the call of that number of a CPU was made, and where it returned.
    pub fn places_of(&self, cpu: u8, number: u32) -> Option<Places>
        ensures some { IfSome result (ArePlacesOf self.now.recorded.events cpu number) }
        ensures none { IfNone result (¬ IsKnown self.now.recorded.events cpu number) }
    {
        let subhistory = self.subhistory(cpu)?;
        let called = subhistory.called(number)?;
        Some(Places {
            called,
            returned: subhistory.returned(number),
        })
    }

    /// Whether the call of that number of a CPU is there and has returned.
    pub fn has_returned(&self, cpu: u8, number: u32) -> bool
        ensures { IsTrue result ↔ IsFinished self.now.recorded.events cpu number }
    {
        let _fact = self.well_formed();
        match self.places_of(cpu, number) {
            Some(places) => places.returned.is_some(),
            None => false,
        }
    }

    /// The call of that number of a CPU.
    pub fn call_of(&self, cpu: u8, number: u32) -> Option<Call>
        ensures some { IfSome result (IsCallOf self.now.recorded.events cpu number) }
        ensures none { IfNone result (¬ IsKnown self.now.recorded.events cpu number) }
    {
        let _fact = self.well_formed();
        let Places { called, returned } = self.places_of(cpu, number)?;
        let Some(command) = self.command_at(called as usize) else {
            unreachable!()
        };
        let answer = match returned {
            Some(returned) => {
                let Some(reply) = self.reply_at(returned as usize) else {
                    unreachable!()
                };
                Some(Answer {
                    returned: line_at(returned),
                    reply: reply.to_reply(),
                })
            }
            None => None,
        };
        Some(Call {
            called: line_at(called),
            command: command.to_command(),
            answer,
        })
    }

    /// The subhistory of a CPU, where the machine has that CPU.
    fn subhistory(&self, cpu: u8) -> Option<&Subhistory>
        ensures some { IfSome result (λ subhistory. (cpu < self.now.recorded.config.cpus)
            × IsSubhistory self.now.recorded.events cpu subhistory.now) }
        ensures history { IsHistory self.now.recorded }
        ensures none { IfNone result (self.now.recorded.config.cpus ≤ cpu) }
    {
        if cpu < self.config.cpus() {
            Some(&self.subhistories[cpu as usize])
        } else {
            None
        }
    }
}

/// The line of the text on which the event of a place stands. The header is line 1.
fn line_at(place: u32) -> u32
    requires { place < MOST_LINES }
    ensures { result ≡ line_at place }
{
    place + 2
}

fn cpu_of(event: EventRef<'_>) -> u8
    ensures { result ≡ cpu_of (event_seen event.entry) }
{
    match event {
        EventRef::Called { cpu, .. } | EventRef::Returned { cpu, .. } => cpu,
    }
}

/// Whether an event's command or reply has a text.
fn has_text(event: &Event) -> bool
    ensures { IsTrue result ↔ HasText event.now }
{
    match event {
        Event::Called { command, .. } => rmi_codec::has_text(command),
        Event::Returned { reply, .. } => {
            let _fact = reply_has_text(reply);
            true
        }
    }
}
