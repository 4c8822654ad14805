//! Events by their stamps.

ghost use Rattle.std.specs.Prelude.{◌≡◌, ℕ, ◌+◌, ◌<◌, ◌≤◌, [], ◌++◌, length, OnOk, OnErr, None, option_map};
ghost use Rattle.merging.specs.Events.{IsMoment};
ghost use Rattle.merging.specs.SeenEvents.{moment_seen, happened_seen, AreFew};
ghost use Rattle.merging.specs.Table.{Happened, IsHappened, IsPut, slot_at};

use crate::moment::{HappenedRef, MomentRef};
use crate::slot::{Slot, happened_at, place, vacant, what_of, words_of};
use memory_map::Config;
use std::alloc::{AllocError, Global};
use std::marker::Model;

/// The most events of a recording. Their stamps are below it.
pub const MOST_EVENTS: u32 = 2_000_000;

// How many words an event has at most.
const MOST_WORDS: usize = 10;

/// Events, each at its stamp, with the sizes of their machine.
#[derive(Drop)]
pub struct EventTable {
    sizes: Config,
    count: u32,
    slots: Vec<Slot>,
    words: Vec<u64>,
    // where the words of each CPU's last event begin, so that a return has those of its commit
    lasts: [u32; 8],
}

impl Model for EventTable {
    ghost use Rattle.merging.specs.Slots.{IsHeld, slots_in};
    ghost use Rattle.merging.specs.Table.{Table};

    ghost Value = { Table };

    ghost view = { λ table. record {
      granules = table.sizes.granules;
      cpus = table.sizes.cpus;
      count = table.count;
      slots = slots_in table.words.items table.slots.items;
    } };

    ghost invariant = { λ table. IsHeld table.count table.words.items table.slots.items };
}

impl EventTable {
    /// No event yet.
    pub(crate) fn new(alloc: Global, sizes: Config) -> EventTable
        ensures { result ≡ record { granules = sizes.granules; cpus = sizes.cpus; count = 0; slots = [] } }
    {
        EventTable {
            sizes,
            count: 0,
            slots: Vec::new(alloc),
            words: Vec::new(alloc),
            lasts: [0; 8],
        }
    }

    /// The sizes that the header names, for a machine of the version of large ones.
    pub fn sizes(&self) -> Config
        ensures granules { result.granules ≡ self.now.granules }
        ensures cpus { result.cpus ≡ self.now.cpus }
    {
        self.sizes
    }

    /// How many events there are.
    pub fn count(&self) -> u32
        ensures count { result ≡ self.now.count }
        ensures most { result ≤ MOST_EVENTS }
    {
        self.count
    }

    /// How many stamps there are up to the last one.
    pub fn len(&self) -> usize
        ensures len { result ≡ length self.now.slots }
        ensures most { result ≤ MOST_EVENTS }
    {
        self.slots.len()
    }

    /// What happened at a stamp, where it is known.
    pub fn slot(&self, stamp: usize) -> Option<HappenedRef<'_>>
        ensures seen { option_map happened_seen result ≡ slot_at self.now.slots stamp }
        ensures few { AreFew result }
    {
        match self.slots.get(stamp) {
            Some(slot) => happened_at(&self.words, *slot),
            None => None,
        }
    }

    /// The law that every table keeps.
    pub fn well_formed(&self)
        ensures { (stamp : ℕ) (slot : Happened) → slot_at self.now.slots stamp ≡ Some slot → IsHappened slot }
    {
        let _fact = &self.slots;
    }

    /// Puts the next line's event at its stamp, where none is known. Where memory is refused, nothing is put.
    pub(crate) fn put(
        &mut self,
        stamp: u32,
        cpu: u8,
        moment: MomentRef<'_>,
    ) -> Result<(), AllocError>
        requires stamp { stamp < MOST_EVENTS }
        requires free { slot_at self.old.slots stamp ≡ None }
        requires cpu { cpu < 8 }
        requires moment { IsMoment (moment_seen moment) }
        requires few { self.old.count < MOST_EVENTS }
        ensures ok { OnOk result (IsPut self.old.slots self.new.slots stamp
            (record { line = self.old.count + 2; cpu = cpu; moment = moment_seen moment.entry })) }
        ensures count { OnOk result (self.new ≡ record self.old { count = self.old.count + 1; slots = self.new.slots }) }
        ensures err { OnErr result (self.new ≡ self.old) }
    {
        let at = stamp as usize;
        self.words.reserve(MOST_WORDS)?;
        grow(&mut self.slots, at + 1)?;
        let line = self.count + 2;
        let last = self.lasts[usize::from(cpu)];
        let first = place(&mut self.words, last, words_of(moment));
        let what = what_of(moment);
        self.lasts[usize::from(cpu)] = first;
        self.slots[at] = Slot {
            line,
            first,
            cpu,
            what,
        };
        self.count += 1;
        Ok(())
    }
}

ghost use Rattle.std.specs.Prelude.{◌-◌, replicate};
ghost use Rattle.merging.specs.Slots.{vacant};

// Makes the slots at least so many.
fn grow(slots: &mut Vec<Slot>, least: usize) -> Result<(), AllocError>
    ensures ok { OnOk result (slots.new.items ≡ slots.old.items ++ replicate (least - length slots.old.items) vacant) }
    ensures err { OnErr result (slots.new.items ≡ slots.old.items) }
{
    if least <= slots.len() {
        return Ok(());
    }
    slots.resize(least, vacant())
}
