//! The order of the calls that read and extend one measurement.

use crate::beginnings::{Beginning, Beginnings};
use crate::calls::{CPUS, command_at, reply_at};
use crate::lanes::{Counts, Heads, Lanes, first_return};
use crate::registers::{NEVER, Register, Unread, Use};
use crate::tries::Tries;
use byteorder::{ByteOrder, LittleEndian};
use history::History;
use realm_desc::{Rem, extend_bytes, words, words8};
use rmi_view::ReplyRef;
use rmm_spec::Measurement;
use std::alloc::{AllocError, Global};

/// How many extensions are tried for each call, beside those that are granted.
const TRIED_A_CALL: usize = 8;

/// An order of a measurement's calls, by their places among these.
#[derive(Drop)]
pub(crate) struct Solved {
    pub(crate) order: Vec<usize>,
    /// The first reading, if any, that gave another value.
    pub(crate) unread: Option<Unread>,
}

/// An order of a measurement's first calls, and what may come after them. What is read tells which extensions came before, so none of
/// those before a reading is taken out.
#[derive(Drop)]
struct Solver<'s> {
    history: &'s History,
    uses: &'s [Use],
    lanes: Lanes<'s>,
    settled: Vec<usize>,
    // how many calls of each CPU are settled, and how many readings aren't
    counts: Counts,
    unread: usize,
    beginnings: Beginnings,
}

/// An order of the measurement's calls: one in which each reads what it read, where that is found with the tries that are granted, likely orders
/// first. Else the last calls stand as they return. A call that doesn't return stands there where a reading needs it.
pub(crate) fn order_found<T: Tries>(
    alloc: Global,
    history: &History,
    register: &Register,
    tries: &mut T,
) -> Result<Solved, AllocError> {
    let uses = register.uses.as_slice();
    let mut solver = Solver {
        history,
        uses,
        lanes: Lanes::of(alloc, uses, u32::try_from(history.len()).unwrap_or(NEVER))?,
        settled: Vec::with_capacity(alloc, uses.len())?,
        counts: [0; CPUS],
        unread: uses.iter().filter(|used| !used.extends).count(),
        beginnings: Beginnings::new(alloc),
    };
    solver.take(Beginning::empty([0; CPUS], register.start))?;
    let mut left = uses.len().saturating_mul(TRIED_A_CALL);
    for _ in 0..usize::MAX {
        if solver.unread == 0 {
            break;
        }
        if left == 0 {
            left = tries.more();
        }
        if left == 0 || !solver.step()? {
            break;
        }
        left = left.saturating_sub(1);
    }
    solver.order(register)
}

impl Solver<'_> {
    // The settled calls, and then those that are left and return.
    fn order(self, register: &Register) -> Result<Solved, AllocError> {
        let mut order = self.settled;
        let mut passed = self.counts;
        let mut unread = None;
        for (place, used) in self.uses.iter().enumerate() {
            if takes_one(&mut passed, usize::from(used.cpu)) || used.returned == NEVER {
                continue;
            }
            order.push(place)?;
            if unread.is_none() && !used.extends {
                unread = Some(register.unread(used));
            }
        }
        Ok(Solved { order, unread })
    }

    // Tries the likeliest beginning that wasn't tried. Whether there was one.
    fn step(&mut self) -> Result<bool, AllocError> {
        let Some(longer) = self.beginnings.next() else {
            return Ok(false);
        };
        let Beginning { counts, value, .. } = &longer.beginning;
        let Some(place) = self.lanes.next(counts, longer.cpu) else {
            return Ok(true);
        };
        let value = extended(value, self.history, self.uses.get(place));
        self.take(longer.with(place, value))?;
        Ok(true)
    }

    // Takes a beginning: settles it where a reading fits, and else adds what may come after it.
    fn take(&mut self, beginning: Beginning) -> Result<(), AllocError> {
        let mut beginning = beginning;
        for _ in 0..=self.unread {
            let heads = self.lanes.heads(&beginning.counts);
            let Some(cpu) = self.reading(&beginning.value, &heads) else {
                return self.beginnings.add(beginning, &heads, &self.lanes);
            };
            beginning = self.settle(&beginning, cpu)?;
        }
        Ok(())
    }

    // The CPU of a reading that fits.
    fn reading(&self, value: &Rem, heads: &Heads) -> Option<usize> {
        let bound = first_return(heads);
        for (cpu, head) in heads.iter().enumerate() {
            if let Some(used) = head {
                if !used.extends && used.called <= bound && is_read(value, self.history, used) {
                    return Some(cpu);
                }
            }
        }
        None
    }

    // Leaves the extensions of the beginning, and the CPU's reading, where they are.
    fn settle(&mut self, beginning: &Beginning, cpu: usize) -> Result<Beginning, AllocError> {
        self.beginnings.append_places(beginning, &mut self.settled)?;
        let mut counts = beginning.counts;
        if let Some(place) = self.lanes.next(&counts, cpu) {
            self.settled.push(place)?;
        }
        if let Some(count) = counts.get_mut(cpu) {
            *count = count.saturating_add(1);
        }
        self.beginnings.clear();
        self.counts = counts;
        self.unread = self.unread.saturating_sub(1);
        Ok(Beginning::empty(counts, beginning.value))
    }
}

// Takes one of the CPU's, where any is left.
fn takes_one(counts: &mut Counts, cpu: usize) -> bool {
    let Some(count) = counts.get_mut(cpu) else {
        return false;
    };
    if *count == 0 {
        return false;
    }
    *count = count.saturating_sub(1);
    true
}

// Whether the call read that value.
fn is_read(value: &Rem, history: &History, used: &Use) -> bool {
    let Some(ReplyRef::Ok(given)) = reply_at(history, used.returned as usize) else {
        return false;
    };
    match value.measurement() {
        Measurement::Sha256(bytes) => given == words(bytes).as_slice(),
        Measurement::Sha512(bytes) => given == words8(bytes).as_slice(),
    }
}

// The measurement after the extension.
fn extended(value: &Rem, history: &History, used: Option<&Use>) -> Rem {
    let Some(used) = used else {
        return *value;
    };
    let Some(command) = command_at(history, used.called as usize) else {
        return *value;
    };
    let [_, size, values @ ..] = command.words else {
        return *value;
    };
    if values.len() != 8 || *size > 0x40 {
        return *value;
    }
    let mut bytes = [0; 0x40];
    LittleEndian::write_u64_into(values, &mut bytes);
    extend_bytes(value, &bytes[..*size as usize])
}
