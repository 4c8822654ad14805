//! How far an order has come on each CPU.

ghost use Rattle.std.specs.Prelude.{◌≡◌, ◌+◌, ◌<◌, [], ◌∷◌, slice_index, slice_set, IfSome, IsTrue};
ghost use Rattle.rmm_spec.specs.State.{State};
ghost use Rattle.finding.specs.Begun.{HasReturned, IsBegunAt};
ghost use Rattle.finding.specs.Choice.{IsLeast, IsNextCall, IsNextOf, least_of};
ghost use Rattle.finding.specs.Front.{IsFront};

use crate::choice::{Choice, cpus_of, next_of, rank};
use history::History;

/// The rank of no call, behind that of each call.
const NOWHERE: u64 = 1 << 32;

/// How many calls of each CPU stand in an order, and which call of each comes next.
#[derive(Drop)]
pub(crate) struct Front {
    pub(crate) counts: [u32; 8],
    pub(crate) nexts: [Option<Choice>; 8],
    // when each of them is tried
    pub(crate) ranks: [u64; 8],
    // how many of them have returned with a refusal
    pub(crate) refusals: u8,
    // how many of them have returned, and only look or extend a measurement
    pub(crate) looks: u8,
}

impl Front {
    /// No call stands there yet.
    pub(crate) fn new(history: &History) -> Front
        ensures counts { result.counts ≡ 0 ∷ 0 ∷ 0 ∷ 0 ∷ 0 ∷ 0 ∷ 0 ∷ 0 ∷ [] }
        ensures front { IsFront history.now.recorded result }
    {
        let _fact = history.well_formed();
        let counts = [0; 8];
        let mut nexts = [None; 8];
        let mut ranks = [NOWHERE; 8];
        let mut refusals = 0u8;
        let mut looks = 0u8;
        for cpu in 0..cpus_of(history) {
            let next = next_of(history, &counts, cpu);
            ranks[cpu as usize] = rank_or_nowhere(&next);
            refusals = refusals.wrapping_add(refusals_in(&next));
            looks = looks.wrapping_add(looks_in(&next));
            nexts[cpu as usize] = next;
        }
        Front {
            counts,
            nexts,
            ranks,
            refusals,
            looks,
        }
    }

    /// So many calls of a CPU stand there now.
    pub(crate) fn set(&mut self, history: &History, cpu: u8, count: u32)
        requires cpu { cpu < 8 }
        requires front { IsFront history.now.recorded self.old }
        ensures counts { self.new.counts ≡ slice_set self.old.counts cpu count }
        ensures front { IsFront history.now.recorded self.new }
    {
        self.counts[cpu as usize] = count;
        if cpu < cpus_of(history) {
            let next = next_of(history, &self.counts, cpu);
            self.ranks[cpu as usize] = rank_or_nowhere(&next);
            self.refusals = self
                .refusals
                .wrapping_sub(refusals_in(&self.nexts[cpu as usize]))
                .wrapping_add(refusals_in(&next));
            self.looks = self
                .looks
                .wrapping_sub(looks_in(&self.nexts[cpu as usize]))
                .wrapping_add(looks_in(&next));
            self.nexts[cpu as usize] = next;
        }
    }

    /// The call that is tried first, of those that are tried at `from` or behind it.
    pub(crate) fn first_at(&self, history: &History, from: u32) -> Option<Choice>
        requires { IsFront history.now.recorded self.now }
        ensures next { IfSome result (IsNextCall history.now.recorded self.now.counts from) }
        ensures least { IsLeast history.now.recorded.events self.now.counts from history.now.recorded.config.cpus (least_of result) }
    {
        let mut first = 0;
        let mut least = NOWHERE;
        for cpu in 0..cpus_of(history) {
            let rank = self.ranks[cpu as usize];
            if rank < from as u64 {
                continue;
            }
            if least <= rank {
                continue;
            }
            first = cpu;
            least = rank;
        }
        if least == NOWHERE {
            return None;
        }
        self.next(history, first)
    }

    /// The next call of a CPU.
    pub(crate) fn next(&self, history: &History, cpu: u8) -> Option<Choice>
        requires front { IsFront history.now.recorded self.now }
        requires cpu { cpu < history.now.recorded.config.cpus }
        ensures next { IsNextOf history.now.recorded self.now.counts cpu result }
        ensures rank { slice_index self.now.ranks cpu ≡ least_of result }
    {
        let _fact = cpus_of(history);
        self.nexts[cpu as usize]
    }
}

/// Whether each call that returned up to the place stands in an order.
pub(crate) fn is_up_to(history: &History, front: &Front, place: u32) -> bool
    requires begun { (state : State) × IsBegunAt history.now.recorded front.now state }
    ensures { IsTrue result → HasReturned history.now.recorded front.now.counts (place + 1) }
{
    match front.first_at(history, 0) {
        Some(first) => place < rank(&first),
        None => true,
    }
}

/// When a call is tried, where there is one.
fn rank_or_nowhere(next: &Option<Choice>) -> u64
    ensures { result ≡ least_of next.now }
{
    match next {
        Some(choice) => rank(choice) as u64,
        None => NOWHERE,
    }
}

/// One, where the call has returned with a refusal.
fn refusals_in(next: &Option<Choice>) -> u8 {
    match next {
        Some(choice) if choice.refusal => 1,
        _ => 0,
    }
}

/// One, where the call has returned, and only looks or extends a measurement.
fn looks_in(next: &Option<Choice>) -> u8 {
    match next {
        Some(choice) if choice.looks => 1,
        _ => 0,
    }
}
