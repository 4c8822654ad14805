//! Which open calls may have to come before the one that returned: those of a group of CPUs, which the others may as well come behind.

ghost use Rattle.std.specs.Prelude.{◌≡◌, ◌<◌, false, true, IfNone, IfSome, IsTrue};
ghost use Rattle.spec_machine.specs.View.{state_of};
ghost use Rattle.finding.specs.Begun.{IsBegun, IsGroup};
ghost use Rattle.finding.specs.Choice.{IsNextCall};
ghost use Rattle.finding.specs.Group.{PassInside, PassesAt, PassesInside, is_inside};

use crate::begun::Begun;
use crate::choice::{Choice, cpus_of, rank};
use crate::last::ends_last;
use crate::next_call::{NextCall, open_calls};
use crate::passing::may_pass;
use history::History;
use spec_machine::Machine;

/// The open call that returned first, and the CPUs outside of its group.
#[derive(Clone, Copy)]
pub(crate) struct Group {
    pub(crate) first: Choice,
    pub(crate) outside: [bool; 8],
}

impl Group {
    ghost use Rattle.std.specs.Prelude.{◌≡◌, ◌<◌, ℕ, true, IsTrue};
    ghost use Rattle.finding.specs.Group.{is_inside};

    /// Whether a CPU is of the group.
    pub(crate) fn has(&self, cpu: u8) -> bool
        requires { cpu < 8 }
        ensures { result ≡ is_inside self.now cpu }
    {
        !self.outside[cpu as usize]
    }

    /// Whether no CPU but that of the call is inside.
    pub(crate) fn is_alone(&self) -> bool
        ensures { IsTrue result → (cpu : ℕ) → cpu < 8 → is_inside self.now cpu ≡ true → cpu ≡ self.now.first.cpu }
    {
        for cpu in 0..8 {
            if self.has(cpu) && cpu != self.first.cpu {
                return false;
            }
        }
        true
    }

    /// The group with one CPU more.
    fn with(self, cpu: u8) -> Group
        requires { cpu < 8 }
        ensures first { result.first ≡ self.first }
        ensures drawn { is_inside result cpu ≡ true }
        ensures kept { (other : ℕ) → is_inside self other ≡ true → is_inside result other ≡ true }
    {
        let mut outside = self.outside;
        outside[cpu as usize] = false;
        Group {
            first: self.first,
            outside,
        }
    }
}

/// The group of the open call that returned first.
pub(crate) fn group_at(history: &History, begun: &Begun, first: Choice) -> Group
    requires begun { IsBegun history.now.recorded begun.now }
    requires first { IsNextCall history.now.recorded begun.now.front.counts 0 first }
    ensures first { result.first ≡ first }
    ensures group { IsGroup history.now.recorded begun.now first (is_inside result) }
{
    let _fact = cpus_of(history);
    let calls = open_calls(history, &begun.front, rank(&first));
    let nobody = Group {
        first,
        outside: [true; 8],
    };
    let mut group = nobody.with(first.cpu);
    'drawn: for _cpu in 0..8 {
        match drawn_in(&calls, &begun.machine, group) {
            Some(cpu) => group = group.with(cpu),
            None => return group,
        }
    }
    Group {
        first,
        outside: [false; 8],
    }
}

/// A CPU outside whose call may have to come before one inside.
fn drawn_in(calls: &[Option<NextCall<'_>>; 8], machine: &Machine, group: Group) -> Option<u8>
    ensures some { IfSome result (λ cpu. cpu < 8) }
    ensures none { IfNone result (PassInside calls.now (state_of machine.now) (is_inside group) 8) }
{
    for cpu in 0..8 {
        if !stays_outside(calls, machine, group, cpu) {
            return Some(cpu);
        }
    }
    None
}

/// Whether the CPU is inside, or its call may as well come behind each one inside.
fn stays_outside(
    calls: &[Option<NextCall<'_>>; 8],
    machine: &Machine,
    group: Group,
    cpu: u8,
) -> bool
    requires { cpu < 8 }
    ensures { IsTrue result → is_inside group cpu ≡ false → PassesInside calls.now (state_of machine.now) (is_inside group) cpu 8 }
{
    if group.has(cpu) {
        true
    } else {
        passes_inside(calls, machine, group, cpu)
    }
}

/// Whether the CPU's call may as well come behind each one inside.
fn passes_inside(
    calls: &[Option<NextCall<'_>>; 8],
    machine: &Machine,
    group: Group,
    cpu: u8,
) -> bool
    requires { cpu < 8 }
    ensures { IsTrue result → PassesInside calls.now (state_of machine.now) (is_inside group) cpu 8 }
{
    for other in 0..8 {
        if group.has(other) && !passes(calls, machine, cpu, other) {
            return false;
        }
    }
    true
}

/// Whether the call of the one CPU may as well come behind that of the other, where both have one.
fn passes(calls: &[Option<NextCall<'_>>; 8], machine: &Machine, cpu: u8, other: u8) -> bool
    requires cpu { cpu < 8 }
    requires other { other < 8 }
    ensures { IsTrue result → PassesAt calls.now (state_of machine.now) cpu other }
{
    let Some(one) = &calls[cpu as usize] else {
        return true;
    };
    match &calls[other as usize] {
        Some(two) => may_pass(one, two) || ends_last(calls, machine, other, one, two),
        None => true,
    }
}
