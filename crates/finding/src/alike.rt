//! Orders that stand for others.

ghost use Rattle.std.specs.Prelude.{◌≡◌, ◌<◌, IfOk, IsTrue, OnOk};
ghost use Rattle.verdict_laws.specs.Unread.{ReadsNothing};
ghost use Rattle.undo_log.specs.Patches.{standing_of};
ghost use Rattle.finding.specs.Begun.{base_of, AllLost, AllShelved, IsBegun, IsLost, IsShelved, IsShelvedLost};

use crate::begun::Begun;
use crate::candidate::{with_claim, with_its_reply};
use crate::choice::{cpus_of, rank};
use crate::offers::Offers;
use crate::shelved::Shelved;
use crate::trail::Trail;
use history::History;
use spec_machine::Machine;
use std::alloc::AllocError;
use undo_log::{are_like, are_same};

/// How many of the last orders are compared with one whatever its open calls are claimed to have been answered.
const NEAR: usize = 16;

/// Whether one of the orders is of the same calls to the same state, where it may differ in measurements if none is read. Those are asked of which
/// the same is claimed, and the last ones.
pub(crate) fn has_alike(
    history: &History,
    machine: &Machine,
    orders: &[Shelved],
    other: &Shelved,
    unread: bool,
) -> bool
    requires orders { AllShelved history.now.recorded (standing_of machine.now) orders.now }
    requires unread { IsTrue unread → ReadsNothing history.now.recorded.events }
    ensures { IsTrue result → AllLost history.now.recorded (standing_of machine.now) orders.now
        → IsShelvedLost history.now.recorded (standing_of machine.now) other.now }
{
    for place in 0..orders.len() {
        let one = &orders[place];
        let is_near = orders.len() - place <= NEAR;
        if !is_near && !one.claims.are(other.claims) {
            continue;
        }
        if is_alike(history, machine, one, other, unread) {
            return true;
        }
    }
    false
}

/// Whether one of the orders leads to the same state as the other, by calls that it lacks. The machine is as it was.
pub(crate) fn has_beginning(
    trail: &Trail,
    offers: &mut Offers,
    history: &History,
    machine: Machine,
    orders: &[Shelved],
    other: &Shelved,
    unread: bool,
) -> Result<(bool, Machine), AllocError>
    requires orders { AllShelved history.now.recorded (standing_of machine) orders.now }
    requires unread { IsTrue unread → ReadsNothing history.now.recorded.events }
    ensures base { IfOk result (λ found. standing_of found.1 ≡ standing_of machine) }
    ensures has { IfOk result (λ found. IsTrue found.0 → AllLost history.now.recorded (standing_of machine) orders.now
        → IsShelvedLost history.now.recorded (standing_of machine) other.now) }
{
    let mut machine = machine;
    'orders: for one in orders {
        let (leads, after) = leads_to(trail, offers, history, machine, one, other, unread)?;
        machine = after;
        if leads {
            return Ok((true, machine));
        }
    }
    Ok((false, machine))
}

fn are_of_same_calls(one: &Shelved, other: &Shelved) -> bool
    ensures { IsTrue result → one.now.front.counts ≡ other.now.front.counts }
{
    one.front.counts == other.front.counts
}

/// Whether both are of the same calls to the same state, which may differ in measurements where none is read.
fn is_alike(
    history: &History,
    machine: &Machine,
    one: &Shelved,
    other: &Shelved,
    unread: bool,
) -> bool
    requires begun { IsShelved history.now.recorded (standing_of machine.now) one.now }
    requires unread { IsTrue unread → ReadsNothing history.now.recorded.events }
    ensures { IsTrue result → IsShelvedLost history.now.recorded (standing_of machine.now) one.now
        → IsShelvedLost history.now.recorded (standing_of machine.now) other.now }
{
    if !are_of_same_calls(one, other) {
        return false;
    }
    if unread {
        are_like(machine, &one.patch, &other.patch)
    } else {
        are_same(machine, &one.patch, &other.patch)
    }
}

/// Whether the one leads to the same state as the other, by calls that it lacks: no more than one of each CPU. The machine is as it was.
fn leads_to(
    trail: &Trail,
    offers: &mut Offers,
    history: &History,
    machine: Machine,
    one: &Shelved,
    other: &Shelved,
    unread: bool,
) -> Result<(bool, Machine), AllocError>
    requires begun { IsShelved history.now.recorded (standing_of machine) one.now }
    requires unread { IsTrue unread → ReadsNothing history.now.recorded.events }
    ensures base { IfOk result (λ found. standing_of found.1 ≡ standing_of machine) }
    ensures leads { IfOk result (λ found. IsTrue found.0 → IsShelvedLost history.now.recorded (standing_of machine) one.now
        → IsShelvedLost history.now.recorded (standing_of machine) other.now) }
{
    if are_of_same_calls(one, other) {
        let stands = is_alike(history, &machine, one, other, unread);
        return Ok((stands, machine));
    }
    if !lacks_few(one, other) {
        return Ok((false, machine));
    }
    let copy = one.copy(trail.alloc)?;
    let mut longer = copy.at_hand(machine);
    let takes = takes_lacking(trail, offers, history, &mut longer, other)?;
    let (machine, longer) = longer.put_down();
    if !takes {
        return Ok((false, machine));
    }
    let alike = is_alike(history, &machine, &longer, other, unread);
    Ok((alike, machine))
}

/// Whether the one lacks no more than a call of each CPU, and has none that the other lacks.
fn lacks_few(one: &Shelved, other: &Shelved) -> bool {
    for cpu in 0..8 {
        let count = one.front.counts[cpu];
        let most = other.front.counts[cpu];
        if most < count || count.saturating_add(1) < most {
            return false;
        }
    }
    true
}

/// Makes the order longer by a call of each CPU of which it has fewer than the other, where these may come next, CPU by CPU, and are given
/// their replies.
fn takes_lacking(
    trail: &Trail,
    offers: &mut Offers,
    history: &History,
    begun: &mut Begun,
    other: &Shelved,
) -> Result<bool, AllocError>
    requires begun { IsBegun history.now.recorded begun.old }
    ensures begun { OnOk result (IsBegun history.now.recorded begun.new) }
    ensures base { OnOk result (base_of begun.new ≡ base_of begun.old) }
    ensures grown { IfOk result (λ takes. IsTrue takes → IsLost history.now.recorded begun.old → IsLost history.now.recorded begun.new) }
{
    'cpus: for cpu in 0..cpus_of(history) {
        if begun.front.counts[cpu as usize] < other.front.counts[cpu as usize] {
            if !takes_next(trail, offers, history, begun, other, cpu)? {
                return Ok(false);
            }
        }
    }
    Ok(true)
}

/// Makes the order longer by the next call of a CPU, where that may come next and is given its reply, or what it is claimed to have been answered
/// in the other order.
fn takes_next(
    trail: &Trail,
    offers: &mut Offers,
    history: &History,
    begun: &mut Begun,
    other: &Shelved,
    cpu: u8,
) -> Result<bool, AllocError>
    requires begun { IsBegun history.now.recorded begun.old }
    requires cpu { cpu < history.now.recorded.config.cpus }
    ensures begun { OnOk result (IsBegun history.now.recorded begun.new) }
    ensures base { OnOk result (base_of begun.new ≡ base_of begun.old) }
    ensures grown { IfOk result (λ takes. IsTrue takes → IsLost history.now.recorded begun.old → IsLost history.now.recorded begun.new) }
{
    let Some(first) = begun.front.first_at(history, 0) else {
        return Ok(false);
    };
    let Some(choice) = begun.front.next(history, cpu) else {
        return Ok(false);
    };
    if rank(&first) < choice.places.called {
        return Ok(false);
    }
    match choice.places.returned {
        Some(_) => begun.grow(offers, history, &with_its_reply(choice)),
        None => match trail.claim_of(other.last, cpu) {
            Some(reply) => begun.grow(offers, history, &with_claim(choice, reply)),
            None => Ok(false),
        },
    }
}
