//! From the orders that have all calls which returned before a return to those that have its call too.

ghost use Rattle.std.specs.Prelude.{◌≡◌, IfOk, IfSome, IsTrue};
ghost use Rattle.verdict_laws.specs.Unread.{ReadsNothing};
ghost use Rattle.undo_log.specs.Patches.{standing_of};
ghost use Rattle.finding.specs.Begun.{AllShelved, AreOrders, IsBegunAt, IsRound, OrdersLost, RoundLost};

use crate::alike::{has_alike, has_beginning};
use crate::begun::Begun;
use crate::front::is_up_to;
use crate::offers::Offers;
use crate::only::{NextStep, next_step};
use crate::scope::Scope;
use crate::shelved::{Orders, Shelved};
use crate::trail::Trail;
use crate::watch::{Advance, Pace, Watch};
use history::History;
use spec_machine::Machine;
use std::alloc::{AllocError, Global};

/// How many orders that lack a call are kept, for each that lacks none.
const LACKING: usize = 4;

/// How many calls may come before the one that returned, and that one.
const DEPTH: u32 = 9;

/// Orders that lack a call which returned up to the scope's place, of one length, and those that lack none.
#[derive(Drop)]
pub(crate) struct Round {
    pub(crate) scope: Scope,
    // no order was left out
    pub(crate) complete: bool,
    pub(crate) lacking: Vec<Shelved>,
    pub(crate) next: Vec<Shelved>,
    pub(crate) trail: Trail,
}

impl Round {
    ghost use Rattle.std.specs.Prelude.{◌≡◌, IfOk, IfSome, IsTrue, OnOk};
    ghost use Rattle.undo_log.specs.Patches.{standing_of};
    ghost use Rattle.finding.specs.Begun.{base_of, Covers, IsBegun, IsLost, IsRound, IsShelved, IsShelvedLost, RoundLost};

    /// Takes an order, unless another stands for it or there is no room for it. The machine is as it was.
    pub(crate) fn take(
        &mut self,
        offers: &mut Offers,
        history: &History,
        machine: Machine,
        order: Shelved,
    ) -> Result<Machine, AllocError>
        requires round { IsRound history.now.recorded (standing_of machine) self.old }
        requires order { IsShelved history.now.recorded (standing_of machine) order }
        ensures base { IfOk result (λ after. standing_of after ≡ standing_of machine) }
        ensures round { OnOk result (IsRound history.now.recorded (standing_of machine) self.new) }
        ensures covers { OnOk result (Covers history.now.recorded (standing_of machine) self.old self.new) }
        ensures taken { OnOk result (RoundLost history.now.recorded (standing_of machine) self.new
            → IsShelvedLost history.now.recorded (standing_of machine) order) }
    {
        if is_up_to(history, &order.front, self.scope.place) {
            self.take_next(offers, history, machine, order)
        } else {
            self.take_lacking(history, &machine, order)?;
            Ok(machine)
        }
    }

    /// Takes an order that lacks no call, unless another leads to it or there is no room for it. The machine is as it was.
    fn take_next(
        &mut self,
        offers: &mut Offers,
        history: &History,
        machine: Machine,
        order: Shelved,
    ) -> Result<Machine, AllocError>
        requires round { IsRound history.now.recorded (standing_of machine) self.old }
        requires order { IsShelved history.now.recorded (standing_of machine) order }
        ensures base { IfOk result (λ after. standing_of after ≡ standing_of machine) }
        ensures round { OnOk result (IsRound history.now.recorded (standing_of machine) self.new) }
        ensures covers { OnOk result (Covers history.now.recorded (standing_of machine) self.old self.new) }
        ensures taken { OnOk result (RoundLost history.now.recorded (standing_of machine) self.new
            → IsShelvedLost history.now.recorded (standing_of machine) order) }
    {
        let next = self.next.as_slice();
        let (stands, machine) = has_beginning(
            &self.trail,
            offers,
            history,
            machine,
            next,
            &order,
            self.scope.unread,
        )?;
        if stands {
            return Ok(machine);
        }
        if self.next.len() >= self.scope.most {
            self.complete = false;
            return Ok(machine);
        }
        self.next.push(order)?;
        Ok(machine)
    }

    /// Takes an order that lacks a call, unless another is of the same calls to the same state or there is no room for it.
    fn take_lacking(
        &mut self,
        history: &History,
        machine: &Machine,
        order: Shelved,
    ) -> Result<(), AllocError>
        requires round { IsRound history.now.recorded (standing_of machine.now) self.old }
        requires order { IsShelved history.now.recorded (standing_of machine.now) order }
        ensures round { OnOk result (IsRound history.now.recorded (standing_of machine.now) self.new) }
        ensures covers { OnOk result (Covers history.now.recorded (standing_of machine.now) self.old self.new) }
        ensures taken { OnOk result (RoundLost history.now.recorded (standing_of machine.now) self.new
            → IsShelvedLost history.now.recorded (standing_of machine.now) order) }
    {
        let lacking = self.lacking.as_slice();
        if has_alike(history, machine, lacking, &order, self.scope.unread) {
            return Ok(());
        }
        if self.lacking.len() >= self.scope.most.saturating_mul(LACKING) {
            self.complete = false;
            return Ok(());
        }
        self.lacking.push(order)?;
        Ok(())
    }

    /// Takes each order that is longer by a line. The machine goes back.
    pub(crate) fn take_each(
        &mut self,
        alloc: Global,
        offers: &mut Offers,
        history: &History,
        begun: Begun,
    ) -> Result<Machine, AllocError>
        requires round { IsRound history.now.recorded (base_of begun) self.old }
        requires begun { IsBegun history.now.recorded begun }
        ensures base { IfOk result (λ machine. standing_of machine ≡ base_of begun) }
        ensures round { OnOk result (IsRound history.now.recorded (base_of begun) self.new) }
        ensures covers { OnOk result (Covers history.now.recorded (base_of begun) self.old self.new) }
        ensures taken { OnOk result (RoundLost history.now.recorded (base_of begun) self.new → IsLost history.now.recorded begun) }
    {
        match next_step(history, &begun, self.scope.unread) {
            NextStep::Only(next) => self.take_grown(offers, history, begun, &next),
            NextStep::Group(group) => self.take_group(alloc, offers, history, begun, group),
            NextStep::Nothing => {
                self.complete = false;
                Ok(begun.back())
            }
        }
    }

    /// How far it is, with one order at hand and so many left to make longer.
    fn advance(&self, left: usize) -> Advance {
        let kept = self.lacking.len().saturating_add(self.next.len());
        Advance {
            events: self.scope.place as usize,
            orders: kept.saturating_add(left).saturating_add(1),
        }
    }

    /// Makes the orders that lack a call longer by a line each; none where the watch stops it. The machine is as it was.
    fn deeper<W: Watch>(
        self,
        alloc: Global,
        offers: &mut Offers,
        history: &History,
        machine: Machine,
        watch: &mut W,
        pace: &mut Pace,
    ) -> Result<Option<(Round, Machine)>, AllocError>
        requires { IsRound history.now.recorded (standing_of machine) self }
        ensures base { IfOk result (λ deeper. IfSome deeper (λ d. standing_of d.1 ≡ standing_of machine)) }
        ensures round { IfOk result (λ deeper. IfSome deeper (λ d. IsRound history.now.recorded (standing_of machine) d.0)) }
        ensures covers { IfOk result (λ deeper. IfSome deeper (λ d. Covers history.now.recorded (standing_of machine) self d.0)) }
    {
        let mut round = self;
        let mut left = round.lacking;
        round.lacking = Vec::new(alloc);
        let mut machine = machine;
        'orders: while let Some(order) = left.pop() {
            if pace.is_due_at(offers.count()) && !watch.goes_on(round.advance(left.len())) {
                return Ok(None);
            }
            let begun = order.at_hand(machine);
            machine = round.take_each(alloc, offers, history, begun)?;
        }
        Ok(Some((round, machine)))
    }
}

/// The orders that lack no call which returned up to the round's place: where they are all and lead nowhere, all of the round do. None where the
/// watch stops it, or where one lacks such a call still after as many calls as there are CPUs.
pub(crate) fn next_orders<W: Watch>(
    alloc: Global,
    offers: &mut Offers,
    history: &History,
    machine: Machine,
    first: Round,
    watch: &mut W,
    pace: &mut Pace,
) -> Result<Option<Orders>, AllocError>
    requires { IsRound history.now.recorded (standing_of machine) first }
    ensures { IfOk result (λ next. IfSome next (λ orders. AreOrders history.now.recorded orders
        (RoundLost history.now.recorded (standing_of machine) first))) }
{
    let mut round = first;
    let mut machine = machine;
    'depths: for _depth in 0..DEPTH {
        if round.lacking.is_empty() {
            let Round {
                complete,
                next,
                trail,
                ..
            } = round;
            return Ok(Some(Orders {
                begun: next,
                complete,
                trail,
                machine,
            }));
        }
        let deeper = round.deeper(alloc, offers, history, machine, watch, pace)?;
        let Some((further, after)) = deeper else {
            return Ok(None);
        };
        round = further;
        machine = after;
    }
    Ok(None)
}

/// The orders that lack a call which returned up to the place, and the others. The machine is as it was.
pub(crate) fn sorted(
    alloc: Global,
    history: &History,
    kept: Orders,
    scope: Scope,
) -> Result<(Round, Machine), AllocError>
    requires kept { AllShelved history.now.recorded (standing_of kept.machine) kept.begun.items }
    requires unread { IsTrue scope.unread → ReadsNothing history.now.recorded.events }
    ensures base { IfOk result (λ s. standing_of s.1 ≡ standing_of kept.machine) }
    ensures round { IfOk result (λ s. IsRound history.now.recorded (standing_of kept.machine) s.0) }
    ensures covers { IfOk result (λ s. RoundLost history.now.recorded (standing_of kept.machine) s.0 → OrdersLost history.now.recorded kept) }
{
    let Orders {
        begun,
        complete,
        trail,
        machine,
    } = kept;
    let mut left = begun;
    let mut round = Round {
        scope,
        complete,
        lacking: Vec::new(alloc),
        next: Vec::new(alloc),
        trail,
    };
    'orders: while let Some(order) = left.pop() {
        if is_up_to(history, &order.front, scope.place) {
            round.next.push(order)?;
        } else {
            round.lacking.push(order)?;
        }
    }
    Ok((round, machine))
}
