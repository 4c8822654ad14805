//! Orders that are kept, by what leads to them.

ghost use Rattle.std.specs.Prelude.{◌≡◌};

use crate::begun::Begun;
use crate::claims::Claims;
use crate::front::{Front, is_up_to};
use crate::going::{Reach, Went};
use crate::offers::Offers;
use crate::trail::Trail;
use history::History;
use spec_machine::Machine;
use std::alloc::{AllocError, Global};
use undo_log::Patch;

/// An order that is kept: how far it is on each CPU, its last step, and what leads to the state after its lines from where the patches of
/// all orders lead from.
#[derive(Drop)]
pub(crate) struct Shelved {
    pub(crate) front: Front,
    pub(crate) last: usize,
    pub(crate) claims: Claims,
    pub(crate) patch: Patch,
}

impl Shelved {
    ghost use Rattle.std.specs.Prelude.{◌≡◌, IfOk};
    ghost use Rattle.undo_log.specs.Patches.{patched, standing_of, IsWhole};
    ghost use Rattle.finding.specs.Begun.{base_of};

    /// The same order once more.
    pub(crate) fn copy(&self, alloc: Global) -> Result<Shelved, AllocError>
        ensures front { IfOk result (λ order. order.front ≡ self.now.front) }
        ensures patch { IfOk result (λ order. patched order.patch ≡ patched self.now.patch) }
    {
        let patch = self.patch.copy(alloc)?;
        Ok(Shelved {
            front: same_front(&self.front),
            last: self.last,
            claims: self.claims,
            patch,
        })
    }

    /// Takes the order at hand: the machine goes there.
    pub(crate) fn at_hand(self, machine: Machine) -> Begun
        requires { IsWhole (patched self.patch (standing_of machine)) }
        ensures front { result.front ≡ self.front }
        ensures there { standing_of result.machine ≡ patched self.patch (standing_of machine) }
        ensures base { base_of result ≡ standing_of machine }
    {
        let Shelved {
            front,
            last,
            claims,
            patch,
        } = self;
        let mut machine = machine;
        let mut undo = patch;
        undo.exchange(&mut machine);
        Begun {
            front,
            machine,
            last,
            claims,
            undo,
        }
    }
}

/// Orders that are kept, their calls, and the machine from where their patches lead.
#[derive(Drop)]
pub(crate) struct Orders {
    pub(crate) begun: Vec<Shelved>,
    // no order was left out
    pub(crate) complete: bool,
    pub(crate) trail: Trail,
    pub(crate) machine: Machine,
}

/// Orders, and how far they went on.
#[derive(Drop)]
pub(crate) struct Ahead {
    pub(crate) orders: Orders,
    pub(crate) went: Went,
}

impl Orders {
    ghost use Rattle.std.specs.Prelude.{◌≡◌, ◌+◌, ◌<◌, ◌≤◌, [], length, IfOk, IsTrue};
    ghost use Rattle.verdict_laws.specs.Order.{LeadsNowhere};
    ghost use Rattle.verdict_laws.specs.Unread.{ReadsNothing};
    ghost use Rattle.undo_log.specs.Patches.{standing_of};
    ghost use Rattle.finding.specs.Begun.{AllReturned, AllShelved, AreOrders, OrdersLost};
    ghost use Rattle.finding.specs.Going.{IsAhead, IsWithin};

    /// The order in which no call stands yet.
    pub(crate) fn opening(alloc: Global, history: &History) -> Result<Orders, AllocError>
        ensures { IfOk result (λ orders. AreOrders history.now.recorded orders (LeadsNowhere history.now.recorded [])) }
    {
        let machine = Machine::new(alloc, history.config())?;
        let mut begun = Vec::new(alloc);
        begun.push(Shelved {
            front: Front::new(history),
            last: 0,
            claims: Claims::empty(),
            patch: Patch::none(alloc),
        })?;
        Ok(Orders {
            begun,
            complete: true,
            trail: Trail::new(alloc),
            machine,
        })
    }

    /// The same orders; where there is one, the machine goes there, and on as long as a call is tried alone. None is left where one is refused.
    pub(crate) fn advanced(
        self,
        alloc: Global,
        offers: &mut Offers,
        history: &History,
        reach: Reach,
    ) -> Result<Ahead, AllocError>
        requires shelved { AllShelved history.now.recorded (standing_of self.machine) self.begun.items }
        requires unread { IsTrue reach.unread → ReadsNothing history.now.recorded.events }
        requires returned { AllReturned history.now.recorded self.begun.items reach.from }
        requires order { reach.from < reach.until }
        requires until { reach.until ≤ length history.now.recorded.events }
        ensures orders { IfOk result (λ ahead. AreOrders history.now.recorded ahead.orders (OrdersLost history.now.recorded self)) }
        ensures ahead { IfOk result (λ ahead. IsAhead history.now.recorded ahead.orders ahead.went) }
        ensures within { IfOk result (λ ahead. IsWithin reach.until ahead.went) }
    {
        if self.begun.len() != 1 {
            return Ok(Ahead {
                orders: self,
                went: Went::Short(reach.from),
            });
        }
        let Orders {
            mut begun,
            complete,
            mut trail,
            machine,
        } = self;
        let Some(order) = begun.pop() else {
            unreachable!()
        };
        let mut order = order.at_hand(machine);
        let went = order.go_far(offers, history, reach, &mut trail)?;
        let Begun {
            front,
            machine,
            last,
            claims,
            ..
        } = order;
        let mut orders = Orders {
            begun,
            complete,
            trail,
            machine,
        };
        if let Went::Lost(_) = went {
            return Ok(Ahead { orders, went });
        }
        orders.begun.push(Shelved {
            front,
            last,
            claims,
            patch: Patch::none(alloc),
        })?;
        Ok(Ahead { orders, went })
    }

    /// Whether none lacks a call that returned up to the place.
    pub(crate) fn are_up_to(&self, history: &History, place: u32) -> bool
        requires { AllShelved history.now.recorded (standing_of self.now.machine) self.now.begun.items }
        ensures { IsTrue result → AllReturned history.now.recorded self.now.begun.items (place + 1) }
    {
        'orders: for order in self.begun.as_slice() {
            if !is_up_to(history, &order.front, place) {
                return false;
            }
        }
        true
    }
}

/// The same once more.
fn same_front(front: &Front) -> Front
    ensures { result ≡ front.now }
{
    Front {
        counts: front.counts,
        nexts: front.nexts,
        ranks: front.ranks,
        refusals: front.refusals,
        looks: front.looks,
    }
}
