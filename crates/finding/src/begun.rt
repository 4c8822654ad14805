//! An order at hand.

use crate::candidate::Candidate;
use crate::claims::Claims;
use crate::front::{Front, is_up_to};
use crate::offering::offer;
use crate::offers::Offers;
use crate::only::next_alone;
use crate::scope::Scope;
use crate::shelved::Shelved;
use crate::trail::Trail;
use history::History;
use spec_machine::Machine;
use std::alloc::AllocError;
use undo_log::Patch;

/// How many calls are put in at most at a return: one of each CPU.
const CALLS: usize = 8;

/// How many calls of each CPU stand in an order, the machine after its lines, its last step, and what leads the machine back to where the
/// patches of kept orders lead from.
#[derive(Drop)]
pub(crate) struct Begun {
    pub(crate) front: Front,
    pub(crate) machine: Machine,
    pub(crate) last: usize,
    pub(crate) claims: Claims,
    pub(crate) undo: Patch,
}

impl Begun {
    ghost use Rattle.std.specs.Prelude.{◌≡◌, IfOk, IsTrue, OnOk};
    ghost use Rattle.std.specs.Bool.{MatchBool};
    ghost use Rattle.undo_log.specs.Patches.{patched, standing_of, IsWhole};
    ghost use Rattle.spec_machine.specs.View.{state_of};
    ghost use Rattle.verdict_laws.specs.Unread.{ReadsNothing};
    ghost use Rattle.finding.specs.Begun.{base_of, IsBegun, IsGrown, IsLost, Stays};
    ghost use Rattle.finding.specs.Waiting.{MayCome};

    /// Makes the order longer by a line, where the machine gives its call the reply, and returns whether it did.
    pub(crate) fn grow(
        &mut self,
        offers: &mut Offers,
        history: &History,
        next: &Candidate,
    ) -> Result<bool, AllocError>
        requires begun { IsBegun history.now.recorded self.old }
        requires next { MayCome history.now.recorded self.old.front.counts (state_of self.old.machine) next.now }
        ensures grown { IfOk result (λ given. MatchBool given
            (IsGrown history.now.recorded next.now.line self.old self.new)
            (Stays history.now.recorded next.now.line self.old self.new)) }
        ensures base { OnOk result (base_of self.new ≡ base_of self.old) }
    {
        let choice = next.choice;
        let given = offer(
            offers,
            &mut self.machine,
            history,
            choice,
            &next.line,
            &mut self.undo,
        )?;
        if given {
            self.front.set(history, choice.cpu, choice.number + 1);
        }
        Ok(given)
    }

    /// Makes the order longer by one call after another, as long as one is tried alone, until each call that returned up to the scope's place
    /// stands in it. Whether the machine gave each its reply.
    pub(crate) fn go_on(
        &mut self,
        offers: &mut Offers,
        history: &History,
        scope: Scope,
        trail: &mut Trail,
    ) -> Result<bool, AllocError>
        requires begun { IsBegun history.now.recorded self.old }
        requires unread { IsTrue scope.unread → ReadsNothing history.now.recorded.events }
        ensures begun { OnOk result (IsBegun history.now.recorded self.new) }
        ensures covers { IfOk result (λ given. MatchBool given
            (IsLost history.now.recorded self.new → IsLost history.now.recorded self.old)
            (IsLost history.now.recorded self.old)) }
    {
        'calls: for _call in 0..CALLS {
            if is_up_to(history, &self.front, scope.place) {
                return Ok(true);
            }
            let next = next_alone(trail.alloc, offers, history, self, scope.unread)?;
            let Some(next) = next else {
                return Ok(true);
            };
            let given = self.grow(offers, history, &next)?;
            if !given {
                return Ok(false);
            }
            self.last = trail.push(self.last, &next.line, scope.place as usize)?;
            self.claims = self.claims.with(&next.line);
        }
        Ok(true)
    }

    /// Puts the order down: the machine goes back, and the order's patch leads here.
    pub(crate) fn put_down(self) -> (Machine, Shelved)
        requires { IsWhole (base_of self) }
        ensures base { standing_of result.0 ≡ base_of self }
        ensures back { patched result.1.patch (standing_of result.0) ≡ standing_of self.machine }
        ensures front { result.1.front ≡ self.front }
    {
        let Begun {
            front,
            machine,
            last,
            claims,
            undo,
        } = self;
        let mut machine = machine;
        let mut patch = undo;
        patch.exchange(&mut machine);
        let order = Shelved {
            front,
            last,
            claims,
            patch,
        };
        (machine, order)
    }

    /// The machine, which goes back.
    pub(crate) fn back(self) -> Machine
        requires { IsWhole (base_of self) }
        ensures { standing_of result ≡ base_of self }
    {
        let (machine, _) = self.put_down();
        machine
    }
}
