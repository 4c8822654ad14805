//! The orders that are longer by one line, taken into a round.

use crate::begun::Begun;
use crate::candidate::Candidate;
use crate::group::Group;
use crate::group_lines::group_lines;
use crate::offers::Offers;
use crate::round::Round;
use crate::shelved::Shelved;
use history::History;
use spec_machine::Machine;
use std::alloc::{AllocError, Global};

impl Round {
    ghost use Rattle.std.specs.Prelude.{◌≡◌, IfOk, OnOk};
    ghost use Rattle.undo_log.specs.Patches.{standing_of};
    ghost use Rattle.spec_machine.specs.View.{state_of};
    ghost use Rattle.finding.specs.Begun.{base_of, state_from, Covers, IsBegun, IsLost, IsRound, IsShelved, RoundLost};
    ghost use Rattle.finding.specs.Only.{IsFirstGroup};
    ghost use Rattle.finding.specs.Waiting.{AllLeadNowhere, AllMayCome, LeadsNowhereWith, MayCome};

    /// Takes the order that is longer by a line, where the machine gives the call the reply. The machine goes back.
    pub(crate) fn take_grown(
        &mut self,
        offers: &mut Offers,
        history: &History,
        begun: Begun,
        next: &Candidate,
    ) -> Result<Machine, AllocError>
        requires round { IsRound history.now.recorded (base_of begun) self.old }
        requires begun { IsBegun history.now.recorded begun }
        requires next { MayCome history.now.recorded begun.front.counts (state_of begun.machine) next.now }
        ensures base { IfOk result (λ machine. standing_of machine ≡ base_of begun) }
        ensures round { OnOk result (IsRound history.now.recorded (base_of begun) self.new) }
        ensures covers { OnOk result (Covers history.now.recorded (base_of begun) self.old self.new) }
        ensures taken { OnOk result (RoundLost history.now.recorded (base_of begun) self.new
            → LeadsNowhereWith history.now.recorded begun.front.counts (state_of begun.machine) next.now) }
    {
        let mut longer = begun;
        let given = longer.grow(offers, history, next)?;
        if !given {
            return Ok(longer.back());
        }
        longer.last = self
            .trail
            .push(longer.last, &next.line, self.scope.place as usize)?;
        longer.claims = longer.claims.with(&next.line);
        let (machine, grown) = longer.put_down();
        self.take(offers, history, machine, grown)
    }

    /// Takes the order that is longer by a line than one that is kept, where the machine gives the call the reply. The machine is as it was.
    fn take_longer(
        &mut self,
        alloc: Global,
        offers: &mut Offers,
        history: &History,
        machine: Machine,
        order: &Shelved,
        next: &Candidate,
    ) -> Result<Machine, AllocError>
        requires round { IsRound history.now.recorded (standing_of machine) self.old }
        requires order { IsShelved history.now.recorded (standing_of machine) order.now }
        requires next { MayCome history.now.recorded order.now.front.counts (state_from (standing_of machine) order.now) next.now }
        ensures base { IfOk result (λ after. standing_of after ≡ standing_of machine) }
        ensures round { OnOk result (IsRound history.now.recorded (standing_of machine) self.new) }
        ensures covers { OnOk result (Covers history.now.recorded (standing_of machine) self.old self.new) }
        ensures taken { OnOk result (RoundLost history.now.recorded (standing_of machine) self.new
            → LeadsNowhereWith history.now.recorded order.now.front.counts (state_from (standing_of machine) order.now) next.now) }
    {
        let copy = order.copy(alloc)?;
        self.take_grown(offers, history, copy.at_hand(machine), next)
    }

    /// Takes the orders that are longer by each of the lines than one that is kept. The machine is as it was.
    fn take_lines(
        &mut self,
        alloc: Global,
        offers: &mut Offers,
        history: &History,
        machine: Machine,
        order: &Shelved,
        lines: &[Candidate],
    ) -> Result<Machine, AllocError>
        requires round { IsRound history.now.recorded (standing_of machine) self.old }
        requires order { IsShelved history.now.recorded (standing_of machine) order.now }
        requires lines { AllMayCome history.now.recorded order.now.front.counts (state_from (standing_of machine) order.now) lines.now }
        ensures base { IfOk result (λ after. standing_of after ≡ standing_of machine) }
        ensures round { OnOk result (IsRound history.now.recorded (standing_of machine) self.new) }
        ensures covers { OnOk result (Covers history.now.recorded (standing_of machine) self.old self.new) }
        ensures taken { OnOk result (RoundLost history.now.recorded (standing_of machine) self.new
            → AllLeadNowhere history.now.recorded order.now.front.counts (state_from (standing_of machine) order.now) lines.now) }
    {
        let mut machine = machine;
        'lines: for next in lines {
            machine = self.take_longer(alloc, offers, history, machine, order, next)?;
        }
        Ok(machine)
    }

    /// Takes each order that is longer by a line of the group, or leaves them out where there are too many. The machine goes back.
    pub(crate) fn take_group(
        &mut self,
        alloc: Global,
        offers: &mut Offers,
        history: &History,
        begun: Begun,
        group: Group,
    ) -> Result<Machine, AllocError>
        requires round { IsRound history.now.recorded (base_of begun) self.old }
        requires begun { IsBegun history.now.recorded begun }
        requires group { IsFirstGroup history.now.recorded begun group }
        ensures base { IfOk result (λ machine. standing_of machine ≡ base_of begun) }
        ensures round { OnOk result (IsRound history.now.recorded (base_of begun) self.new) }
        ensures covers { OnOk result (Covers history.now.recorded (base_of begun) self.old self.new) }
        ensures taken { OnOk result (RoundLost history.now.recorded (base_of begun) self.new → IsLost history.now.recorded begun) }
    {
        let Some(mut lines) = group_lines(alloc, offers, history, &begun, group)? else {
            self.complete = false;
            return Ok(begun.back());
        };
        let Some(last) = lines.pop() else {
            return Ok(begun.back());
        };
        if lines.is_empty() {
            return self.take_grown(offers, history, begun, &last);
        }
        let (machine, order) = begun.put_down();
        let machine = self.take_lines(alloc, offers, history, machine, &order, lines.as_slice())?;
        self.take_grown(offers, history, order.at_hand(machine), &last)
    }
}
