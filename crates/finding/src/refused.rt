//! Calls that were refused, and are refused where an order has come to.

ghost use Rattle.std.specs.Prelude.{◌≤◌, IfSome, IsTrue};
ghost use Rattle.history.specs.Calls.{ArePlacesOf};
ghost use Rattle.spec_machine.specs.View.{state_of};
ghost use Rattle.finding.specs.Choice.{IsNextCall};
ghost use Rattle.finding.specs.Front.{IsFront};
ghost use Rattle.finding.specs.Settled.{IsRefusedHere};

use crate::choice::{Choice, cpus_of};
use crate::front::Front;
use history::History;
use rmi_view::ReplyRef;
use spec_machine::Machine;

/// The first CPU's next call that was made by the bound, and has returned with the refusal that the specification gives it here.
pub(crate) fn refused_choice(
    history: &History,
    machine: &Machine,
    front: &Front,
    bound: u32,
) -> Option<Choice>
    requires { IsFront history.now.recorded front.now }
    ensures next { IfSome result (IsNextCall history.now.recorded front.now.counts 0) }
    ensures bound { IfSome result (λ choice. choice.places.called ≤ bound) }
    ensures refused { IfSome result (IsRefusedHere history.now.recorded (state_of machine.now)) }
{
    if front.refusals == 0 {
        return None;
    }
    for cpu in 0..cpus_of(history) {
        let Some(choice) = front.next(history, cpu) else {
            continue;
        };
        if choice.refusal && choice.places.called <= bound && is_refused(history, machine, choice) {
            return Some(choice);
        }
    }
    None
}

/// Whether the call has returned with the refusal that the specification gives it here.
fn is_refused(history: &History, machine: &Machine, choice: Choice) -> bool
    requires { ArePlacesOf history.now.recorded.events choice.cpu choice.number choice.places }
    ensures { IsTrue result → IsRefusedHere history.now.recorded (state_of machine.now) choice }
{
    let Some(returned) = choice.places.returned else {
        return false;
    };
    let Some(reply) = history.reply_at(returned as usize) else {
        unreachable!()
    };
    if let ReplyRef::Ok(_) = reply {
        return false;
    }
    let Some(command) = history.command_at(choice.places.called as usize) else {
        unreachable!()
    };
    match machine.outcome(choice.cpu, &command.to_command()) {
        Err(refusal) => reply.is(&refusal.reply()),
        Ok(_) => false,
    }
}
