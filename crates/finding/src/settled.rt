//! Calls that may come next at once, since they change nothing that is looked at.

ghost use Rattle.std.specs.Prelude.{◌≡◌, ◌≤◌, IfSome, IsTrue};
ghost use Rattle.history.specs.Calls.{ArePlacesOf};
ghost use Rattle.rmi_view.specs.Seen.{command_seen};
ghost use Rattle.spec_machine.specs.View.{state_of};
ghost use Rattle.verdict_laws.specs.Unread.{ReadsNothing};
ghost use Rattle.finding.specs.Choice.{IsNextCall};
ghost use Rattle.finding.specs.Front.{IsFront};
ghost use Rattle.finding.specs.Settled.{ComesAtOnce, IsGivenHere, IsSettledHere};

use crate::begun::Begun;
use crate::choice::{Choice, cpus_of};
use crate::refused::refused_choice;
use history::History;
use rmi_view::CommandRef;
use rmm_spec::{Accepted, FunctionId, Reply};

/// A CPU's next call that was made by the bound and has returned with the refusal that the specification gives it here, or as one that may come
/// at once: it only looks, or extends a measurement where none is read.
pub(crate) fn settled_choice(
    history: &History,
    begun: &Begun,
    bound: u32,
    unread: bool,
) -> Option<Choice>
    requires front { IsFront history.now.recorded begun.now.front }
    requires unread { IsTrue unread → ReadsNothing history.now.recorded.events }
    ensures next { IfSome result (IsNextCall history.now.recorded begun.now.front.counts 0) }
    ensures bound { IfSome result (λ choice. choice.places.called ≤ bound) }
    ensures settled { IfSome result (IsSettledHere history.now.recorded (state_of begun.now.machine)) }
{
    match refused_choice(history, &begun.machine, &begun.front, bound) {
        Some(choice) => Some(choice),
        None => given_choice(history, begun, bound, unread),
    }
}

/// The first CPU's next call that was made by the bound, may come at once, and has returned with the reply that is given here.
fn given_choice(history: &History, begun: &Begun, bound: u32, unread: bool) -> Option<Choice>
    requires front { IsFront history.now.recorded begun.now.front }
    requires unread { IsTrue unread → ReadsNothing history.now.recorded.events }
    ensures next { IfSome result (IsNextCall history.now.recorded begun.now.front.counts 0) }
    ensures bound { IfSome result (λ choice. choice.places.called ≤ bound) }
    ensures given { IfSome result (IsGivenHere history.now.recorded (state_of begun.now.machine)) }
{
    if begun.front.looks == 0 {
        return None;
    }
    for cpu in 0..cpus_of(history) {
        let Some(choice) = begun.front.next(history, cpu) else {
            continue;
        };
        if choice.looks
            && choice.places.called <= bound
            && is_given(history, begun, choice, unread)
        {
            return Some(choice);
        }
    }
    None
}

/// Whether a call may come as soon as its reply is given: it only looks, or extends a measurement where none is read.
fn comes_at_once(history: &History, command: CommandRef<'_>, unread: bool) -> bool
    requires { IsTrue unread → ReadsNothing history.now.recorded.events }
    ensures { IsTrue result → ComesAtOnce history.now.recorded.events (command_seen command.entry) }
{
    match command.function {
        FunctionId::RttReadEntry
        | FunctionId::MeasurementRead
        | FunctionId::RealmConfig
        | FunctionId::IpaStateGet => true,
        FunctionId::MeasurementExtend => unread,
        _ => false,
    }
}

/// Whether the call may come at once, and has returned with the reply that is given here.
fn is_given(history: &History, begun: &Begun, choice: Choice, unread: bool) -> bool
    requires places { ArePlacesOf history.now.recorded.events choice.cpu choice.number choice.places }
    requires unread { IsTrue unread → ReadsNothing history.now.recorded.events }
    ensures { IsTrue result → IsGivenHere history.now.recorded (state_of begun.now.machine) choice }
{
    let Some(returned) = choice.places.returned else {
        return false;
    };
    let Some(command) = history.command_at(choice.places.called as usize) else {
        unreachable!()
    };
    if !comes_at_once(history, command, unread) {
        return false;
    }
    let Some(reply) = history.reply_at(returned as usize) else {
        unreachable!()
    };
    match begun.machine.outcome(choice.cpu, &command.to_command()) {
        Ok(Accepted::Done { words, .. }) => reply.is(&Reply::Ok(words)),
        _ => false,
    }
}
