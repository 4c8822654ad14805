//! Replies that a machine is offered.

ghost use Rattle.std.specs.Prelude.{◌≡◌, ℕ, false, IfOk, IsTrue, OnOk};
ghost use Rattle.std.specs.Bool.{MatchBool};
ghost use Rattle.rmm_spec.specs.FirstFault.{IsRefused};
ghost use Rattle.rmm_spec.specs.Linearization.{IsFinished, IsOfItsKind, IsReplyOf, IsReturned, cpu_named, number_named};
ghost use Rattle.rmi_view.specs.Seen.{reply_seen};
ghost use Rattle.history.specs.Calls.{ArePlacesOf};
ghost use Rattle.finding.specs.Offering.{IsGiven};
ghost use Rattle.spec_machine.specs.Offers.{one_more};
ghost use Rattle.undo_log.specs.Patches.{patched, standing_of};
ghost use Rattle.spec_machine.specs.View.{state_of};

use crate::choice::Choice;
use crate::offers::Offers;
use history::History;
use rmi_view::ReplyRef;
use rmm_spec::Line;
use spec_machine::Machine;
use std::alloc::AllocError;
use undo_log::Patch;

/// Whether the machine gives the call its reply: the recorded one, or the one that the line claims. A log notes what the step replaces.
pub(crate) fn offer(
    offers: &mut Offers,
    machine: &mut Machine,
    history: &History,
    choice: Choice,
    line: &Line,
    log: &mut Patch,
) -> Result<bool, AllocError>
    requires places { ArePlacesOf history.now.recorded.events choice.cpu choice.number choice.places }
    requires of_cpu { cpu_named line.now ≡ choice.cpu }
    requires numbered { number_named line.now ≡ choice.number }
    requires kind { IsOfItsKind history.now.recorded.events line.now }
    ensures given { IfOk result (λ given. MatchBool given
        (IsGiven history.now.recorded.events line.now choice.places.called (state_of machine.old) (state_of machine.new))
        (IsRefused history.now.recorded.events (state_of machine.old) line.now)) }
    ensures kept { IfOk result (λ given. given ≡ false → state_of machine.new ≡ state_of machine.old) }
    ensures back { OnOk result (patched log.new (standing_of machine.new) ≡ patched log.old (standing_of machine.old)) }
{
    let _fact = history.well_formed();
    let Some(command) = history.command_at(choice.places.called as usize) else {
        unreachable!()
    };
    let reply = reply_of(history, choice, line);
    let given = offers.make(machine, choice.cpu, command, reply, log)?;
    Ok(given)
}

/// Whether the machine is known to refuse the line of the call without a step.
pub(crate) fn is_line_refused(
    offers: &mut Offers,
    machine: &Machine,
    history: &History,
    choice: Choice,
    line: &Line,
) -> bool
    requires places { ArePlacesOf history.now.recorded.events choice.cpu choice.number choice.places }
    requires of_cpu { cpu_named line.now ≡ choice.cpu }
    requires numbered { number_named line.now ≡ choice.number }
    requires kind { IsOfItsKind history.now.recorded.events line.now }
    ensures { IsTrue result → IsRefused history.now.recorded.events (state_of machine.now) line.now }
{
    let _fact = history.well_formed();
    let Some(command) = history.command_at(choice.places.called as usize) else {
        unreachable!()
    };
    let reply = reply_of(history, choice, line);
    offers.is_refused(machine, choice.cpu, command, reply)
}

/// The reply of a line: the recorded one, or the one that it claims.
fn reply_of<'a>(history: &'a History, choice: Choice, line: &'a Line) -> ReplyRef<'a>
    requires places { ArePlacesOf history.now.recorded.events choice.cpu choice.number choice.places }
    requires of_cpu { cpu_named line.now ≡ choice.cpu }
    requires numbered { number_named line.now ≡ choice.number }
    requires kind { IsOfItsKind history.now.recorded.events line.now }
    ensures { IsReplyOf history.now.recorded.events line.now (reply_seen result) }
{
    match line {
        Line::Keep { .. } => recorded(history, choice),
        Line::Unfinished { reply, .. } => ReplyRef::of(reply),
    }
}

/// The reply that the history records of a finished call.
fn recorded<'a>(history: &'a History, choice: Choice) -> ReplyRef<'a>
    requires places { ArePlacesOf history.now.recorded.events choice.cpu choice.number choice.places }
    requires finished { IsFinished history.now.recorded.events choice.cpu choice.number }
    ensures { (place : ℕ) × IsReturned history.now.recorded.events place choice.cpu choice.number (reply_seen result) }
{
    let Some(returned) = choice.places.returned else {
        unreachable!()
    };
    let Some(reply) = history.reply_at(returned as usize) else {
        unreachable!()
    };
    reply
}
