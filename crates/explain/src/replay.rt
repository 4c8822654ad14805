//! The lines before a failing one, taken once more.

ghost use Rattle.std.specs.Prelude.{◌+◌, ◌<◌, length, take, OnOk};
ghost use Rattle.certificate.specs.LineRef.{line_seen};
ghost use Rattle.history.specs.Calls.{ArePlacesOf};
ghost use Rattle.rmi_view.specs.Seen.{reply_seen};
ghost use Rattle.rmm_spec.specs.FirstFault.{Passes};
ghost use Rattle.rmm_spec.specs.Linearization.{IsOfItsKind, IsReplyOf, cpu_named, number_named};
ghost use Rattle.explain.specs.Told.{IsPassing};
ghost use Rattle.spec_machine.specs.View.{state_of};

use crate::earlier::called_by;
use certificate::{Certificate, LineRef};
use history::{History, Places};
use rmi_view::ReplyRef;
use spec_machine::Machine;
use std::alloc::AllocError;

/// Takes the step of one of the lines that pass, after those before it.
pub(crate) fn take_line(
    machine: &mut Machine,
    history: &History,
    certificate: &Certificate,
    i: usize,
) -> Result<(), AllocError>
    requires passing { IsPassing history.now.recorded certificate.now.lines i }
    requires before { Passes history.now.recorded (take i certificate.now.lines) (state_of machine.old) }
    requires within { i < length certificate.now.lines }
    ensures { OnOk result (Passes history.now.recorded (take (i + 1) certificate.now.lines) (state_of machine.new)) }
{
    let _fact = history.well_formed();
    let line = certificate.line(i);
    let (cpu, number) = called_by(line);
    let Some(places) = history.places_of(cpu, number) else {
        unreachable!()
    };
    let Some(command) = history.command_at(places.called as usize) else {
        unreachable!()
    };
    let reply = claimed_reply(history, line, places);
    let given = machine.offer_seen(cpu, command, reply)?;
    if !given {
        unreachable!()
    }
    Ok(())
}

/// The reply that a line of its call's kind claims: the recorded one, or an unfinished line's own.
pub(crate) fn claimed_reply<'a>(
    history: &'a History,
    line: LineRef<'a>,
    places: Places,
) -> ReplyRef<'a>
    requires places { ArePlacesOf history.now.recorded.events (cpu_named (line_seen line)) (number_named (line_seen line)) places }
    requires kind { IsOfItsKind history.now.recorded.events (line_seen line) }
    ensures { IsReplyOf history.now.recorded.events (line_seen line.entry) (reply_seen result) }
{
    match line {
        LineRef::Keep { .. } => {
            let Some(returned) = places.returned else {
                unreachable!()
            };
            let Some(reply) = history.reply_at(returned as usize) else {
                unreachable!()
            };
            reply
        }
        LineRef::Unfinished { reply, .. } => ReplyRef::of(reply),
    }
}
