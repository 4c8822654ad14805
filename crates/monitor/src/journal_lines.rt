//! The journal of a run as a certificate.

ghost use Rattle.std.specs.Prelude.{◌≡◌, ◌<◌, ◌≤◌, length, IfOk, OnErr};
ghost use Rattle.std.specs.List.{AllByRecursion};
ghost use Rattle.rmm_spec.specs.CertificateText.{IsLine};
ghost use Rattle.rmm_spec.specs.Run as run;
ghost use Rattle.rmm_spec.specs.World.{line_for};
ghost use Rattle.rmi_view.specs.Seen.{HasFewWords, command_seen, reply_seen};
ghost use Rattle.event_queue.specs.Numbered.{lines_for};

use certificate::{Certificate, Line, MOST_LINES};
use command_log::Logged;
use commit_tickets::{Journal, Numbers, Site};
use history::History;
use rmi_codec::reply_has_text;
use std::alloc::{AllocError, Global};

/// The journal's entries as the lines of a certificate of the history.
pub(crate) fn certificate_of<S: Site>(
    alloc: Global,
    journal: &Journal<S>,
    history: &History,
) -> Result<Certificate, AllocError>
    requires few { length journal.now.entries ≤ MOST_LINES }
    requires cpus { AllByRecursion (λ (entry : run.JournalEntry). entry.cpu < 8) journal.now.entries }
    ensures short { OnErr result (0 < length journal.now.entries) }
    ensures written { IfOk result (λ certificate. certificate.lines ≡ lines_for history.now.recorded.events journal.now.entries) }
{
    let mut numbers = Numbers::new();
    let mut certificate = Certificate::new(alloc);
    for ticket in 0..journal.len() {
        let entry = journal.entry(ticket);
        let number = numbers.count(entry.mark) as u32;
        certificate.push(line_of(history, entry, number))?;
    }
    Ok(certificate)
}

// The line of a CPU's commit of that number: kept where its return is recorded, and else unfinished with its reply.
fn line_of(history: &History, entry: Logged<'_, u8>, number: u32) -> Line
    requires cpu { entry.mark < 8 }
    requires number { number < 1000000 }
    requires few { HasFewWords (reply_seen entry.reply) }
    ensures line { result ≡ line_for history.now.recorded.events
        (record { cpu = entry.entry.mark; number = number; command = command_seen entry.entry.command; given = reply_seen entry.entry.reply }) }
    ensures is_line { IsLine result }
{
    let cpu = entry.mark;
    if history.has_returned(cpu, number) {
        return Line::Keep { cpu, number };
    }
    let reply = entry.reply.to_reply();
    let _fact = reply_has_text(&reply);
    Line::Unfinished { cpu, number, reply }
}
