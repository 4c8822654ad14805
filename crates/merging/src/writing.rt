//! Both texts of a run, written.

ghost use Rattle.std.specs.Prelude.{◌≡◌, ◌+◌, ◌<◌, ◌≤◌, [], ◌∷◌, false, map, length, slice_index, vec_capacity, IfErr, OnOk, OnErr};
ghost use Rattle.std.specs.Io.KnownBytes.{Appends};
ghost use Rattle.rmm_spec.specs.CertificateText.{certificate_text, line_parts};
ghost use Rattle.rmm_spec.specs.HistoryText.{config_parts, event_parts, history_text, IsConfig};
ghost use Rattle.rmm_spec.specs.Text.{line_text, lines_text};
ghost use Rattle.merging.specs.Renamed.{lasts_in};
ghost use Rattle.merging.specs.SeenEvents.{happened_seen, moment_seen, HasFewWords};
ghost use Rattle.merging.specs.Table.{IsHappened};
ghost use Rattle.merging.specs.Merge.{event_lines, commit_lines, history_of, moment_text, AreFew, AreNumbered, GrowsByHistory, GrowsByCertificate};
ghost use Rattle.merging.specs.Naming.{told_slot};
ghost use Rattle.merging.specs.Run.{events_of, lines_of, events_merged, lines_merged, returns_in, stand_at, stands_with};
ghost use Rattle.merging.specs.Seen.{stand_seen, stands_in};
ghost use Rattle.merging.specs.Written.{outputs, Held, IsCut, IsUnwritten, LacksEnd};

use crate::cpu::Cpu;
use crate::fault::WriteFault;
use crate::lines::{push_header, push_moment};
use crate::naming::named;
use crate::output::{Failed, Output};
use crate::run::Run;
use crate::walk::{advance, idle_cpus};
use crate::{HappenedRef, Lasts, MomentRef};
use history::Config;
use std::alloc::Global;
use std::io::Write;

// How many bytes a line has at most.
const MOST_LINE: usize = 256;

impl Run {
    /// Writes the history and the certificate, each line by one call. Where memory is refused nothing is written, and where an output
    /// fails it has a beginning of its text, and so has the other one.
    pub fn write<H: Write, C: Write>(
        &self,
        alloc: Global,
        history: &mut Output<H>,
        certificate: &mut Output<C>,
    ) -> Result<(), WriteFault>
        requires history { history.old.has_failed ≡ false }
        requires certificate { certificate.old.has_failed ≡ false }
        ensures history { OnOk result (GrowsByHistory self.now history.old.contents history.new.contents) }
        ensures certificate { OnOk result (GrowsByCertificate self.now certificate.old.contents certificate.new.contents) }
        ensures going { OnOk result ((history.new.has_failed ≡ false) × (certificate.new.has_failed ≡ false)) }
        ensures fault { IfErr result (IsUnwritten self.now (outputs history.old history.new certificate.old certificate.new)) }
    {
        let mut line = Vec::with_capacity(alloc, MOST_LINE)?;
        self.write_texts(history, certificate, &mut line)
    }

    // Writes both texts, with a buffer that has room for any line.
    fn write_texts<H: Write, C: Write>(
        &self,
        history: &mut Output<H>,
        certificate: &mut Output<C>,
        line: &mut Vec<u8>,
    ) -> Result<(), WriteFault>
        requires history { history.old.has_failed ≡ false }
        requires certificate { certificate.old.has_failed ≡ false }
        requires room { MOST_LINE ≤ vec_capacity line.old }
        ensures history { OnOk result (GrowsByHistory self.now history.old.contents history.new.contents) }
        ensures certificate { OnOk result (GrowsByCertificate self.now certificate.old.contents certificate.new.contents) }
        ensures going { OnOk result ((history.new.has_failed ≡ false) × (certificate.new.has_failed ≡ false)) }
        ensures fault { IfErr result (IsCut (history_text (history_of self.now)) (certificate_text (lines_merged self.now.events))
            (outputs history.old history.new certificate.old certificate.new)) }
    {
        let _fact = self.config.cpus();
        let Ok(()) = write_header(history, line, self.config) else {
            return Err(WriteFault::History);
        };
        self.write_lines(history, certificate, line)
    }

    // Writes the line of each moment, behind the header of the history.
    fn write_lines<H: Write, C: Write>(
        &self,
        history: &mut Output<H>,
        certificate: &mut Output<C>,
        line: &mut Vec<u8>,
    ) -> Result<(), WriteFault>
        requires history { history.old.has_failed ≡ false }
        requires certificate { certificate.old.has_failed ≡ false }
        requires room { MOST_LINE ≤ vec_capacity line.old }
        ensures history { OnOk result (Appends history.old.contents history.new.contents
            (lines_text (map event_parts (events_merged self.now.events)))) }
        ensures certificate { OnOk result (Appends certificate.old.contents certificate.new.contents
            (lines_text (map line_parts (lines_merged self.now.events)))) }
        ensures going { OnOk result ((history.new.has_failed ≡ false) × (certificate.new.has_failed ≡ false)) }
        ensures fault { IfErr result (IsCut (lines_text (map event_parts (events_merged self.now.events)))
            (lines_text (map line_parts (lines_merged self.now.events)))
            (outputs history.old history.new certificate.old certificate.new)) }
    {
        let table = &self.table;
        let _fact = table.well_formed();
        let _fact = table.len();
        let mut cpus = idle_cpus();
        let mut lasts = Lasts::new();
        for stamp in 0..self.front.stamps {
            let Some(slot) = table.slot(stamp) else {
                unreachable!()
            };
            self.write_told(history, certificate, line, &mut cpus, &lasts, slot)?;
            lasts.take(slot);
        }
        Ok(())
    }

    // Writes the line of a moment, as it is told.
    fn write_told<H: Write, C: Write>(
        &self,
        history: &mut Output<H>,
        certificate: &mut Output<C>,
        line: &mut Vec<u8>,
        cpus: &mut [Cpu; 8],
        lasts: &Lasts,
        slot: HappenedRef<'_>,
    ) -> Result<(), WriteFault>
        requires history { history.old.has_failed ≡ false }
        requires certificate { certificate.old.has_failed ≡ false }
        requires room { MOST_LINE ≤ vec_capacity line.old }
        requires happened { IsHappened (happened_seen slot) }
        requires few { HasFewWords (moment_seen slot.moment) }
        requires few_calls { AreFew (stand_at (stands_in cpus.old)) }
        requires numbered { AreNumbered (stand_at (stands_in cpus.old)) }
        ensures history { OnOk result (Appends history.old.contents history.new.contents (event_lines (stand_at (stands_in cpus.old))
            (told_slot self.now.naming self.now.config.granules (lasts_in lasts.now) (happened_seen slot.entry)))) }
        ensures certificate { OnOk result (Appends certificate.old.contents certificate.new.contents
            (commit_lines (λ cpu. returns_in cpu self.now.events) (stand_at (stands_in cpus.old))
            (told_slot self.now.naming self.now.config.granules (lasts_in lasts.now) (happened_seen slot.entry)))) }
        ensures cpus { OnOk result (stand_at (stands_in cpus.new) ≡ stands_with (stand_at (stands_in cpus.old))
            (told_slot self.now.naming self.now.config.granules (lasts_in lasts.now) (happened_seen slot.entry))) }
        ensures going { OnOk result ((history.new.has_failed ≡ false) × (certificate.new.has_failed ≡ false)) }
        ensures room { MOST_LINE ≤ vec_capacity line.new }
        ensures fault { IfErr result (IsCut (event_lines (stand_at (stands_in cpus.old))
            (told_slot self.now.naming self.now.config.granules (lasts_in lasts.now) (happened_seen slot.entry)))
            (commit_lines (λ cpu. returns_in cpu self.now.events) (stand_at (stands_in cpus.old))
            (told_slot self.now.naming self.now.config.granules (lasts_in lasts.now) (happened_seen slot.entry)))
            (outputs history.old history.new certificate.old certificate.new)) }
    {
        let mut words = [0; 10];
        let event = named(
            &self.naming,
            self.config.granules(),
            &mut words,
            lasts,
            slot,
        );
        let at = usize::from(event.cpu);
        write_moment(
            history,
            certificate,
            line,
            &cpus[at],
            self.front.returns[at],
            event,
        )?;
        advance(cpus, event);
        Ok(())
    }
}

// Writes the first line of a history.
fn write_header<H: Write>(
    history: &mut Output<H>,
    line: &mut Vec<u8>,
    config: Config,
) -> Result<(), Failed>
    requires history { history.old.has_failed ≡ false }
    requires config { IsConfig config }
    requires room { MOST_LINE ≤ vec_capacity line.old }
    ensures ok { OnOk result (Appends history.old.contents history.new.contents (lines_text (config_parts config ∷ []))) }
    ensures going { OnOk result (history.new.has_failed ≡ false) }
    ensures err { OnErr result (LacksEnd (lines_text (config_parts config ∷ [])) history.old history.new) }
    ensures room { MOST_LINE ≤ vec_capacity line.new }
{
    line.clear();
    if push_header(line, config).is_err() {
        unreachable!()
    }
    history.write(line.as_slice())
}

// Writes the line of a moment of a CPU, which returns so often in all.
fn write_moment<H: Write, C: Write>(
    history: &mut Output<H>,
    certificate: &mut Output<C>,
    line: &mut Vec<u8>,
    cpu: &Cpu,
    returns: u32,
    slot: HappenedRef<'_>,
) -> Result<(), WriteFault>
    requires history { history.old.has_failed ≡ false }
    requires certificate { certificate.old.has_failed ≡ false }
    requires room { MOST_LINE ≤ vec_capacity line.old }
    requires numbered { cpu.now.calls < 1000000 }
    requires happened { IsHappened (happened_seen slot) }
    requires few { HasFewWords (moment_seen slot.moment) }
    ensures history { OnOk result (Appends history.old.contents history.new.contents
        (lines_text (map event_parts (events_of (stand_seen cpu.now) slot.entry.cpu (moment_seen slot.entry.moment))))) }
    ensures certificate { OnOk result (Appends certificate.old.contents certificate.new.contents
        (lines_text (map line_parts (lines_of returns (stand_seen cpu.now) slot.entry.cpu (moment_seen slot.entry.moment))))) }
    ensures going { OnOk result ((history.new.has_failed ≡ false) × (certificate.new.has_failed ≡ false)) }
    ensures room { MOST_LINE ≤ vec_capacity line.new }
    ensures fault { IfErr result (IsCut
        (lines_text (map event_parts (events_of (stand_seen cpu.now) slot.entry.cpu (moment_seen slot.entry.moment))))
        (lines_text (map line_parts (lines_of returns (stand_seen cpu.now) slot.entry.cpu (moment_seen slot.entry.moment))))
        (outputs history.old history.new certificate.old certificate.new)) }
{
    put_moment(line, cpu, returns, slot);
    match slot.moment {
        MomentRef::Call(_) => write_to_history(history, line.as_slice()),
        MomentRef::Commit(_) => write_to_certificate(certificate, line.as_slice()),
        MomentRef::Return(_) => write_to_history(history, line.as_slice()),
    }
}

// Writes a line of the history.
fn write_to_history<H: Write>(history: &mut Output<H>, line: &[u8]) -> Result<(), WriteFault>
    requires { history.old.has_failed ≡ false }
    ensures ok { OnOk result (Appends history.old.contents history.new.contents line.now) }
    ensures going { OnOk result (history.new.has_failed ≡ false) }
    ensures fault { IfErr result (λ fault. (other : Held) → other.has_failed ≡ false
        → IsCut line.now [] (outputs history.old history.new other other) fault) }
{
    match history.write(line) {
        Ok(()) => Ok(()),
        Err(Failed) => Err(WriteFault::History),
    }
}

// Writes a line of the certificate.
fn write_to_certificate<C: Write>(
    certificate: &mut Output<C>,
    line: &[u8],
) -> Result<(), WriteFault>
    requires { certificate.old.has_failed ≡ false }
    ensures ok { OnOk result (Appends certificate.old.contents certificate.new.contents line.now) }
    ensures going { OnOk result (certificate.new.has_failed ≡ false) }
    ensures fault { IfErr result (λ fault. (other : Held) → other.has_failed ≡ false
        → IsCut [] line.now (outputs other other certificate.old certificate.new) fault) }
{
    match certificate.write(line) {
        Ok(()) => Ok(()),
        Err(Failed) => Err(WriteFault::Certificate),
    }
}

// Puts the line of a moment into a buffer that has room for any.
fn put_moment(line: &mut Vec<u8>, cpu: &Cpu, returns: u32, slot: HappenedRef<'_>)
    requires room { MOST_LINE ≤ vec_capacity line.old }
    requires numbered { cpu.now.calls < 1000000 }
    requires happened { IsHappened (happened_seen slot) }
    requires few { HasFewWords (moment_seen slot.moment) }
    ensures line { line.new.items ≡ moment_text returns (stand_seen cpu.now) (happened_seen slot.entry) }
    ensures room { MOST_LINE ≤ vec_capacity line.new }
{
    line.clear();
    if push_moment(line, cpu, returns, slot).is_err() {
        unreachable!()
    }
}
