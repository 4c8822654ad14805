//! Which realm each granule belongs to.

use anyhow::{Result, bail};
use history::History;
use reasons::{OwnerRow, owner_report};
use rmm_spec::{Event, Tag};
use spec_machine::Machine;
use std::alloc::Global;
use std::fmt;
use std::fmt::Write;

/// A line for each granule of the machine on which the history's calls were made, each answered before the next.
pub(crate) fn owners(alloc: Global, history: &str) -> Result<String> {
    let machine = machine_after(alloc, &history::read(alloc, history.as_bytes())?)?;
    rows_of(alloc, &machine)
}

fn rows_of(alloc: Global, machine: &Machine) -> Result<String> {
    let mut rows = Vec::new(alloc);
    owner_report(machine, &mut rows)?;
    text_of(alloc, rows.as_slice())
}

fn text_of(alloc: Global, rows: &[OwnerRow]) -> Result<String> {
    let mut text = String::new(alloc);
    for row in rows {
        write!(text, "{}\n", RowText(*row))?;
    }
    Ok(text)
}

fn machine_after(alloc: Global, history: &History) -> Result<Machine> {
    let mut machine = Machine::new(alloc, history.config())?;
    let mut called = None;
    for place in 0..history.len() {
        match history.event(place) {
            Event::Called { command, .. } => called = Some(command),
            Event::Returned { cpu, reply, .. } => match &called {
                Some(command) if machine.offer(cpu, command, &reply)? => {}
                _ => bail!("a step that isn't taken"),
            },
        }
    }
    Ok(machine)
}

// `ADDRESS TAG`, and the realm's address where it belongs to one.
#[derive(Clone, Copy)]
struct RowText(OwnerRow);

impl fmt::Display for RowText {
    fn fmt<W: fmt::Write>(&self, f: &mut fmt::Formatter<W>) -> fmt::Result {
        let OwnerRow {
            granule,
            tag,
            realm,
        } = self.0;
        write!(f, "{:x} {}", granule.address(), tag_name(tag))?;
        match realm {
            Some(realm) => write!(f, " {:x}", realm.address()),
            None => Ok(()),
        }
    }
}

fn tag_name(tag: Tag) -> &'static str {
    match tag {
        Tag::Undelegated => "UNDELEGATED",
        Tag::Delegated => "DELEGATED",
        Tag::Rd => "RD",
        Tag::Rec => "REC",
        Tag::RecAux => "REC_AUX",
        Tag::Data => "DATA",
        Tag::Rtt => "RTT",
    }
}
