//! The steps of the scripts, each offered to the specification machine and to the flat one.

use crate::texts::case::Case;
use crate::texts::case_text::{CaseText, cases_of};
use anyhow::{Context, Result};
use flat_machine::{Stepped, TwoMachines};
use history::History;
use rmm_spec::{Command, Event, Reply};
use std::alloc::Global;
use std::fs;
use std::rt::Files;

/// How many steps were offered, and to how many the machines answered alike.
#[derive(Clone, Copy, Default)]
struct Counts {
    steps: u64,
    same: u64,
}

/// Offers each step of each script in the files to both machines, and prints to how many they answer alike. Whether to all.
pub(crate) fn compare_scripts<R: Files + Print + AllocGlobal>(
    rt: &R,
    files: &[String],
) -> Result<bool> {
    let mut counts = Counts::default();
    for file in files {
        let text = fs::read_to_string(rt, file.as_str()).context(file.as_str())?;
        add_file(rt.alloc(), text.as_str(), &mut counts)?;
    }
    let Counts { steps, same } = counts;
    println!(rt; "scripts: {same} of {steps} steps")?;
    Ok(same == steps)
}

fn add_file(alloc: Global, text: &str, counts: &mut Counts) -> Result<()> {
    for case in &cases_of(alloc, text)? {
        add_case(alloc, case, counts)?;
    }
    Ok(())
}

fn add_case(alloc: Global, text: &CaseText<'_>, counts: &mut Counts) -> Result<()> {
    let mut case = Case::new(alloc);
    for statement in &text.statements {
        case.take(alloc, statement)?;
        if statement.word.is_script() {
            add_script(alloc, case.history(), counts)?;
        }
    }
    Ok(())
}

// Each call of a script is answered before the next is made.
fn add_script(alloc: Global, history: &str, counts: &mut Counts) -> Result<()> {
    let recorded = history::read(alloc, history.as_bytes())?;
    let mut machines = TwoMachines::new(alloc, recorded.config())?;
    add_steps(&recorded, &mut machines, counts)
}

fn add_steps(recorded: &History, machines: &mut TwoMachines, counts: &mut Counts) -> Result<()> {
    let mut called = None;
    for place in 0..recorded.len() {
        match recorded.event(place) {
            Event::Called { command, .. } => called = Some(command),
            Event::Returned { cpu, reply, .. } => {
                let stepped = offer(machines, cpu, &called, &reply)?;
                counts.add(stepped);
            }
        }
    }
    Ok(())
}

fn offer(
    machines: &mut TwoMachines,
    cpu: u8,
    called: &Option<Command>,
    reply: &Reply,
) -> Result<Stepped> {
    let command = called.as_ref().context("a return without a call")?;
    Ok(machines.offer(cpu, command, reply)?)
}

impl Counts {
    fn add(&mut self, stepped: Stepped) {
        self.steps = self.steps.wrapping_add(1);
        self.same = self
            .same
            .wrapping_add(u64::from(stepped != Stepped::Differs));
    }
}
