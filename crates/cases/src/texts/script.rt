//! Scripts: what CPUs call, each call answered before the next is made, and committed in that order.

use crate::texts::functions::function_named;
use anyhow::{Context, Result};
use std::alloc::{AllocError, Global};
use std::fmt::Write;

const MOST_CPUS: usize = 8;

/// A run on a machine of 16 granules, and how often each CPU called.
#[derive(Drop)]
pub(crate) struct Script {
    pub(crate) history: String,
    pub(crate) certificate: String,
    calls: [u32; MOST_CPUS],
}

impl Script {
    /// Without a machine.
    pub(crate) fn none(alloc: Global) -> Script {
        Script {
            history: String::new(alloc),
            certificate: String::new(alloc),
            calls: [0; MOST_CPUS],
        }
    }

    /// `CPUS DELEGATED`, behind `rmh2 ` for version 2 or `rml1 ` for a large machine: so many granules, from 0x1000 on, are delegated by CPU 0.
    pub(crate) fn on(alloc: Global, machine: &str) -> Result<Script> {
        let (mark, granules, sizes) = match machine.split_once(' ') {
            Some(("rmh2", sizes)) => ("rmh2", 16, sizes),
            Some(("rml1", sizes)) => ("rml1", 1_048_576, sizes),
            _ => ("rmh1", 16, machine),
        };
        let (cpus, delegated) = sizes
            .split_once(' ')
            .context("no count of CPUs and one of delegated granules")?;
        let delegated = delegated
            .parse::<u8>()
            .context("no count of delegated granules")?;
        let mut script = Script::none(alloc);
        script.begin(alloc, mark, granules, cpus, delegated)?;
        Ok(script)
    }

    // The first line, and the calls that delegate so many granules.
    fn begin(
        &mut self,
        alloc: Global,
        mark: &str,
        granules: u64,
        cpus: &str,
        delegated: u8,
    ) -> Result<()> {
        write!(self.history, "{mark} {granules} {cpus}\n")?;
        for number in 0..delegated {
            self.delegate(alloc, (u64::from(number) + 1) * 0x1000)?;
        }
        Ok(())
    }

    fn delegate(&mut self, alloc: Global, granule: u64) -> Result<()> {
        let command = format!(in alloc; "c4000151 {granule:x}")?;
        self.push(0, command.as_str(), "ok")
    }

    pub(crate) fn copy(&self, alloc: Global) -> Result<Script, AllocError> {
        Ok(Script {
            history: String::from_str(alloc, self.history.as_str())?,
            certificate: String::from_str(alloc, self.certificate.as_str())?,
            calls: self.calls,
        })
    }

    /// Each line is one step, or several with `; ` between them.
    pub(crate) fn add(&mut self, alloc: Global, text: &str) -> Result<()> {
        for line in text.lines() {
            self.add_line(alloc, line)?;
        }
        Ok(())
    }

    fn add_line(&mut self, alloc: Global, line: &str) -> Result<()> {
        for step in line.split("; ") {
            self.step(alloc, step)?;
        }
        Ok(())
    }

    // A call, an arrow and its reply.
    fn step(&mut self, alloc: Global, step: &str) -> Result<()> {
        let (call, reply) = step.split_once(" -> ").context("a step without a reply")?;
        self.answered(alloc, call, reply)
    }

    /// A call with the reply that is claimed for it, which is `ok` where none is.
    pub(crate) fn claim(&mut self, alloc: Global, step: &str) -> Result<()> {
        let (call, reply) = step.split_once(" -> ").unwrap_or((step, "ok"));
        self.answered(alloc, call, reply)
    }

    // The call stands behind `1: ` where CPU 1 makes it.
    fn answered(&mut self, alloc: Global, call: &str, reply: &str) -> Result<()> {
        let (cpu, command) = match call.split_once(": ") {
            Some((cpu, command)) => (cpu.parse::<usize>().context("no CPU's number")?, command),
            None => (0, call),
        };
        let command = command_text(alloc, command)?;
        self.push(cpu, command.as_str(), reply)
    }

    // The command's text with its function's number, and the text of its reply.
    fn push(&mut self, cpu: usize, command: &str, reply: &str) -> Result<()> {
        let calls = self.calls.get_mut(cpu).context("no such CPU")?;
        let number = *calls;
        *calls = number.checked_add(1).context("too many calls")?;
        write!(
            self.history,
            "c {cpu} {number} {command}\nr {cpu} {number} {reply}\n"
        )?;
        write!(self.certificate, "k {cpu} {number}\n")?;
        Ok(())
    }
}

// The text of a command that is given by its name, with its words.
fn command_text(alloc: Global, command: &str) -> Result<String> {
    let (name, words) = command.split_once(' ').unwrap_or((command, ""));
    let number = function_named(name).context("no such function")?.number();
    Ok(match words {
        "" => format!(in alloc; "{number:08x}")?,
        _ => format!(in alloc; "{number:08x} {words}")?,
    })
}
