//! A CPU on a thread of its own.

ghost use Rattle.monitor.specs.Executed.{ArePaired};

use crate::monitors::job::Job;
use monitor::{CpuPass, CpuToken, Monitor, Open, Refused, Site};
use rmi_codec::has_text;
use rmi_view::copied_command;
use rmm_spec::Command;
use std::alloc::Global;
use std::sync::{Mutex, Wait};
use std::thread;

/// How often a CPU tries a command at most where the queue is full.
const TRIES: u32 = 1_000_000;

/// A CPU's token and pass.
#[derive(Drop)]
pub(crate) struct Cpu<S: Site> {
    pub(crate) token: CpuToken<S>,
    pub(crate) pass: CpuPass,
}

impl<S: Site> Cpu<S> {
    /// Executes a job, up to its end or a refusal. Where there is a lock, it is held around each try of a command.
    pub(crate) fn work<R: Wait>(
        &mut self,
        rt: &R,
        alloc: Global,
        monitor: &Monitor<S>,
        lock: Option<&Mutex<()>>,
        job: &Job,
    )
        requires { ArePaired monitor.now self.old.token self.old.pass }
        ensures { ArePaired monitor.now self.new.token self.new.pass }
    {
        for (place, command) in job.program.iter().enumerate() {
            if job.stop == Some(place) {
                self.token.stop();
            }
            if !self.execute(rt, alloc, monitor, lock, command) {
                break;
            }
        }
    }

    // Tries a command again as long as the queue is full. Whether it returned.
    fn execute<R: Wait>(
        &mut self,
        rt: &R,
        alloc: Global,
        monitor: &Monitor<S>,
        lock: Option<&Mutex<()>>,
        command: &Command,
    ) -> bool
        requires { ArePaired monitor.now self.old.token self.old.pass }
        ensures { ArePaired monitor.now self.new.token self.new.pass }
    {
        for _try in 0..TRIES {
            let refusal = match lock {
                None => self.refusal(rt, alloc, monitor, command),
                Some(lock) => {
                    let _turn = lock.lock(rt);
                    self.refusal(rt, alloc, monitor, command)
                }
            };
            match refusal {
                None => return true,
                Some(Refused::Full) => thread::yield_now(),
                Some(_) => return false,
            }
        }
        false
    }

    // Executes a command, and returns why it wasn't executed to its end. One that has no text stops the CPU.
    fn refusal<R: Wait>(
        &mut self,
        rt: &R,
        alloc: Global,
        monitor: &Monitor<S>,
        command: &Command,
    ) -> Option<Refused>
        requires { ArePaired monitor.now self.old.token self.old.pass }
        ensures { ArePaired monitor.now self.new.token self.new.pass }
    {
        let command = copied_command(command);
        if !has_text(&command) || self.pass.next_number() > 999_999 {
            return Some(Refused::Stopped);
        }
        monitor
            .execute(rt, alloc, &mut self.token, &mut self.pass, &Open, command)
            .err()
    }
}
