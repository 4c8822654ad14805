//! A CPU with its program, and what its thread does.

ghost use Rattle.std.specs.Prelude.{◌≡◌, ◌≤◌, IfErr, IsTrue};
ghost use Rattle.rmm_spec.specs.CommandText.{IsCommand};
ghost use Rattle.monitor.specs.Executed.{ArePaired, FullAtSomeMoment, Leaves};
ghost use Rattle.monitor_runs.specs.Worked.{CanWork, HasWorked};

use monitor::{CpuPass, CpuToken, Done, Monitor, Open, Refused, Site};
use rmi_view::copied_command;
use rmm_spec::Command;
use std::alloc::Global;
use std::sync::Wait;
use std::thread;

/// How often a CPU tries a command again at most, where the queue is full.
const TRIES_AGAIN: u32 = 1_000_000;

/// A CPU's token, its pass and its program.
#[derive(Drop)]
pub(crate) struct Cpu<S: Site> {
    pub(crate) token: CpuToken<S>,
    pub(crate) pass: CpuPass,
    pub(crate) program: Vec<Command>,
}

impl<S: Site> Cpu<S> {
    /// Executes the program, up to its end, a commit that is refused, or a queue that stays full.
    pub(crate) fn work<R: Wait>(
        self,
        rt: &R,
        alloc: Global,
        monitor: &Monitor<S>,
    ) -> (CpuToken<S>, CpuPass)
        requires { CanWork monitor.now self.program.items self.token self.pass }
        ensures { HasWorked monitor.now self.token.cpu self.program.items result.0 result.1 }
    {
        let Cpu {
            mut token,
            mut pass,
            program,
        } = self;
        for command in &program {
            let Ok(_) = execute(rt, alloc, monitor, &mut token, &mut pass, command) else {
                return (token, pass);
            };
        }
        (token, pass)
    }
}

// Executes a command, and tries again as long as the queue is full.
fn execute<S: Site, R: Wait>(
    rt: &R,
    alloc: Global,
    monitor: &Monitor<S>,
    token: &mut CpuToken<S>,
    pass: &mut CpuPass,
    command: &Command,
) -> Result<Done, Refused>
    requires pair { ArePaired monitor.now token.old pass.old }
    requires command { IsCommand command.now }
    requires number { pass.old.stand.next ≤ 999999 }
    ensures leaves { Leaves command.now token.old pass.old result token.new pass.new }
    ensures pair { ArePaired monitor.now token.new pass.new }
    ensures stopped { IfErr result (λ refused. refused ≡ Refused.Stopped → IsTrue token.old.is_stopped) }
    ensures full { FullAtSomeMoment monitor.now.capacity pass.new result }
{
    for _try in 0..TRIES_AGAIN {
        match monitor.execute(rt, alloc, token, pass, &Open, copied_command(command)) {
            Err(Refused::Full) => thread::yield_now(),
            answer => return answer,
        }
    }
    monitor.execute(rt, alloc, token, pass, &Open, copied_command(command))
}
