//! Where each CPU stands.

ghost use Rattle.std.specs.Prelude.{◌≡◌, ℕ, ◌+◌, ◌<◌, Some, slice_get, IfSome, List};
ghost use Rattle.rmm_spec.specs.declared.command.Command.{Command};
ghost use Rattle.rmm_spec.specs.declared.reply.Reply.{Reply};
ghost use Rattle.rmm_spec.specs.Call.{call_of};
ghost use Rattle.rmm_spec.specs.Linearization.{IsReturned};
ghost use Rattle.verdict_laws.specs.Registers.{entered_after};
ghost use Rattle.registers.specs.Cpus.{AreCpus, IsCpu, IsReturn, IsSomeReturn};

use history::{History, Places};

/// How many CPUs there are at most.
pub(crate) const CPUS: u8 = 8;

/// A CPU's first call that hasn't returned, with its places where it is made at all, and the REC that the CPU entered last.
#[derive(Clone, Copy)]
pub(crate) struct Cpu {
    pub(crate) number: u32,
    pub(crate) places: Option<Places>,
    pub(crate) entered: Option<u64>,
}

/// A call that returns, and the REC that its CPU entered last.
#[derive(Clone, Copy)]
pub(crate) struct Return {
    pub(crate) place: u32,
    pub(crate) cpu: u8,
    pub(crate) number: u32,
    pub(crate) called: u32,
    pub(crate) entered: Option<u64>,
}

/// Where a CPU stands before the first event.
fn first_cpu(history: &History, cpu: u8) -> Cpu
    ensures { IsCpu history.now.recorded.events 0 cpu result }
{
    Cpu {
        number: 0,
        places: history.places_of(cpu, 0),
        entered: None,
    }
}

/// Where the CPUs stand before the first event.
pub(crate) fn first_cpus(history: &History) -> [Cpu; 8]
    ensures { AreCpus history.now.recorded.events 0 result }
{
    let mut cpus = [Cpu {
        number: 0,
        places: None,
        entered: None,
    }; 8];
    for cpu in 0..CPUS {
        cpus[cpu as usize] = first_cpu(history, cpu);
    }
    cpus
}

/// The call that returns at the place.
pub(crate) fn return_at(history: &History, cpus: &[Cpu; 8], place: u32) -> Option<Return>
    requires { AreCpus history.now.recorded.events place cpus.now }
    ensures { IfSome result (λ at. (at.place ≡ place) × IsSomeReturn history.now.recorded.events cpus.now at) }
{
    for cpu in 0..CPUS {
        if let Some(at) = return_of(history, cpus, cpu, place) {
            return Some(at);
        }
    }
    None
}

/// The CPU's call that returns at the place, if it does.
fn return_of(history: &History, cpus: &[Cpu; 8], cpu: u8, place: u32) -> Option<Return>
    requires cpus { AreCpus history.now.recorded.events place cpus.now }
    requires cpu { cpu < 8 }
    ensures { IfSome result (λ at. (at.place ≡ place) × IsSomeReturn history.now.recorded.events cpus.now at) }
{
    let Cpu {
        number,
        places,
        entered,
    } = cpus[cpu as usize];
    let places = places?;
    if places.returned? != place {
        return None;
    }
    Some(Return {
        place,
        cpu,
        number,
        called: places.called,
        entered,
    })
}

/// The call has returned, and its CPU entered this REC last.
pub(crate) fn pass_return(history: &History, cpus: &mut [Cpu; 8], at: Return, entered: Option<u64>)
    requires cpus { AreCpus history.now.recorded.events at.place cpus.old }
    requires returned { (command : Command) × (given : Reply) × IsReturn history.now.recorded.events cpus.old at command given
        × (entered ≡ entered_after at.entered (call_of command) given) }
    ensures { AreCpus history.now.recorded.events (at.place + 1) cpus.new }
{
    let _fact = history.well_formed();
    let number = at.number + 1;
    cpus[at.cpu as usize] = Cpu {
        number,
        places: history.places_of(at.cpu, number),
        entered,
    };
}
