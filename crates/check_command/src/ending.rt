//! How a judgement ends the program.

ghost use Rattle.std.specs.Prelude.{◌≡◌, ◌≤◌, Ok, Err};
ghost use Rattle.check_command.specs.Ending.{status_of};

use crate::fault::Fault;
use checker::Verdict;

/// The program's exit status.
#[derive(Clone, Copy)]
pub struct Ending {
    pub status: u8,
}

/// The ending after a verdict whose line was printed, or after a fault.
pub fn ends_with(outcome: Result<Verdict, Fault<'_>>) -> Ending
    ensures status { result.status ≡ status_of outcome.entry }
    ensures most { result.status ≤ 3 }
{
    let status = match outcome {
        Ok(verdict) => verdict_status(&verdict),
        Err(fault) => fault_status(&fault),
    };
    Ending { status }
}

fn verdict_status(verdict: &Verdict) -> u8
    ensures status { result ≡ status_of (Ok verdict.now) }
    ensures most { result ≤ 3 }
{
    match verdict {
        Verdict::Yes(_) => 0,
        Verdict::No { .. } => 1,
        Verdict::HistoryFault(_) | Verdict::CertificateFault(_) => 2,
    }
}

fn fault_status(fault: &Fault<'_>) -> u8
    ensures status { result ≡ status_of (Err fault.now) }
    ensures most { result ≤ 3 }
{
    match fault {
        Fault::CannotRead(_) | Fault::CannotWrite => 3,
        Fault::NoMemory => 3,
    }
}
