//! Why a check ends without a verdict.

ghost use Rattle.std.specs.Prelude.{◌≡◌, Some};
ghost use Rattle.check_command.specs.Ending.{fault_at, fault_line};
ghost use Rattle.check_command.specs.Faults.{check_line};

use crate::judgement::JudgeFault;
use std::fmt;

/// What ended the judgement of two files. Its `Display` is the line for standard error.
#[derive(Clone, Copy)]
pub enum Fault<'a> {
    /// The file at this path can't be opened, or not be read to its end.
    CannotRead(&'a str),
    /// Standard output didn't take the whole line.
    CannotWrite,
    /// The allocator refused memory.
    NoMemory,
}

/// The two paths of a `check`, as they were given.
#[derive(Clone, Copy)]
pub struct Paths<'a> {
    pub history: &'a str,
    pub certificate: &'a str,
}

impl<'a> Paths<'a> {
    /// What a fault of the judgement is, for the files at these paths.
    pub fn fault(self, fault: JudgeFault) -> Fault<'a>
        ensures { result ≡ fault_at self.entry fault }
    {
        match fault {
            JudgeFault::ReadHistory => Fault::CannotRead(self.history),
            JudgeFault::ReadCertificate => Fault::CannotRead(self.certificate),
            JudgeFault::Write => Fault::CannotWrite,
            JudgeFault::NoMemory => Fault::NoMemory,
        }
    }
}

impl fmt::Display for Fault<'_> {
    ghost output = { λ fault. Some (fault_line fault) };

    fn fmt<W: fmt::Write>(&self, f: &mut fmt::Formatter<W>) -> fmt::Result {
        match self {
            Fault::CannotRead(path) => write!(f, "rmmcheck: cannot read {path}"),
            Fault::CannotWrite => f.write_str("rmmcheck: cannot write"),
            Fault::NoMemory => f.write_str("rmmcheck: no memory"),
        }
    }
}

/// What ended the check, its words among it. Its `Display` is its line on standard error.
#[derive(Clone, Copy)]
pub enum CheckFault<'a> {
    /// The words ask for nothing that the program does.
    Arguments,
    /// A device failed, or memory was refused.
    Device(Fault<'a>),
}

impl fmt::Display for CheckFault<'_> {
    ghost output = { λ fault. Some (check_line fault) };

    fn fmt<W: fmt::Write>(&self, f: &mut fmt::Formatter<W>) -> fmt::Result {
        match self {
            CheckFault::Arguments => f.write_str("rmmcheck: arguments"),
            CheckFault::Device(fault) => fault.fmt(f),
        }
    }
}
