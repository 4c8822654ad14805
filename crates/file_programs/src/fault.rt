//! Why a program printed nothing, or not all, and how it ends then.

ghost use Rattle.std.specs.Prelude.{◌≡◌, ◌≤◌, Some, IfOk, IfErr};
ghost use Rattle.file_programs.specs.Ends.{line_of, status_of};
ghost use Rattle.file_programs.specs.declared.fault.Fault.TheVariants.{NoMemory};

use std::alloc::AllocError;
use std::fmt;

/// What ended the program.
#[derive(Drop)]
pub enum Fault {
    /// The arguments aren't UTF-8.
    Arguments,
    /// The arguments ask for nothing that the program does: a text on that for standard error.
    Usage(String),
    /// The file at this path can't be opened, or not be read to its end.
    CannotRead(String),
    /// The file at this path didn't take the whole text.
    CannotWrite(String),
    /// Standard output didn't take the whole text.
    CannotPrint,
    /// Whoever reads standard output through a pipe has closed it.
    ClosedPipe,
    /// The allocator refused memory.
    NoMemory,
}

impl From<AllocError> for Fault {
    ghost from_gives = { λ _ fault. fault ≡ NoMemory };

    fn from(_refused: AllocError) -> Fault {
        Fault::NoMemory
    }
}

impl Fault {
    fn status(&self) -> u8
        ensures { result ≡ status_of self.now }
    {
        match self {
            Fault::Arguments | Fault::Usage(_) => 2,
            Fault::CannotRead(_) | Fault::CannotWrite(_) => 3,
            Fault::CannotPrint | Fault::NoMemory => 3,
            Fault::ClosedPipe => 141,
        }
    }
}

// What a program writes to standard error of a fault.
#[derive(Drop)]
struct Line<'a> {
    program: &'a str,
    fault: &'a Fault,
}

impl fmt::Display for Line<'_> {
    ghost output = { λ line. Some (line_of line.program.now line.fault.now) };

    fn fmt<W: fmt::Write>(&self, f: &mut fmt::Formatter<W>) -> fmt::Result {
        let program = self.program;
        match self.fault {
            Fault::Arguments => write!(f, "{program}: arguments\n"),
            Fault::Usage(text) => f.write_str(text.as_str()),
            Fault::CannotRead(path) => write!(f, "{program}: cannot read {path}\n"),
            Fault::CannotWrite(path) => write!(f, "{program}: cannot write {path}\n"),
            Fault::CannotPrint => write!(f, "{program}: cannot write standard output\n"),
            Fault::ClosedPipe => f.write_str(""),
            Fault::NoMemory => write!(f, "{program}: no memory\n"),
        }
    }
}

/// The exit status of the program of that name: its own, or that of its fault, whose line goes to standard error.
pub fn end<R: Eprint>(rt: &R, program: &str, outcome: Result<u8, Fault>) -> u8
    ensures ok { IfOk outcome (λ status. result ≡ status) }
    ensures err { IfErr outcome (λ fault. result ≡ status_of fault) }
{
    match outcome {
        Ok(status) => status,
        Err(fault) => {
            let _ = rt.eprint(Line {
                program,
                fault: &fault,
            });
            fault.status()
        }
    }
}
