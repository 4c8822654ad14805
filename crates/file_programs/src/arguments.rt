//! The arguments of a program, and what it prints where they ask for no work.

ghost use Rattle.std.specs.Prelude.{◌≡◌, ◌⊎◌, IfErr, IfOk};
ghost use Rattle.file_programs.specs.Ends.{IsShownAs};
ghost use Rattle.file_programs.specs.declared.fault.Fault.TheVariants.{Arguments, NoMemory};

use crate::Refusal;
use crate::fault::Fault;
use crate::files::print;
use std::io::ErrorKind;
use std::rt::Env;
use std::{env, io};

/// The arguments that the program is called with, its name first.
pub fn arguments_of<R: Env + AllocGlobal>(rt: &R) -> Result<Vec<String>, Fault>
    ensures { IfErr result (λ fault. (fault ≡ NoMemory) ⊎ (fault ≡ Arguments)) }
{
    match env::args(rt) {
        Ok(arguments) => Ok(arguments.collect(rt.alloc())?),
        Err(error) if error.kind() == ErrorKind::OutOfMemory => Err(Fault::NoMemory),
        Err(_) => Err(Fault::Arguments),
    }
}

/// Prints help or the version, or ends the program with what the arguments leave out or have too much of.
pub fn shown<R: Print>(rt: &R, refusal: Refusal) -> Result<u8, Fault>
    ensures ok { IfOk result (λ status. status ≡ 0) }
    ensures err { IfErr result (IsShownAs refusal) }
{
    match refusal {
        Refusal::Shown(text) => {
            print(&mut io::writer(rt), text.as_bytes())?;
            Ok(0)
        }
        Refusal::Arguments(text) => Err(Fault::Usage(text)),
        Refusal::NoMemory => Err(Fault::NoMemory),
    }
}
