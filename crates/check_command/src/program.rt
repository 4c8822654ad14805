//! A check over any runtime: words, files, the output, the exit status.

ghost use Rattle.std.specs.Prelude.{◌≡◌, ◌⊎◌, ◌≤◌, Ok, IfOk, IfErr, map, string_bytes};
ghost use Rattle.std.specs.IoError.{error_kind};
ghost use Rattle.check_command.specs.Ending.{status_of};
ghost use Rattle.check_command.specs.Faults.{check_status, unread_fault, EndsCheck, EndsJudgement, HasCause};
ghost use Rattle.devices.specs.Sink.{writing};
ghost use Rattle.devices.specs.Source.{reading};

use crate::ending::ends_with;
use crate::fault::{CheckFault, Fault, Paths};
use crate::judgement::judge;
use checker::Verdict;
use devices::{FileSource, LineSink, Sink, Source};
use std::alloc::Global;
use std::io::ErrorKind;
use std::rt::{Env, Files};
use std::{env, fs, io};

/// Runs a check of the two files that the words name behind the program's own name, HISTORY and CERT, and returns its exit status: 0
/// for yes, 1 for no, 2 for words or texts at fault, 3 for a device or memory. No word is an option: a path may begin with a dash.
/// Where the line of a fault can't be written to standard error, the status alone reports it.
pub fn run<R: Env + Files + Print + Eprint + AllocGlobal>(rt: &R) -> u8
    ensures { result ≤ 3 }
{
    let words = words_of(rt);
    let outcome = match &words {
        Ok(words) => serve(rt, words.as_slice()),
        Err(fault) => Err(*fault),
    };
    end_check(rt, outcome)
}

// Checks the two files that the words name.
fn serve<'a, R: Files + Print + AllocGlobal>(
    rt: &R,
    words: &'a [String],
) -> Result<Verdict, CheckFault<'a>>
    ensures { IfErr result (HasCause (map string_bytes words.now)) }
{
    let [_name, history, certificate] = words else {
        return Err(CheckFault::Arguments);
    };
    check_files(
        rt,
        Paths {
            history,
            certificate,
        },
    )
}

/// Opens both files before either is read, and judges what they hold. The verdict's line goes to standard output.
pub fn check_files<'a, R: Files + Print + AllocGlobal>(
    rt: &R,
    paths: Paths<'a>,
) -> Result<Verdict, CheckFault<'a>>
    ensures { IfErr result (EndsCheck paths.entry) }
{
    let mut history = FileSource::new(opened(rt, paths.history)?);
    let mut certificate = FileSource::new(opened(rt, paths.certificate)?);
    let mut sink = LineSink::new(io::writer(rt));
    check_sources(rt.alloc(), paths, &mut history, &mut certificate, &mut sink)
}

/// Judges what two sources give of the files at these paths. The verdict's line goes to the sink.
pub fn check_sources<'a, H: Source, C: Source, K: Sink>(
    alloc: Global,
    paths: Paths<'a>,
    history: &mut H,
    certificate: &mut C,
    sink: &mut K,
) -> Result<Verdict, CheckFault<'a>>
    ensures { EndsJudgement paths.entry
        (reading H.gives H.is_ended H.left H.refuses H.failures history.old history.new)
        (reading C.gives C.is_ended C.left C.refuses C.failures certificate.old certificate.new)
        (writing K.taken K.contents K.room K.failures sink.old sink.new)
        result }
{
    match judge(alloc, history, certificate, sink) {
        Ok(verdict) => Ok(verdict),
        Err(fault) => Err(CheckFault::Device(paths.fault(fault))),
    }
}

/// The file at that path.
pub fn opened<'a, R: Files>(rt: &R, path: &'a str) -> Result<R::File, CheckFault<'a>>
    ensures { IfErr result (λ ended. ended ≡ CheckFault.Device (Fault.CannotRead path.entry)) }
{
    match fs::open(rt, path) {
        Ok(file) => Ok(file),
        Err(_) => Err(CheckFault::Device(Fault::CannotRead(path))),
    }
}

/// The words of the command line.
pub fn words_of<R: Env + AllocGlobal>(rt: &R) -> Result<Vec<String>, CheckFault<'static>>
    ensures { IfErr result (λ fault. (fault ≡ CheckFault.Device Fault.NoMemory) ⊎ (fault ≡ CheckFault.Arguments)) }
{
    match env::args(rt) {
        Ok(args) => match args.collect(rt.alloc()) {
            Ok(words) => Ok(words),
            Err(_) => Err(CheckFault::Device(Fault::NoMemory)),
        },
        Err(error) => Err(fault_of_unread(&error)),
    }
}

// What ends the program where its words can't be read.
fn fault_of_unread(error: &io::Error) -> CheckFault<'static>
    ensures cause { result ≡ unread_fault (error_kind error.now) }
    ensures either { (result ≡ CheckFault.Device Fault.NoMemory) ⊎ (result ≡ CheckFault.Arguments) }
{
    match error.kind() {
        ErrorKind::OutOfMemory => CheckFault::Device(Fault::NoMemory),
        _ => CheckFault::Arguments,
    }
}

/// Writes the fault's line, where there is one, and returns the exit status.
pub fn end_check<R: Eprint>(rt: &R, outcome: Result<Verdict, CheckFault<'_>>) -> u8
    ensures ok { IfOk outcome.entry (λ verdict. result ≡ status_of (Ok verdict)) }
    ensures err { IfErr outcome.entry (λ fault. result ≡ check_status fault) }
    ensures most { result ≤ 3 }
{
    match outcome {
        Ok(verdict) => ends_with(Ok(verdict)).status,
        Err(fault) => {
            let _ = rt.eprintln(fault);
            match fault {
                CheckFault::Device(fault) => ends_with(Err(fault)).status,
                CheckFault::Arguments => 2,
            }
        }
    }
}
