//! `rmmmerge [--version 1|2] [--large] [--granules G] [--cpus P] [--prefix] [--rename [--memory BYTES] [--map FILE]] EVENTS HISTORY CERTIFICATE`:
//! writes the history and the certificate of what a recorder wrote: status 0. With `--prefix` it takes the events before the first
//! stamp that is missing, and prints that stamp. With `--rename` granules are numbered as they come, and FILE gets their names.
//! Where the events are no run it prints why, with the line: status 2, and it writes no file. So do other arguments.
#![tactic(auto)]

ghost use Rattle.std.specs.Prelude.{◌≡◌, false, IfOk};

use devices::FileSource;
use file_programs::rmmmerge::{
    Asked as Words, Extent as Given, Names, Paths, Request, Unasked, request_given,
};
use file_programs::{Fault, VERSION, end, print, write_file};
use merging::{
    Asked, EventsFault, Extent, Output, Renaming, Run, SourceFault, TextFault, Version, WriteFault,
    merge_source,
};
use std::alloc::{AllocError, Global};
use std::io::{BufWriter, ErrorKind};
use std::process::ExitCode;
use std::rt::{Env, Files};
use std::{env, fs, io};

fn main(rt: HostRuntime) -> ExitCode {
    ExitCode::from(end(&rt, "rmmmerge", served(&rt)))
}

fn served<R: Env + Files + Print + Eprint + AllocGlobal>(rt: &R) -> Result<u8, Fault> {
    let words = words_of(rt)?;
    match request_given(rt, words.as_slice()) {
        Ok(Words::Merge(request)) => merge(rt, request),
        Ok(Words::Version) => {
            let line = format!(in rt.alloc(); "rmmmerge {VERSION}\n")?;
            print(&mut io::writer(rt), line.as_bytes())?;
            Ok(0)
        }
        Err(Unasked::Printed(status)) => Ok(status),
        Err(Unasked::CannotWrite) => Err(Fault::CannotPrint),
        Err(Unasked::NoMemory) => Err(Fault::NoMemory),
    }
}

fn words_of<R: Env + AllocGlobal>(rt: &R) -> Result<Vec<String>, Fault> {
    match env::args(rt) {
        Ok(words) => Ok(words.collect(rt.alloc())?),
        Err(error) if error.kind() == ErrorKind::OutOfMemory => Err(Fault::NoMemory),
        Err(_) => Err(Fault::Arguments),
    }
}

fn merge<R: Files + Print + AllocGlobal>(rt: &R, request: Request<'_>) -> Result<u8, Fault> {
    let path = request.paths.events;
    let Ok(file) = fs::open(rt, path) else {
        return unread(rt, path);
    };
    let mut source = FileSource::new(file);
    match merge_source(rt.alloc(), &mut source, asked_by(&request)) {
        Ok(run) => write_out(rt, &request, &run),
        Err(SourceFault::Events(fault)) => report_fault(rt, fault),
        Err(SourceFault::Device) => unread(rt, path),
        Err(SourceFault::NoMemory) => Err(Fault::NoMemory),
    }
}

fn unread<R: AllocGlobal>(rt: &R, path: &str) -> Result<u8, Fault> {
    Err(Fault::CannotRead(String::from_str(rt.alloc(), path)?))
}

fn asked_by(request: &Request<'_>) -> Asked {
    Asked {
        version: version_by(request),
        granules: request.granules,
        cpus: request.cpus,
        extent: match request.extent {
            Given::All => Extent::Whole,
            Given::UpToHole => Extent::UpToHole,
        },
        renaming: match request.names {
            Some(names) => Some(Renaming {
                memory: names.memory.unwrap_or(u64::MAX),
            }),
            None => None,
        },
    }
}

// The version of the history that is to be written.
fn version_by(request: &Request<'_>) -> Version {
    match (request.large, request.version) {
        (true, _) => Version::Large,
        (false, 2) => Version::Two,
        (false, _) => Version::One,
    }
}

fn write_out<R: Files + Print + AllocGlobal>(
    rt: &R,
    request: &Request<'_>,
    run: &Run,
) -> Result<u8, Fault> {
    write_texts(rt, request.paths, run)?;
    if let Some(Names { map: Some(map), .. }) = request.names {
        write_map(rt, map, run)?;
    }
    report_extent(rt, request.extent, run.stamps())?;
    Ok(0)
}

// Writes both files, each in place of one that is there.
fn write_texts<R: Files + AllocGlobal>(rt: &R, paths: Paths<'_>, run: &Run) -> Result<(), Fault> {
    match try_write_texts(rt, paths, run) {
        Ok(()) => Ok(()),
        Err(WriteFault::NoMemory) => Err(Fault::NoMemory),
        Err(WriteFault::History) => unwritten(rt, paths.history),
        Err(WriteFault::Certificate) => unwritten(rt, paths.certificate),
    }
}

fn unwritten<R: AllocGlobal>(rt: &R, path: &str) -> Result<(), Fault> {
    Err(Fault::CannotWrite(String::from_str(rt.alloc(), path)?))
}

fn try_write_texts<R: Files + AllocGlobal>(
    rt: &R,
    paths: Paths<'_>,
    run: &Run,
) -> Result<(), WriteFault> {
    let mut history = output_at(rt, paths.history, WriteFault::History)?;
    let mut certificate = output_at(rt, paths.certificate, WriteFault::Certificate)?;
    run.write(rt.alloc(), &mut history, &mut certificate)?;
    if history.flush().is_err() {
        return Err(WriteFault::History);
    }
    if certificate.flush().is_err() {
        return Err(WriteFault::Certificate);
    }
    Ok(())
}

// A file in place of one that is there, or the fault where it can't be made.
fn output_at<R: Files + AllocGlobal>(
    rt: &R,
    path: &str,
    fault: WriteFault,
) -> Result<Output<BufWriter<R::File>>, WriteFault>
    ensures { IfOk result (λ output. output.has_failed ≡ false) }
{
    match fs::create(rt, path) {
        Ok(file) => match BufWriter::new(rt.alloc(), file) {
            Ok(writer) => Ok(Output::new(writer)),
            Err(_) => Err(WriteFault::NoMemory),
        },
        Err(error) if error.kind() == ErrorKind::OutOfMemory => Err(WriteFault::NoMemory),
        Err(_) => Err(fault),
    }
}

fn write_map<R: Files + AllocGlobal>(rt: &R, path: &str, run: &Run) -> Result<(), Fault> {
    let map = run.map(rt.alloc())?;
    write_file(rt, String::from_str(rt.alloc(), path)?, map.as_slice())
}

// Prints up to which stamp events were taken, where not all had to be there.
fn report_extent<R: Print + AllocGlobal>(
    rt: &R,
    extent: Given,
    stamps: usize,
) -> Result<(), Fault> {
    match extent {
        Given::All => Ok(()),
        Given::UpToHole => {
            let line = format!(in rt.alloc(); "merged the events before stamp {stamps}\n")?;
            print(&mut io::writer(rt), line.as_bytes())
        }
    }
}

// Prints why the events are no run. Refused memory is a fault of the program.
fn report_fault<R: Print + AllocGlobal>(rt: &R, fault: TextFault) -> Result<u8, Fault> {
    match fault {
        TextFault::Text(EventsFault::NoMemory) | TextFault::NoMemory => Err(Fault::NoMemory),
        fault => {
            let line = line_of(rt.alloc(), fault)?;
            print(&mut io::writer(rt), line.as_bytes())?;
            Ok(2)
        }
    }
}

fn line_of(alloc: Global, fault: TextFault) -> Result<String, AllocError> {
    format!(in alloc; "fault events: {fault}\n")
}
