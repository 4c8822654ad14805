//! `rmmdraw [--seed N] [--version 1|2] [--granules G] [--cpus P] [--commands N] [--sharing none|some|all] [--turns] [--calls]`: draws a
//! scenario and prints it as a file, or its programs as lines of calls: status 0. Other arguments end it with status 2.
#![tactic(auto)]

mod text;

use crate::text::text_of;
use drawn_scenarios::{Plan, Sharing};
use file_programs::rmmdraw::{Asked, Request, Shared, Unasked, request_given};
use file_programs::{Fault, VERSION, end, print};
use memory_map::Config;
use std::alloc::Global;
use std::io::ErrorKind;
use std::process::ExitCode;
use std::rt::Env;
use std::{env, io};

fn main(rt: HostRuntime) -> ExitCode {
    ExitCode::from(end(&rt, "rmmdraw", drawn(&rt)))
}

fn drawn<R: Env + Print + Eprint + AllocGlobal>(rt: &R) -> Result<u8, Fault> {
    let words = words_of(rt)?;
    match request_given(rt, words.as_slice()) {
        Ok(Asked::Scenario(request)) => print_scenario(rt, request),
        Ok(Asked::Version) => {
            let line = format!(in rt.alloc(); "rmmdraw {VERSION}\n")?;
            print(&mut io::writer(rt), line.as_bytes())?;
            Ok(0)
        }
        Err(Unasked::Printed(status)) => Ok(status),
        Err(Unasked::CannotWrite) => Err(Fault::CannotPrint),
        Err(Unasked::NoMemory) => Err(Fault::NoMemory),
    }
}

fn words_of<R: Env + AllocGlobal>(rt: &R) -> Result<Vec<String>, Fault> {
    match env::args(rt) {
        Ok(words) => Ok(words.collect(rt.alloc())?),
        Err(error) if error.kind() == ErrorKind::OutOfMemory => Err(Fault::NoMemory),
        Err(_) => Err(Fault::Arguments),
    }
}

fn print_scenario<R: Print + Eprint + AllocGlobal>(rt: &R, request: Request) -> Result<u8, Fault> {
    let alloc = rt.alloc();
    let Some(plan) = plan_of(request) else {
        return Err(Fault::Arguments);
    };
    match plan.drawn(alloc, request.seed) {
        Ok(scenario) => {
            let text = text_of(alloc, &scenario, request.has_calls)?;
            print(&mut io::writer(rt), text.as_slice())?;
            Ok(0)
        }
        Err(error) => {
            let _ = eprintln!(rt; "rmmdraw: {error}");
            Ok(3)
        }
    }
}

fn plan_of(request: Request) -> Option<Plan> {
    let config = Config::with_version(request.granules, request.cpus, request.version)?;
    let sharing = match request.shared {
        Shared::None => Sharing::none(&config),
        Shared::Some => Sharing::some(&config),
        Shared::All => Sharing::all(&config),
    };
    Some(Plan {
        config,
        sharing,
        commands: request.commands,
        has_turns: request.has_turns,
    })
}
