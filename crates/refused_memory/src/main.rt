//! Plays runs to which memory may be refused at any request, and prints what is left of them.
//! A call that keeps all as it was where memory is refused is made once more, and the run goes on from there. Where any other
//! call is refused it, the run is thrown away and played anew. So one refusal changes nothing but where a commit meets it.
//! What is printed with ample memory was worked out by hand; `tests/refusals.py` refuses each request in turn. No clause says
//! more than that it is safe. It depends on what judges, plays and monitors runs, and nothing depends on it.
#![tactic(auto)]

mod fault;
mod judged;
mod monitored;
mod row;
mod script;
mod turned;

use crate::fault::Fault;
use crate::row::{NAMES, Row};
use std::alloc::Global;
use std::io::{ErrorKind, Write};
use std::process::ExitCode;
use std::rt::Env;
use std::sync::Wait;
use std::{env, io};

fn main(rt: HostRuntime) -> ExitCode {
    ExitCode::from(run(&rt))
}

// The exit status. Where a fault's line can't be written, the status alone reports it.
fn run<R: Env + Print + Eprint + AllocGlobal + Wait>(rt: &R) -> u8 {
    match print_asked(rt) {
        Ok(()) => 0,
        Err(fault) => {
            let _ = rt.eprintln(fault);
            fault.status()
        }
    }
}

// Prints the rows that the words ask for, once all of them are there.
fn print_asked<R: Env + Print + AllocGlobal + Wait>(rt: &R) -> Result<(), Fault> {
    let words = words_of(rt)?;
    let text = match words.as_slice() {
        [_, name] => text_of(rt, rt.alloc(), name.as_str())?,
        [_] => all_texts(rt, rt.alloc())?,
        _ => return Err(Fault::NoSuchRow),
    };
    match io::writer(rt).write_all(text.as_slice()) {
        Ok(()) => Ok(()),
        Err(_) => Err(Fault::CannotWrite),
    }
}

// The words of the command line, which are asked for twice where memory is refused.
fn words_of<R: Env + AllocGlobal>(rt: &R) -> Result<Vec<String>, Fault> {
    match read_words(rt) {
        Err(Fault::NoMemory) => read_words(rt),
        words => words,
    }
}

fn read_words<R: Env + AllocGlobal>(rt: &R) -> Result<Vec<String>, Fault> {
    match env::args(rt) {
        Ok(words) => Ok(words.collect(rt.alloc())?),
        Err(error) if error.kind() == ErrorKind::OutOfMemory => Err(Fault::NoMemory),
        Err(_) => Err(Fault::NoSuchRow),
    }
}

fn all_texts<R: Wait>(rt: &R, alloc: Global) -> Result<Vec<u8>, Fault> {
    let mut texts = Vec::new(alloc);
    for name in NAMES {
        let text = text_of(rt, alloc, name)?;
        append(&mut texts, text.as_slice())?;
    }
    Ok(texts)
}

// Appends a text, for which room is asked twice where memory is refused.
fn append(texts: &mut Vec<u8>, text: &[u8]) -> Result<(), Fault> {
    match texts.extend_from_slice(text) {
        Ok(()) => Ok(()),
        Err(_) => Ok(texts.extend_from_slice(text)?),
    }
}

// A row's name and what is left of its run, which is played twice where memory is refused.
fn text_of<R: Wait>(rt: &R, alloc: Global, name: &str) -> Result<Vec<u8>, Fault> {
    let Some(row) = Row::named(name) else {
        return Err(Fault::NoSuchRow);
    };
    match played(rt, alloc, name, row) {
        Err(Fault::NoMemory) => played(rt, alloc, name, row),
        text => text,
    }
}

fn played<R: Wait>(rt: &R, alloc: Global, name: &str, row: Row) -> Result<Vec<u8>, Fault> {
    let mut text = Vec::new(alloc);
    text.extend_from_slice(name.as_bytes())?;
    text.push(b'\n')?;
    row.play(rt, alloc, &mut text)?;
    text.push(b'\n')?;
    Ok(text)
}
