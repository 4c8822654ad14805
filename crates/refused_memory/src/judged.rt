//! Scripts that are checked, fed to a session, or offered to the machine.

use crate::fault::Fault;
use crate::script::{parted, parts_of, texts_of};
use checker::{Session, Verdict, check, verdict_text};
use memory_map::Config;
use rmi_codec::{read_command, read_reply};
use spec_machine::Machine;
use std::alloc::{AllocError, Global};

/// Checks a script's texts.
pub(crate) fn check_script(alloc: Global, script: &str, out: &mut Vec<u8>) -> Result<(), Fault> {
    let texts = texts_of(alloc, script)?;
    push_judged(
        alloc,
        texts.history.as_bytes(),
        texts.certificate.as_bytes(),
        out,
    )
}

/// Appends both texts, each with an empty line behind it, and the line of the verdict on them.
pub(crate) fn push_judged(
    alloc: Global,
    history: &[u8],
    certificate: &[u8],
    out: &mut Vec<u8>,
) -> Result<(), Fault> {
    let verdict = checked(alloc, history, certificate)?;
    Ok(push_texts(history, certificate, &verdict, out)?)
}

// The verdict, which is asked for twice where memory is refused.
fn checked(alloc: Global, history: &[u8], certificate: &[u8]) -> Result<Verdict, AllocError> {
    match check(alloc, history, certificate) {
        Ok(verdict) => Ok(verdict),
        Err(_) => check(alloc, history, certificate),
    }
}

fn push_texts(
    history: &[u8],
    certificate: &[u8],
    verdict: &Verdict,
    out: &mut Vec<u8>,
) -> Result<(), AllocError> {
    out.extend_from_slice(history)?;
    out.push(b'\n')?;
    out.extend_from_slice(certificate)?;
    out.push(b'\n')?;
    verdict_text(verdict, out)
}

/// Feeds a script's certificate to a session byte by byte.
pub(crate) fn feed_script(alloc: Global, script: &str, out: &mut Vec<u8>) -> Result<(), Fault> {
    let texts = texts_of(alloc, script)?;
    let (history, certificate) = (texts.history.as_bytes(), texts.certificate.as_bytes());
    let verdict = fed(alloc, history, certificate)?;
    Ok(push_texts(history, certificate, &verdict, out)?)
}

// The verdict of a session that is fed the certificate.
fn fed(alloc: Global, history: &[u8], certificate: &[u8]) -> Result<Verdict, Fault> {
    let mut session = Session::new(alloc, history::read(alloc, history)?)?;
    for place in 0..certificate.len() {
        feed(&mut session, &certificate[place..place + 1])?;
    }
    Ok(session.finish()?)
}

// A session that was refused memory is refused it from then on, also where there is some.
fn feed(session: &mut Session, piece: &[u8]) -> Result<(), Fault> {
    if session.feed(piece).is_ok() {
        return Ok(());
    }
    match session.feed(piece) {
        Ok(()) => Err(Fault::Wrong("a session that was refused goes on")),
        Err(_) => Err(Fault::NoMemory),
    }
}

/// Offers a script's steps to the machine, one after another, and checks its texts.
pub(crate) fn offer_script(alloc: Global, script: &str, out: &mut Vec<u8>) -> Result<(), Fault> {
    let Some(config) = Config::new(16, 1) else {
        return Err(Fault::Wrong("no such machine"));
    };
    let mut machine = Machine::new(alloc, config)?;
    let (_header, steps) = parted(script)?;
    for step in steps.lines() {
        offer(&mut machine, step)?;
    }
    check_script(alloc, script, out)
}

// Offers a step, and once more where memory is refused.
fn offer(machine: &mut Machine, step: &str) -> Result<(), Fault> {
    let (command, reply) = parts_of(step)?;
    let (command, reply) = (read_command(command)?, read_reply(reply)?);
    let is_given = match machine.offer(0, &command, &reply) {
        Ok(is_given) => is_given,
        Err(_) => machine.offer(0, &command, &reply)?,
    };
    if is_given {
        Ok(())
    } else {
        Err(Fault::Wrong("the machine gives another reply"))
    }
}
