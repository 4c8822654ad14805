//! Scripts: what CPU 0 calls, each call answered before the next is made, and committed in that order.

use crate::fault::Fault;
use std::alloc::Global;
use std::fmt::Write;

/// The history's first line, and behind it a command and its reply a line.
pub(crate) const DELEGATED_GRANULE: &str = "\
rmh1 4 1
c4000151 1000 -> ok
";

pub(crate) const PAGE_OF_TWO_REALMS: &str = "\
rmh1 16 1
c4000151 1000 -> ok
c4000151 2000 -> ok
c4000151 3000 -> ok
c4000151 4000 -> ok
c4000151 5000 -> ok
c4000151 6000 -> ok
c4000151 7000 -> ok
c4000151 8000 -> ok
c4000151 9000 -> ok
c4000158 1000 2000 27 1 1 0 -> ok
c4000158 6000 7000 27 1 2 0 -> ok
c400015d 1000 3000 0 2 -> ok
c400015d 1000 4000 0 3 -> ok
c400015d 6000 8000 0 2 -> ok
c400015d 6000 9000 0 3 -> ok
c4000154 1000 5000 0 -> ok
c4000154 6000 5000 0 -> ok
";

pub(crate) const RIPAS_CHANGE: &str = "\
rmh1 16 1
c4000151 1000 -> ok
c4000151 2000 -> ok
c4000151 3000 -> ok
c4000151 4000 -> ok
c4000151 5000 -> ok
c4000151 6000 -> ok
c4000151 7000 -> ok
c4000158 1000 2000 27 1 1 0 -> ok
c400015a 1000 5000 0 1 6000 7000 -> ok
c400015d 1000 3000 0 2 -> ok
c400015d 1000 4000 0 3 -> ok
c4000157 1000 -> ok
c400015c 5000 -> ok 0
c4000197 0 3000 1 -> ok
00000001 -> ok 4 0 3000 1
c4000169 1000 5000 0 3000 -> ok 1000
c4000169 1000 5000 1000 3000 -> ok 3000
c400015c 5000 -> ok 3000
c4000198 2000 -> ok 1
";

/// The first line, and the steps.
pub(crate) fn parted(script: &str) -> Result<(&str, &str), Fault> {
    match script.split_once('\n') {
        Some(parts) => Ok(parts),
        None => Err(Fault::Wrong("a script without steps")),
    }
}

/// A step's command and its reply.
pub(crate) fn parts_of(step: &str) -> Result<(&str, &str), Fault> {
    match step.split_once(" -> ") {
        Some(parts) => Ok(parts),
        None => Err(Fault::Wrong("a step without a reply")),
    }
}

/// What a script stands for.
#[derive(Drop)]
pub(crate) struct Texts {
    pub(crate) history: String,
    pub(crate) certificate: String,
}

pub(crate) fn texts_of(alloc: Global, script: &str) -> Result<Texts, Fault> {
    let (header, steps) = parted(script)?;
    let mut texts = Texts {
        history: String::new(alloc),
        certificate: String::new(alloc),
    };
    write!(texts.history, "{header}\n")?;
    for (number, step) in steps.lines().enumerate() {
        push_step(&mut texts, number, step)?;
    }
    Ok(texts)
}

fn push_step(texts: &mut Texts, number: usize, step: &str) -> Result<(), Fault> {
    let (command, reply) = parts_of(step)?;
    write!(
        texts.history,
        "c 0 {number} {command}\nr 0 {number} {reply}\n"
    )?;
    write!(texts.certificate, "k 0 {number}\n")?;
    Ok(())
}
