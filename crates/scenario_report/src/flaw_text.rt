//! What is at fault in a scenario, and what could stand there, in words.

use crate::flaw::Flaw;
use crate::key::Key;
use reasons::{Shown, Wanted, wrong_in_command};
use std::fmt;

/// Two lines: what is wrong, and what could stand there.
impl fmt::Display for Flaw<'_> {
    fn fmt<W: fmt::Write>(&self, f: &mut fmt::Formatter<W>) -> fmt::Result {
        match self {
            Flaw::Unknown { key } => {
                let key = Shown(key.as_bytes());
                write!(f, "wrong: a scenario has no key \"{key}\"\n")?;
                f.write_str("expected: granules, cpus, programs, queue, turns, limit or version\n")
            }
            Flaw::Missing { key } => write!(f, "wrong: the key {key} is missing\n{}", Holds(*key)),
            Flaw::Kind { key } => write!(
                f,
                "wrong: the key {key} has a value of another kind\n{}",
                Holds(*key)
            ),
            Flaw::Range { number, stated } => {
                let key = Key::Number(*number);
                write!(f, "wrong: {key} = {stated}\n{}", Holds(key))
            }
            Flaw::Programs { cpus, programs } => {
                write!(f, "wrong: {programs} programs, and cpus = {cpus}\n")?;
                f.write_str("expected: one program for each CPU, which may be empty\n")
            }
            Flaw::Commands => {
                f.write_str(
                    "wrong: more than 499999 commands in all programs together\n\
                    expected: no more than that, since a history has room for a call and a return of each\n",
                )
            }
            Flaw::Command { cpu, number, text } => {
                write!(
                    f,
                    "command {number} of CPU {cpu} is \"{}\"\n",
                    Shown(text.as_bytes())
                )?;
                write_wrong_part(f, text.as_bytes())
            }
            Flaw::Turn { index, text, cpus } => {
                write!(f, "wrong: turn {index}, \"{}\"\n", Shown(text.as_bytes()))?;
                write_turns(f, cpus.saturating_sub(1))
            }
        }
    }
}

// What a turn can be, where so is the last CPU.
fn write_turns<W: fmt::Write>(f: &mut fmt::Formatter<W>, last: u8) -> fmt::Result {
    write!(
        f,
        "expected: a CPU from 0 to {last}, alone or with \" giveup\" or \" stop\" after it\n"
    )
}

// The first wrong part of a command's text.
fn write_wrong_part<W: fmt::Write>(f: &mut fmt::Formatter<W>, text: &[u8]) -> fmt::Result {
    let Some(wrong) = wrong_in_command(text) else {
        return Ok(());
    };
    let number = wrong.index.saturating_add(1);
    match wrong.part {
        Some(part) => write!(f, "wrong: field {number}, \"{}\"\n", Shown(part))?,
        None => write!(f, "wrong: the text ends before field {number}\n")?,
    }
    match wrong.wanted {
        Wanted::Words { left: 0 } => {
            f.write_str("expected: nothing, since the command has all its words\n")
        }
        wanted => write!(f, "expected: {wanted}\n"),
    }
}

impl fmt::Display for Key {
    fn fmt<W: fmt::Write>(&self, f: &mut fmt::Formatter<W>) -> fmt::Result {
        f.write_str(self.name())
    }
}

// What a key may hold.
#[derive(Clone, Copy)]
struct Holds(Key);

impl fmt::Display for Holds {
    fn fmt<W: fmt::Write>(&self, f: &mut fmt::Formatter<W>) -> fmt::Result {
        f.write_str("expected: ")?;
        match self.0 {
            Key::Number(number) => write!(f, "a whole number from 1 to {}\n", number.most()),
            Key::Programs => {
                f.write_str(
                    "an array of one program for each CPU, which is an array of the texts of commands\n",
                )
            }
            Key::Turns => f.write_str(
                "an array of texts, each a CPU, a CPU and giveup, or a CPU and stop\n",
            ),
        }
    }
}
