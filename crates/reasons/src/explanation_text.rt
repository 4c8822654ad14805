//! The lines of a report behind the verdict's.

use crate::CallText;
use crate::condition_text::WhyText;
use crate::explanation::{BadLine, Cause, Deciding, Explanation, RefusedLine};
use crate::named_call::{NamedCall, UnfinishedCall};
use crate::reply_text::{AcceptedText, ReplyText, is_by_realm};
use crate::shown::Shown;
use crate::since_text::SinceText;
use crate::word_text::WrongWordText;
use rmm_spec::Accepted;
use std::fmt;

impl fmt::Display for Explanation<'_> {
    fn fmt<W: fmt::Write>(&self, f: &mut fmt::Formatter<W>) -> fmt::Result {
        match self {
            Explanation::HistoryFault(bad) => write!(f, "the history's {bad}"),
            Explanation::CertificateFault(bad) => write!(f, "the certificate's {bad}"),
            Explanation::Yes {
                summary,
                unfinished,
            } => {
                write!(f, "{summary}")?;
                write_unfinished(f, unfinished.as_slice())
            }
            Explanation::No {
                step,
                cause,
                unfinished,
            } => {
                write_cause(f, *step, cause)?;
                write_unfinished(f, unfinished.as_slice())
            }
        }
    }
}

// The calls that never returned, each with its place in the order.
fn write_unfinished<W: fmt::Write>(
    f: &mut fmt::Formatter<W>,
    calls: &[UnfinishedCall],
) -> fmt::Result {
    for call in calls {
        write!(f, "{call}")?;
    }
    Ok(())
}

impl fmt::Display for UnfinishedCall {
    fn fmt<W: fmt::Write>(&self, f: &mut fmt::Formatter<W>) -> fmt::Result {
        let (cpu, number, made) = (self.call.cpu, self.call.number, self.call.call.called);
        let command = CallText {
            function: self.call.call.command.function,
            words: self.call.call.command.words.as_slice(),
        };
        write!(
            f,
            "never returned: call {number} of CPU {cpu}, made on line {made}, "
        )?;
        match self.step {
            Some(step) => write!(f, "named by step {step}: {command}\n"),
            None => write!(f, "named by no step: {command}\n"),
        }
    }
}

fn write_cause<W: fmt::Write>(f: &mut fmt::Formatter<W>, step: u64, cause: &Cause) -> fmt::Result {
    match cause {
        Cause::Unknown { cpu, number } => write_unknown(f, step, *cpu, *number),
        Cause::Repeated { call, earlier } => write_repeated(f, step, call, *earlier),
        Cause::Kind { call } => write_kind(f, step, call),
        Cause::Order {
            call,
            earlier,
            other,
        } => {
            write_named(f, step, call)?;
            write_named(f, *earlier, other)?;
            write_order(f, call, other)
        }
        Cause::Reply(line) => write!(f, "step {step} names {line}"),
        Cause::Missing(call) => write_missing(f, call),
    }
}

fn write_named<W: fmt::Write>(
    f: &mut fmt::Formatter<W>,
    step: u64,
    call: &NamedCall,
) -> fmt::Result {
    write!(f, "step {step} names {call}")
}

fn write_unknown<W: fmt::Write>(
    f: &mut fmt::Formatter<W>,
    step: u64,
    cpu: u8,
    number: u32,
) -> fmt::Result {
    write!(f, "step {step} names call {number} of CPU {cpu}\n")?;
    f.write_str("why: the history has no such call\n")
}

fn write_repeated<W: fmt::Write>(
    f: &mut fmt::Formatter<W>,
    step: u64,
    call: &NamedCall,
    earlier: u64,
) -> fmt::Result {
    write_named(f, step, call)?;
    write!(f, "why: step {earlier} names the same call\n")
}

fn write_kind<W: fmt::Write>(
    f: &mut fmt::Formatter<W>,
    step: u64,
    call: &NamedCall,
) -> fmt::Result {
    write_named(f, step, call)?;
    f.write_str(if call.call.answer.is_some() {
        "why: the call returned, so its line has to begin with k\n"
    } else {
        "why: the call hasn't returned, so its line has to begin with u\n"
    })
}

fn write_missing<W: fmt::Write>(f: &mut fmt::Formatter<W>, call: &NamedCall) -> fmt::Result {
    write!(f, "no step names {call}")?;
    f.write_str("why: the call returned, so it has to have a line\n")
}

// Which return came before which call.
fn write_order<W: fmt::Write>(
    f: &mut fmt::Formatter<W>,
    call: &NamedCall,
    other: &NamedCall,
) -> fmt::Result {
    let (cpu, number) = (call.cpu, call.number);
    let (other_cpu, other_number, made) = (other.cpu, other.number, other.call.called);
    write!(f, "why: call {number} of CPU {cpu} returned")?;
    if let Some(answer) = &call.call.answer {
        let returned = answer.returned;
        write!(f, " on line {returned}")?;
    }
    write!(
        f,
        ", before call {other_number} of CPU {other_cpu} was made on line {made}\n"
    )
}

impl fmt::Display for NamedCall {
    fn fmt<W: fmt::Write>(&self, f: &mut fmt::Formatter<W>) -> fmt::Result {
        let (cpu, number, made) = (self.cpu, self.number, self.call.called);
        let command = CallText {
            function: self.call.command.function,
            words: self.call.command.words.as_slice(),
        };
        write!(f, "call {number} of CPU {cpu}: {command}\n")?;
        write!(f, "    called on line {made}")?;
        match &self.call.answer {
            Some(answer) => {
                let returned = answer.returned;
                let reply = ReplyText {
                    reply: &answer.reply,
                    is_by_realm: is_by_realm(self.call.command.function),
                };
                write!(f, ", returned on line {returned}: {reply}\n")
            }
            None => f.write_str(", not returned\n"),
        }
    }
}

impl fmt::Display for RefusedLine {
    fn fmt<W: fmt::Write>(&self, f: &mut fmt::Formatter<W>) -> fmt::Result {
        write_replies(f, self)?;
        write_deciding(f, self)?;
        write_steps(f, self)?;
        let before = &self.before;
        write!(f, "{before}")
    }
}

// The call, the reply that is claimed for it, and that of the specification.
fn write_replies<W: fmt::Write>(f: &mut fmt::Formatter<W>, line: &RefusedLine) -> fmt::Result {
    let call = &line.call;
    let claimed = ReplyText {
        reply: &line.claimed,
        is_by_realm: is_by_realm(call.call.command.function),
    };
    write!(f, "{call}claimed: {claimed}\nspecified: ")?;
    write_specified(f, line)
}

fn write_specified<W: fmt::Write>(f: &mut fmt::Formatter<W>, line: &RefusedLine) -> fmt::Result {
    match &line.specified {
        Ok(accepted) => {
            let accepted = AcceptedText {
                accepted,
                farthest: line.farthest,
            };
            write!(f, "{accepted}\n")
        }
        Err(refusal) => {
            let reply = ReplyText {
                reply: &refusal.reply(),
                is_by_realm: is_by_realm(line.call.call.command.function),
            };
            write!(f, "{reply}\n")
        }
    }
}

// What decides, in words.
fn write_deciding<W: fmt::Write>(f: &mut fmt::Formatter<W>, line: &RefusedLine) -> fmt::Result {
    match (line.deciding, &line.specified) {
        (Deciding::Condition(fact), Err(refusal)) => {
            let why = WhyText {
                function: line.call.call.command.function,
                refusal: *refusal,
                fact,
            };
            write!(f, "why: {why}\n")
        }
        (Deciding::Word(word), specified) => {
            let word = WrongWordText {
                function: line.call.call.command.function,
                word,
                is_choice: matches!(specified, Ok(Accepted::Reaches(_))),
            };
            write!(f, "why: {word}\n")
        }
        _ => f.write_str("why: every condition of the command holds\n"),
    }
}

// Since which step that is so, and which later one would make it otherwise.
fn write_steps<W: fmt::Write>(f: &mut fmt::Formatter<W>, line: &RefusedLine) -> fmt::Result {
    let since = SinceText {
        since: &line.since,
        deciding: line.deciding,
    };
    write!(f, "{since}")?;
    if let Some(put) = &line.put {
        write!(f, "the one that is named is there since {put}")?;
    }
    match &line.late {
        Some(late) => write!(f, "{late}"),
        None => Ok(()),
    }
}

impl fmt::Display for BadLine<'_> {
    fn fmt<W: fmt::Write>(&self, f: &mut fmt::Formatter<W>) -> fmt::Result {
        let (line, bytes, flaw) = (self.line, Shown(self.bytes), self.flaw);
        write!(f, "line {line}: {bytes}\n{flaw}")
    }
}
