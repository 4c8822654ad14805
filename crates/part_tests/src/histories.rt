//! Histories recorded, written and read.

use history::{Call, Config, Event, History, read};
use rmi_codec::{read_command, read_reply};
use rmi_view::ReplyRef;
use rmm_spec::{Command, FunctionId, Reply};
use std::alloc::Global;
use std::test::Fail;
use text_writers::{history_reads_back, write_history};

// The event that a line of a history's text states.
fn event(line: &str) -> Result<Event, Fail> {
    match parts(line) {
        Some(("c", cpu, number, text)) => called(cpu, number, text),
        Some((_, cpu, number, text)) => returned(cpu, number, text),
        None => Err(Fail::from("no event")),
    }
}

/// A word, a CPU, a number and what is behind them, with a space between each two.
pub(crate) fn parts(line: &str) -> Option<(&str, u8, u32, &str)> {
    let (word, rest) = line.split_once(' ')?;
    let (cpu, rest) = numbered(rest)?;
    let (number, rest) = numbered(rest)?;
    Some((word, u8::try_from(cpu).ok()?, number, rest))
}

fn numbered(text: &str) -> Option<(u32, &str)> {
    let (number, rest) = text.split_once(' ')?;
    Some((number.parse::<u32>().ok()?, rest))
}

pub(crate) fn called(cpu: u8, number: u32, command: &str) -> Result<Event, Fail> {
    Ok(Event::Called {
        cpu,
        number,
        command: read_command(command)?,
    })
}

pub(crate) fn returned(cpu: u8, number: u32, reply: &str) -> Result<Event, Fail> {
    Ok(Event::Returned {
        cpu,
        number,
        reply: read_reply(reply)?,
    })
}

pub(crate) fn empty(alloc: Global, granules: u64, cpus: u64) -> Result<History, Fail> {
    let config = Config::new(granules, cpus).ok_or("no such machine")?;
    Ok(History::new(alloc, config))
}

pub(crate) fn record(history: &mut History, event: Event) -> Result<(), Fail> {
    if !history.fits(&event) || !history.has_room() {
        return Err(Fail::from("the event doesn't fit"));
    }
    history.push(event)?;
    Ok(())
}

fn record_lines(history: &mut History, lines: &str) -> Result<(), Fail> {
    for line in lines.lines() {
        record_line(history, line)?;
    }
    Ok(())
}

fn record_line(history: &mut History, line: &str) -> Result<(), Fail> {
    record(history, event(line)?)
}

// One of four events, of which two calls come first.
fn nth_event(nth: u8, number: u32) -> Result<Event, Fail> {
    match nth {
        0 => called(0, number, "c4000151 1000"),
        1 => called(1, number, "c4000152 2000"),
        2 => returned(1, number, "err 1 0"),
        _ => returned(0, number, "ok"),
    }
}

// Whether there is memory for one of the events, which is then pushed. A push that is refused behind that is a failure.
fn push_in_room(history: &mut History, nth: u8, number: u32) -> Result<bool, Fail> {
    let before = history.len();
    if history.make_room().is_err() {
        return if history.len() == before {
            Ok(false)
        } else {
            Err(Fail::from("a refusal that isn't without effect"))
        };
    }
    record(history, nth_event(nth, number)?)?;
    if history.len().wrapping_sub(before) == 1 {
        Ok(true)
    } else {
        Err(Fail::from("not one event more"))
    }
}

// Whether each of four events is pushed, where an allocation may be refused once.
fn push_round(history: &mut History, number: u32) -> Result<bool, Fail> {
    for nth in 0..4 {
        let is_pushed = push_in_room(history, nth, number)? || push_in_room(history, nth, number)?;
        if !is_pushed {
            return Ok(false);
        }
    }
    Ok(true)
}

fn push_rounds(history: &mut History) -> Result<bool, Fail> {
    for number in 0..9 {
        if !push_round(history, number)? {
            return Ok(false);
        }
    }
    Ok(history.len() == 36)
}

// One allocation may be refused in `make_room`, and none in the push after it.
#[test]
fn push_after_make_room_is_never_refused(rt: HostRuntime) -> Result<(), Fail> {
    let mut history = empty(rt.alloc(), 4, 2)?;
    assert!(rt; push_rounds(&mut history)?);
    Ok(())
}

fn none_fits(history: &History, lines: &str) -> Result<bool, Fail> {
    for line in lines.lines() {
        if fits_line(history, line)? {
            return Ok(false);
        }
    }
    Ok(true)
}

fn fits_line(history: &History, line: &str) -> Result<bool, Fail> {
    Ok(history.fits(&event(line)?))
}

// A call with fewer words than its function takes.
fn short_call() -> Result<Event, Fail> {
    let Command { words, .. } = read_command("c4000151 1000")?;
    let command = Command {
        function: FunctionId::RealmCreate,
        words,
    };
    Ok(Event::Called {
        cpu: 0,
        number: 0,
        command,
    })
}

#[test]
fn fits_what_can_follow(rt: HostRuntime) -> Result<(), Fail> {
    let mut history = empty(rt.alloc(), 4, 1)?;
    assert!(rt; fits_no_wrong_first(&history)?);
    record_lines(&mut history, "c 0 0 c4000151 1000\n")?;
    assert!(rt; fits_its_return_alone(&history)?);
    Ok(())
}

fn fits_no_wrong_first(history: &History) -> Result<bool, Fail> {
    let first = "r 0 0 ok\nc 1 0 c4000151 1000\nc 0 1 c4000151 1000\n";
    Ok(history.is_empty() && none_fits(history, first)? && !history.fits(&short_call()?))
}

fn fits_its_return_alone(history: &History) -> Result<bool, Fail> {
    Ok(
        none_fits(history, "c 0 1 c4000151 1000\nr 0 1 ok\n")?
            && fits_line(history, "r 0 0 misplaced")?,
    )
}

const TEXT: &str = "rmh1 4096 8\nc 7 0 c4000151 fff000\nc 0 0 c4000152 ffffffffffffffff\n\
                    r 7 0 ok 0 a\nc 7 1 c4000151 0\nr 0 0 err 255 10\nr 7 1 misplaced\n";

const EVENTS: &str = "c 7 0 c4000151 fff000\nc 0 0 c4000152 ffffffffffffffff\n\
                      r 7 0 ok 0 a\nc 7 1 c4000151 0\nr 0 0 err 255 10\nr 7 1 misplaced\n";

// Whether the text is appended to what stands already.
fn has_text(alloc: Global, history: &History) -> Result<bool, Fail> {
    let mut text = Vec::new(alloc);
    text.extend_from_slice(b"before ")?;
    write_history(history, &mut text)?;
    Ok(is_behind(text.as_slice(), TEXT))
}

pub(crate) fn is_behind(written: &[u8], text: &str) -> bool {
    written.strip_prefix(b"before ".as_slice()) == Some(text.as_bytes())
}

fn comes_back(alloc: Global, history: &History) -> Result<bool, Fail> {
    let again = history_reads_back(alloc, history)?;
    is_whole(alloc, &again)
}

fn is_whole(alloc: Global, history: &History) -> Result<bool, Fail> {
    Ok(history.len() == 6 && has_text(alloc, history)?)
}

fn is_written(alloc: Global, history: &History) -> Result<bool, Fail> {
    Ok(has_text(alloc, history)? && comes_back(alloc, history)?)
}

#[test]
fn writes_what_is_recorded(rt: HostRuntime) -> Result<(), Fail> {
    let mut history = empty(rt.alloc(), 4096, 8)?;
    record_lines(&mut history, EVENTS)?;
    assert!(rt; is_written(rt.alloc(), &history)?);
    Ok(())
}

// Whether the second call of CPU 7 stands in the text's lines 5 and 7.
fn has_last_call(history: &History) -> Result<bool, Fail> {
    let command = read_command("c4000151 0")?;
    Ok(match history.call_of(7, 1) {
        Some(call) => is_last_call(&call, &command),
        None => false,
    })
}

fn is_last_call(call: &Call, command: &Command) -> bool {
    let is_answered = match &call.answer {
        Some(answer) => answer.returned == 7 && matches!(answer.reply, Reply::Misplaced),
        None => false,
    };
    is_answered && call.called == 5 && call.command == *command
}

fn has_copy(alloc: Global, history: &History) -> Result<bool, Fail> {
    let again = history.copy(alloc)?;
    Ok(is_whole(alloc, &again)? && has_last_call(&again)?)
}

#[test]
fn copies_each_event(rt: HostRuntime) -> Result<(), Fail> {
    let history = read(rt.alloc(), TEXT.as_bytes())?;
    let is_copied = has_copy(rt.alloc(), &history);
    drop(history);
    assert!(rt; is_copied?);
    Ok(())
}

fn has_its_sizes(history: &History) -> bool {
    let config = history.config();
    (config.granules(), config.cpus()) == (4, 1) && history.len() == 2
}

fn has_its_places(history: &History) -> bool {
    match history.places_of(0, 0) {
        Some(places) => (places.called, places.returned) == (0, Some(1)),
        None => false,
    }
}

fn has_its_call(history: &History) -> bool {
    match history.call_of(0, 0) {
        Some(call) => is_answered(&call) && is_delegate(&call) && is_first(history, &call.command),
        None => false,
    }
}

fn is_first(history: &History, command: &Command) -> bool {
    if history.is_empty() {
        return false;
    }
    match history.command_at(0) {
        Some(first) => *command == first.to_command(),
        None => false,
    }
}

fn is_answered(call: &Call) -> bool {
    match &call.answer {
        Some(answer) => {
            answer.returned == 3 && matches!(&answer.reply, Reply::Ok(words) if words.is_empty())
        }
        None => false,
    }
}

fn is_delegate(call: &Call) -> bool {
    call.called == 2
        && call.command.function == FunctionId::GranuleDelegate
        && call.command.words.as_slice() == [0x1000].as_slice()
}

fn has_its_events(history: &History) -> bool {
    if history.len() != 2 {
        return false;
    }
    history.command_at(1).is_none()
        && history.reply_at(0).is_none()
        && matches!(history.reply_at(1), Some(ReplyRef::Ok(words)) if words.is_empty())
        && history.called_at(0) == Some((0, 0))
        && history.called_at(1).is_none()
}

fn has_its_one_call(history: &History) -> bool {
    has_its_places(history)
        && has_its_call(history)
        && history.places_of(0, 1).is_none()
        && history.call_of(0, 1).is_none()
}

#[test]
fn finds_the_call_that_was_read(rt: HostRuntime) -> Result<(), Fail> {
    let history = read(rt.alloc(), b"rmh1 4 1\nc 0 0 c4000151 1000\nr 0 0 ok\n")?;
    assert!(rt; has_its_sizes(&history) && has_its_events(&history));
    assert!(rt; has_its_one_call(&history));
    Ok(())
}
