//! The bars of calls.

use crate::calls::{CallId, calls_in, places_of};
use crate::focus::{Focus, Role};
use crate::own::{Class, Own, Page, Tag};
use crate::shapes::{Area, close_words, open_words, rectangle};
use crate::window::{BAR, Window};
use explain::NamedCall;
use history::{History, Places};
use std::alloc::{AllocError, Global};

/// How far below its lane's top a bar is.
pub(crate) const BELOW: u64 = 20;

/// Where the right part of a window begins.
const RIGHT_PART: u64 = 540;

/// Draws the bars of a CPU's calls that a window touches.
pub(crate) fn write_bars(
    alloc: Global,
    page: &mut Page,
    history: &History,
    focus: &Focus,
    window: Window,
    cpu: u8,
) -> Result<(), AllocError> {
    let calls = calls_in(history, window.stretch, cpu);
    for number in calls.first..calls.end {
        let call = CallId { cpu, number };
        let Some(places) = places_of(history, call) else {
            break;
        };
        let area = area_of(window, cpu, places);
        write_bar(alloc, page, history, call, focus.role(call), area)?;
    }
    Ok(())
}

/// From the call to its return, or to the window's end.
pub(crate) fn area_of(window: Window, cpu: u8, places: Places) -> Area {
    let left = window.x(places.called as usize);
    let end = match places.returned {
        Some(returned) => returned as usize,
        None => window.stretch.end,
    };
    let right = window.x(end.saturating_add(1));
    Area {
        x: left + 1,
        y: window.lane_top(cpu) + BELOW,
        width: right.saturating_sub(left).max(4) - 2,
        height: BAR,
    }
}

fn write_bar(
    alloc: Global,
    page: &mut Page,
    history: &History,
    call: CallId,
    role: Role,
    area: Area,
) -> Result<(), AllocError> {
    let text = text_of(alloc, history, call)?;
    page.say(Own::Tag(Tag::Group))?;
    page.text(text.as_bytes())?;
    page.say(Own::Tag(Tag::GroupTitled))?;
    rectangle(page, class_of(role), area)?;
    page.say(Own::Tag(Tag::GroupEnd))
}

/// Writes the command of a call that stands out under its bar, where the window has it. At the right of a picture it ends with
/// the bar.
pub(crate) fn write_name(
    alloc: Global,
    page: &mut Page,
    history: &History,
    window: Window,
    call: CallId,
) -> Result<(), AllocError> {
    let Some(places) = places_of(history, call) else {
        return Ok(());
    };
    if !window.stretch.touches(places) {
        return Ok(());
    }
    let area = area_of(window, call.cpu, places);
    let text = text_of(alloc, history, call)?;
    let y = area.y.saturating_add(32);
    if area.x < window.left() + RIGHT_PART {
        open_words(page, Class::Name, area.x, y)?;
    } else {
        open_words(page, Class::NameAtEnd, area.x.saturating_add(area.width), y)?;
    }
    page.text(command_in(text.as_str()).as_bytes())?;
    close_words(page)
}

fn class_of(role: Role) -> Class {
    match role {
        Role::Plain => Class::Bar,
        Role::Failing => Class::FailingBar,
        Role::Cause => Class::CauseBar,
    }
}

/// A call as a report names it: its command, and both of its lines.
pub(crate) fn text_of(
    alloc: Global,
    history: &History,
    call: CallId,
) -> Result<String, AllocError> {
    let CallId { cpu, number } = call;
    match history.call_of(cpu, number) {
        Some(call) => {
            let named = NamedCall { cpu, number, call };
            format!(in alloc; "{named}")
        }
        None => format!(in alloc; "call {number} of CPU {cpu}"),
    }
}

// The command in the text of a call.
fn command_in(text: &str) -> &str {
    let behind = match text.split_once(": ") {
        Some((_, behind)) => behind,
        None => text,
    };
    match behind.split_once('\n') {
        Some((command, _)) => command,
        None => behind,
    }
}
