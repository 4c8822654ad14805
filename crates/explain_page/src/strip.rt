//! The strip above the lanes: the whole history, with the windows and the calls that stand out.

use crate::calls::{CallId, places_of};
use crate::focus::Focus;
use crate::own::{Class, Own, Page, Words};
use crate::shapes::{Area, close_words, open_words, rectangle};
use crate::view::View;
use crate::window::{LEFT, Stretch};
use history::History;
use std::alloc::AllocError;

/// Draws the strip, and under it which lines the picture shows.
pub(crate) fn write_strip(
    page: &mut Page,
    history: &History,
    focus: &Focus,
    view: View,
) -> Result<(), AllocError> {
    let wide = view.last().right().saturating_sub(LEFT);
    let count = history.len() as u64;
    rectangle(page, Class::Strip, part(0, wide))?;
    write_shown(page, view.first.stretch, wide, count)?;
    if let Some(second) = view.second {
        write_shown(page, second.stretch, wide, count)?;
    }
    write_tick(page, history, Class::CauseTick, focus.cause, wide)?;
    write_tick(page, history, Class::FailingTick, focus.failing, wide)?;
    open_words(page, Class::Small, LEFT, 50)?;
    page.say(Own::Words(Words::ShownLines))?;
    write_stretches(page, view)?;
    page.say(Own::Words(Words::Of))?;
    page.number(count.saturating_add(1))?;
    close_words(page)
}

fn write_tick(
    page: &mut Page,
    history: &History,
    class: Class,
    call: Option<CallId>,
    wide: u64,
) -> Result<(), AllocError> {
    let Some(places) = call.and_then(|call| places_of(history, call)) else {
        return Ok(());
    };
    let at = share(wide, u64::from(places.called), history.len() as u64);
    rectangle(page, class, part(at, 3))
}

/// Writes which lines are shown.
pub(crate) fn write_stretches(page: &mut Page, view: View) -> Result<(), AllocError> {
    write_stretch(page, view.first.stretch)?;
    match view.second {
        Some(second) => {
            page.say(Own::Words(Words::AndLines))?;
            write_stretch(page, second.stretch)
        }
        None => Ok(()),
    }
}

fn write_stretch(page: &mut Page, stretch: Stretch) -> Result<(), AllocError> {
    page.number(stretch.first_line())?;
    page.say(Own::Words(Words::To))?;
    page.number(stretch.last_line())
}

fn write_shown(page: &mut Page, stretch: Stretch, wide: u64, count: u64) -> Result<(), AllocError> {
    let from = share(wide, stretch.first as u64, count);
    let to = share(wide, stretch.end as u64, count);
    rectangle(
        page,
        Class::Shown,
        part(from, to.saturating_sub(from).max(3)),
    )
}

// A part of the strip.
fn part(from: u64, width: u64) -> Area {
    Area {
        x: LEFT.saturating_add(from),
        y: 16,
        width,
        height: 16,
    }
}

// How far into a width a place is, of so many.
fn share(wide: u64, place: u64, count: u64) -> u64 {
    wide.saturating_mul(place) / count.max(1)
}
