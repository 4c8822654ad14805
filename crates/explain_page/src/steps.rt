//! The steps of an order: marks on the bars, joined by a line, and a table of them.

use crate::bars::{BELOW, area_of, text_of};
use crate::calls::places_of;
use crate::focus::{Focus, Role};
use crate::links::{close_link, link_to_bar, open_bar};
use crate::marks::Mark;
use crate::own::{Class, Own, Page, Table, Tag};
use crate::report_lines::line_naming;
use crate::shapes::{Area, close_words, disc, open_words, rectangle};
use crate::window::{BAR, Window};
use history::{History, Places};
use std::alloc::{AllocError, Global};

/// The width of an event from which on every number stands above its bar. Else those of odd steps stand below, so that fewer
/// overlap.
const WIDE: u64 = 24;

/// Where a mark is, and the bar that it is on.
#[derive(Clone, Copy)]
struct Spot {
    mark: Mark,
    bar: Area,
    x: u64,
    y: u64,
}

/// Draws the marks and the line that joins them. Each bar with a mark leads to its row of the table.
pub(crate) fn write_marks(
    alloc: Global,
    page: &mut Page,
    history: &History,
    focus: &Focus,
    marks: &[Mark],
) -> Result<(), AllocError> {
    let spots = spots_of(alloc, history, marks)?;
    write_path(page, spots.as_slice())?;
    for spot in &spots {
        open_bar(page, spot.mark.step)?;
        let text = text_of(alloc, history, spot.mark.call)?;
        page.say(Own::Tag(Tag::Title))?;
        page.text(text.as_bytes())?;
        page.say(Own::Tag(Tag::GroupTitled))?;
        rectangle(page, Class::Hit, spot.bar)?;
        write_mark(page, focus, *spot)?;
        close_link(page)?;
    }
    Ok(())
}

// Each mark is on its call's bar, and behind the mark of the step before it where its bar goes on so far.
fn spots_of(alloc: Global, history: &History, marks: &[Mark]) -> Result<Vec<Spot>, AllocError> {
    let mut spots = Vec::new(alloc);
    let mut behind = 0;
    for mark in marks {
        let Some(places) = places_of(history, mark.call) else {
            continue;
        };
        let x = mark_x(mark.window, places, behind);
        let y = mark.window.lane_top(mark.call.cpu) + BELOW + BAR / 2;
        let bar = area_of(mark.window, mark.call.cpu, places);
        spots.push(Spot {
            mark: *mark,
            bar,
            x,
            y,
        })?;
        behind = x;
    }
    Ok(spots)
}

fn mark_x(window: Window, places: Places, behind: u64) -> u64 {
    let end = match places.returned {
        Some(returned) => returned as usize,
        None => window.stretch.end,
    };
    let least = window.x(places.called as usize) + window.column() / 2;
    let most = window.x(end) + window.column() / 2;
    behind.saturating_add(4).max(least).min(most)
}

fn write_path(page: &mut Page, spots: &[Spot]) -> Result<(), AllocError> {
    page.say(Own::Tag(Tag::Line))?;
    for spot in spots {
        page.number(spot.x)?;
        page.say(Own::Tag(Tag::Comma))?;
        page.number(spot.y)?;
        page.say(Own::Tag(Tag::Space))?;
    }
    page.say(Own::Tag(Tag::Quote))?;
    page.say(Own::Tag(Tag::Close))
}

fn write_mark(page: &mut Page, focus: &Focus, spot: Spot) -> Result<(), AllocError> {
    let Spot { mark, x, y, .. } = spot;
    let role = focus.role(mark.call);
    let fails = role == Role::Failing && mark.step == focus.last_step;
    let (class, radius) = if fails {
        (Class::FailingMark, 6)
    } else {
        (Class::Mark, 4)
    };
    disc(page, class, (x, y), radius)?;
    let class = if fails {
        Class::FailingStep
    } else {
        Class::Step
    };
    let is_wide = mark.window.column() >= WIDE;
    let is_above = is_wide || role != Role::Plain || mark.step % 2 == 0;
    let words_y = if is_above {
        y.saturating_sub(14)
    } else {
        y.saturating_add(22)
    };
    open_words(page, class, x, words_y)?;
    page.number(mark.step)?;
    close_words(page)
}

/// Writes the table of the steps that a picture shows. Each row leads to its bar.
pub(crate) fn write_table(
    alloc: Global,
    page: &mut Page,
    history: &History,
    focus: &Focus,
    marks: &[Mark],
    report: &[u8],
) -> Result<(), AllocError> {
    page.say(Own::Table(Table::Start))?;
    for mark in marks {
        let text = text_of(alloc, history, mark.call)?;
        page.say(Own::Table(row_of(focus.role(mark.call))))?;
        page.number(mark.step)?;
        page.say(Own::Table(Table::Number))?;
        link_to_bar(page, mark.step)?;
        page.say(Own::Table(Table::Call))?;
        page.text(text.as_bytes())?;
        end_row(page, line_of(focus, *mark, report))?;
    }
    page.say(Own::Table(Table::End))
}

// The line of the report that names a step whose call stands out.
fn line_of(focus: &Focus, mark: Mark, report: &[u8]) -> Option<u64> {
    match focus.role(mark.call) {
        Role::Plain => None,
        Role::Failing | Role::Cause => line_naming(report, mark.step),
    }
}

// The end of a row, with what leads to that line of the report.
fn end_row(page: &mut Page, line: Option<u64>) -> Result<(), AllocError> {
    let Some(line) = line else {
        return page.say(Own::Table(Table::RowEnd));
    };
    page.say(Own::Table(Table::InReport))?;
    page.number(line)?;
    page.say(Own::Table(Table::InReportEnd))
}

// The beginning of a row.
fn row_of(role: Role) -> Table {
    match role {
        Role::Plain => Table::Row,
        Role::Failing => Table::FailingRow,
        Role::Cause => Table::CauseRow,
    }
}
