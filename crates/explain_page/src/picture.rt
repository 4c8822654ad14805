//! The picture of a run.

use crate::bars::{write_bars, write_name};
use crate::calls::CallId;
use crate::focus::Focus;
use crate::lanes::{write_gap, write_lane, write_lines};
use crate::marks::{Mark, marks_in};
use crate::own::{Attribute, Frame, Own, Page, Tag, Words};
use crate::shapes::attribute;
use crate::steps::{write_marks, write_table};
use crate::strip::{write_stretches, write_strip};
use crate::view::{View, view_of};
use crate::window::LEFT;
use explain::Run;
use history::History;
use std::alloc::{AllocError, Global};

/// Writes the picture of a run with at most so many events, what its shapes mean, and the table of its steps, which are returned.
pub(crate) fn write_picture(
    alloc: Global,
    page: &mut Page,
    run: &Run,
    focus: &Focus,
    around: usize,
    report: &[u8],
) -> Result<Vec<Mark>, AllocError> {
    let history = &run.history;
    let view = view_of(history, focus, around);
    let marks = marks_in(alloc, history, &run.certificate, view, focus.last_step)?;
    let cpus = history.config().cpus();
    open_picture(page, view, cpus)?;
    if !view.is_whole {
        write_strip(page, history, focus, view)?;
    }
    write_cpus(alloc, page, history, focus, view, cpus)?;
    write_gap(page, view, cpus)?;
    write_lines(page, view, cpus)?;
    write_marks(alloc, page, history, focus, marks.as_slice())?;
    write_names(alloc, page, history, focus, view)?;
    page.say(Own::Frame(Frame::Legend))?;
    write_table(alloc, page, history, focus, marks.as_slice(), report)?;
    Ok(marks)
}

fn write_cpus(
    alloc: Global,
    page: &mut Page,
    history: &History,
    focus: &Focus,
    view: View,
    cpus: u8,
) -> Result<(), AllocError> {
    for cpu in 0..cpus {
        write_lane(page, view, cpu)?;
        write_bars(alloc, page, history, focus, view.first, cpu)?;
        if let Some(second) = view.second {
            write_bars(alloc, page, history, focus, second, cpu)?;
        }
    }
    Ok(())
}

fn write_names(
    alloc: Global,
    page: &mut Page,
    history: &History,
    focus: &Focus,
    view: View,
) -> Result<(), AllocError> {
    if let Some(call) = focus.cause {
        write_name_in(alloc, page, history, view, call)?;
    }
    if let Some(call) = focus.failing {
        write_name_in(alloc, page, history, view, call)?;
    }
    Ok(())
}

// Under its bar in each window that has it.
fn write_name_in(
    alloc: Global,
    page: &mut Page,
    history: &History,
    view: View,
    call: CallId,
) -> Result<(), AllocError> {
    write_name(alloc, page, history, view.first, call)?;
    match view.second {
        Some(second) => write_name(alloc, page, history, second, call),
        None => Ok(()),
    }
}

fn open_picture(page: &mut Page, view: View, cpus: u8) -> Result<(), AllocError> {
    let width = view.last().right() + LEFT;
    let height = view.first.lane_top(cpus) + 28;
    page.say(Own::Frame(Frame::Figure))?;
    attribute(page, Attribute::Width, width)?;
    attribute(page, Attribute::Height, height)?;
    page.say(Own::Attribute(Attribute::ViewBox))?;
    page.number(width)?;
    page.say(Own::Tag(Tag::Space))?;
    page.number(height)?;
    page.say(Own::Frame(Frame::FigureTitle))?;
    write_title(page, view, cpus)?;
    page.say(Own::Frame(Frame::Patterns))
}

fn write_title(page: &mut Page, view: View, cpus: u8) -> Result<(), AllocError> {
    page.say(Own::Words(Words::CallsOf))?;
    page.number(u64::from(cpus))?;
    page.say(Own::Words(Words::CpusOnLines))?;
    write_stretches(page, view)?;
    page.say(Own::Words(Words::OfTheHistory))
}
