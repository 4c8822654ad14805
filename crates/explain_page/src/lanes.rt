//! The lanes of the CPUs, and the lines of the history under them.

use crate::own::{Class, Own, Page, Words};
use crate::shapes::{Area, close_words, open_words, rectangle};
use crate::view::View;
use crate::window::{LANE, LEFT, Window, line_of};
use std::alloc::AllocError;

/// How many events are between two numbers of lines.
const BETWEEN: usize = 10;

/// Draws a CPU's lane with its name on both sides.
pub(crate) fn write_lane(page: &mut Page, view: View, cpu: u8) -> Result<(), AllocError> {
    let class = if cpu % 2 == 0 {
        Class::Lane
    } else {
        Class::OddLane
    };
    let top = view.first.lane_top(cpu);
    let right = view.last().right();
    let area = Area {
        x: 0,
        y: top,
        width: right + LEFT,
        height: LANE,
    };
    rectangle(page, class, area)?;
    write_cpu(page, 6, top + 35, cpu)?;
    write_cpu(page, right + 10, top + 35, cpu)
}

fn write_cpu(page: &mut Page, x: u64, y: u64, cpu: u8) -> Result<(), AllocError> {
    open_words(page, Class::Cpu, x, y)?;
    page.say(Own::Words(Words::Cpu))?;
    page.number(u64::from(cpu))?;
    close_words(page)
}

/// Writes under the lanes of so many CPUs on which line of the history an event stands, for some of the windows'.
pub(crate) fn write_lines(page: &mut Page, view: View, cpus: u8) -> Result<(), AllocError> {
    open_words(page, Class::Small, 6, view.first.lane_top(cpus) + 16)?;
    page.say(Own::Words(Words::Line))?;
    close_words(page)?;
    write_numbers(page, view.first, cpus)?;
    match view.second {
        Some(second) => write_numbers(page, second, cpus),
        None => Ok(()),
    }
}

fn write_numbers(page: &mut Page, window: Window, cpus: u8) -> Result<(), AllocError> {
    let y = window.lane_top(cpus) + 16;
    let step = if window.stretch.len() <= 2 * BETWEEN {
        1
    } else {
        BETWEEN
    };
    for place in window.stretch.first..window.stretch.end {
        if place % step == 0 {
            open_words(page, Class::Small, window.x(place).max(LEFT), y)?;
            page.number(line_of(place))?;
            close_words(page)?;
        }
    }
    Ok(())
}

/// Draws the gap between two windows.
pub(crate) fn write_gap(page: &mut Page, view: View, cpus: u8) -> Result<(), AllocError> {
    let Some(second) = view.second else {
        return Ok(());
    };
    let left = view.first.right();
    let top = view.first.lane_top(0);
    let area = Area {
        x: left,
        y: top,
        width: second.left().saturating_sub(left),
        height: view.first.lane_top(cpus).saturating_sub(top),
    };
    rectangle(page, Class::Gap, area)
}
