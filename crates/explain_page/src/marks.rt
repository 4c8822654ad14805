//! The steps whose calls a picture shows.

ghost use Rattle.std.specs.Prelude.{◌≡◌};

use crate::calls::{CallId, Calls, calls_in};
use crate::view::View;
use crate::window::{Stretch, Window};
use certificate::{Certificate, LineRef};
use history::History;
use std::alloc::{AllocError, Global};

/// A step, counted from 1, the call that its line names, and the window that shows it.
#[derive(Clone, Copy)]
pub(crate) struct Mark {
    pub(crate) step: u64,
    pub(crate) call: CallId,
    pub(crate) window: Window,
}

/// The steps up to the last one whose calls a window touches, in the claimed order. A call that both touch is marked in the first.
pub(crate) fn marks_in(
    alloc: Global,
    history: &History,
    certificate: &Certificate,
    view: View,
    last_step: u64,
) -> Result<Vec<Mark>, AllocError> {
    let first = lanes_of(history, view.first.stretch);
    let second = lanes_of(history, view.last().stretch);
    let mut marks = Vec::new(alloc);
    for index in 0..certificate.len() {
        let step = index as u64 + 1;
        if step > last_step {
            break;
        }
        let call = named_by(certificate.line(index));
        let window = if is_in(&first, call) {
            view.first
        } else if is_in(&second, call) {
            view.last()
        } else {
            continue;
        };
        marks.push(Mark { step, call, window })?;
    }
    Ok(marks)
}

fn named_by(line: LineRef<'_>) -> CallId {
    match line {
        LineRef::Keep { cpu, number } | LineRef::Unfinished { cpu, number, .. } => {
            CallId { cpu, number }
        }
    }
}

// The calls of each CPU that the stretch touches.
fn lanes_of(history: &History, stretch: Stretch) -> [Calls; 8] {
    let mut lanes = [Calls { first: 0, end: 0 }; 8];
    for cpu in 0..8 {
        lanes[cpu] = calls_in(history, stretch, cpu as u8);
    }
    lanes
}

fn is_in(lanes: &[Calls; 8], call: CallId) -> bool {
    match lanes.get(call.cpu as usize) {
        Some(calls) => calls.contains(call.number),
        None => false,
    }
}
