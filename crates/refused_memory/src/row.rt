//! The rows, by their names.

use crate::fault::Fault;
use crate::judged::{check_script, feed_script, offer_script};
use crate::monitored::{
    DRAINED_QUEUE, DRAINED_TICKETS, FULL_QUEUE, SAME_GRANULE, THREE_TICKETS, monitor_steps,
};
use crate::script::{DELEGATED_GRANULE, PAGE_OF_TWO_REALMS, RIPAS_CHANGE};
use crate::turned::play_turns;
use std::alloc::Global;
use std::sync::Wait;

/// All names, in the order in which the rows are played where no word names one.
pub(crate) const NAMES: [&str; 11] = [
    "granule",
    "granule_fed",
    "page",
    "page_fed",
    "ripas",
    "turns",
    "full_queue",
    "three_tickets",
    "drained_tickets",
    "refused_commit",
    "drained_queue",
];

/// A run.
#[derive(Clone, Copy)]
pub(crate) enum Row {
    /// One delegated granule, checked whole.
    Granule,
    /// The same, its certificate fed to a session byte by byte.
    GranuleFed,
    /// Two realms that fight for one page, checked whole.
    Page,
    /// The same, fed.
    PageFed,
    /// A RIPAS change, offered to the machine step by step.
    Ripas,
    /// Two CPUs that take turns and want one granule.
    Turns,
    /// A monitor whose queue is full at the return of its one CPU.
    FullQueue,
    /// A monitor whose CPUs delegate one granule, which is then taken back.
    ThreeTickets,
    /// The same, and what the first command recorded is drained at once.
    DrainedTickets,
    /// A monitor whose CPUs delegate one granule, so that a refused commit lets the other in.
    RefusedCommit,
    /// A monitor whose queue is full until it is drained.
    DrainedQueue,
}

impl Row {
    pub(crate) fn named(name: &str) -> Option<Row> {
        Some(match name {
            "granule" => Row::Granule,
            "granule_fed" => Row::GranuleFed,
            "page" => Row::Page,
            "page_fed" => Row::PageFed,
            "ripas" => Row::Ripas,
            "turns" => Row::Turns,
            "full_queue" => Row::FullQueue,
            "three_tickets" => Row::ThreeTickets,
            "drained_tickets" => Row::DrainedTickets,
            "refused_commit" => Row::RefusedCommit,
            "drained_queue" => Row::DrainedQueue,
            _ => return None,
        })
    }

    /// Plays the run, and appends what is left of it.
    pub(crate) fn play<R: Wait>(
        self,
        rt: &R,
        alloc: Global,
        out: &mut Vec<u8>,
    ) -> Result<(), Fault> {
        match self {
            Row::Granule => check_script(alloc, DELEGATED_GRANULE, out),
            Row::GranuleFed => feed_script(alloc, DELEGATED_GRANULE, out),
            Row::Page => check_script(alloc, PAGE_OF_TWO_REALMS, out),
            Row::PageFed => feed_script(alloc, PAGE_OF_TWO_REALMS, out),
            Row::Ripas => offer_script(alloc, RIPAS_CHANGE, out),
            Row::Turns => play_turns(alloc, out),
            Row::FullQueue => monitor_steps(rt, alloc, 1, 1, &FULL_QUEUE, out),
            Row::ThreeTickets => monitor_steps(rt, alloc, 2, 16, &THREE_TICKETS, out),
            Row::DrainedTickets => monitor_steps(rt, alloc, 2, 16, &DRAINED_TICKETS, out),
            Row::RefusedCommit => monitor_steps(rt, alloc, 2, 16, &SAME_GRANULE, out),
            Row::DrainedQueue => monitor_steps(rt, alloc, 2, 1, &DRAINED_QUEUE, out),
        }
    }
}
