//! The calls that are open at an event, by their CPUs.

use crate::calls::{CPUS, OpenCall};

/// The open call of each CPU, where it has one that returns later.
#[derive(Clone, Copy)]
pub(crate) struct OpenCalls<'h> {
    calls: [Option<OpenCall<'h>>; CPUS],
    // how many of them change nothing and don't stand in the order
    looks: usize,
}

impl<'h> OpenCalls<'h> {
    /// No call is open.
    pub(crate) fn none() -> OpenCalls<'h> {
        OpenCalls {
            calls: [None; CPUS],
            looks: 0,
        }
    }

    /// The CPU's open call.
    pub(crate) fn of(&self, cpu: usize) -> Option<&OpenCall<'h>> {
        match self.calls.get(cpu) {
            Some(Some(call)) => Some(call),
            _ => None,
        }
    }

    /// The call is its CPU's open one, which had none.
    pub(crate) fn put(&mut self, call: OpenCall<'h>) {
        if call.is_waiting_look() {
            self.looks = self.looks.saturating_add(1);
        }
        if let Some(open) = self.calls.get_mut(usize::from(call.cpu)) {
            *open = Some(call);
        }
    }

    /// The CPU's open call stands in the order now.
    pub(crate) fn place(&mut self, cpu: usize) {
        if self.waits_for_a_look(cpu) {
            self.looks = self.looks.saturating_sub(1);
        }
        if let Some(Some(call)) = self.calls.get_mut(cpu) {
            call.is_placed = true;
        }
    }

    /// The CPU's open call doesn't stand in the order any more.
    pub(crate) fn take_back(&mut self, cpu: usize) {
        if let Some(Some(call)) = self.calls.get_mut(cpu) {
            call.is_placed = false;
        }
        if self.waits_for_a_look(cpu) {
            self.looks = self.looks.saturating_add(1);
        }
    }

    /// The CPU's open call, which stands in the order, is open no longer.
    pub(crate) fn close(&mut self, cpu: usize) {
        if let Some(open) = self.calls.get_mut(cpu) {
            *open = None;
        }
    }

    /// Whether an open call changes nothing, and doesn't stand in the order.
    pub(crate) fn has_looks(&self) -> bool {
        self.looks > 0
    }

    /// Whether the CPU's open call changes nothing.
    pub(crate) fn is_look(&self, cpu: usize) -> bool {
        match self.of(cpu) {
            Some(call) => call.is_look,
            None => false,
        }
    }

    /// Whether the CPU has an open call that doesn't stand in the order.
    pub(crate) fn waits(&self, cpu: usize) -> bool {
        match self.of(cpu) {
            Some(call) => !call.is_placed,
            None => false,
        }
    }

    /// Whether the CPU's open call changes nothing, and doesn't stand in the order.
    pub(crate) fn waits_for_a_look(&self, cpu: usize) -> bool {
        match self.of(cpu) {
            Some(call) => call.is_waiting_look(),
            None => false,
        }
    }

    /// The open call that returns first after the place.
    pub(crate) fn next_return(&self, place: usize) -> Option<&OpenCall<'h>> {
        let mut next: Option<&OpenCall<'h>> = None;
        for open in &self.calls {
            let Some(call) = open else {
                continue;
            };
            if call.returned as usize <= place {
                continue;
            }
            match next {
                Some(first) if first.returned < call.returned => {}
                _ => next = Some(call),
            }
        }
        next
    }
}
