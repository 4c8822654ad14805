//! An entry that was read otherwise than the order has it: calls that overlapped come in another order before it.

use crate::calls::{OpenCall, command_at, reply_of};
use crate::claims::put_claims;
use crate::draft::Draft;
use crate::entry_order::{entry_precedence, later_entry_precedence};
use crate::moving::are_ordered;
use crate::precedence::{Parts, Precedence, is_decided, later_precedence, precedences};
use crate::rec_order::rec_inside;
use crate::replay::{Replay, Stopped};
use crate::ripas::{RipasLook, ripas_read};
use crate::steps::Step;
use command_rows::Sight;
use history::History;
use rmm_spec::{Accepted, FunctionId, Reply};
use std::alloc::{AllocError, Global};
use std::cmp::min;

/// How many orders are tried for a look.
const TRIES: usize = 8;

/// A step that isn't given its reply.
#[derive(Drop)]
struct Failing {
    step: Step,
    // so many steps of the order as it is come first, then these
    first: usize,
    since: Vec<Step>,
    // these come after it
    rest: Vec<Step>,
}

/// What another order shows.
#[derive(Drop)]
enum Reordered {
    /// It is taken.
    Taken,
    Fails(Failing),
    /// Calls would stand at events at which they aren't open.
    Cannot,
}

impl<'h> Draft<'h> {
    /// Puts in the CPU's call, where it reads an entry and would read it otherwise now, after calls that overlapped were put in another order.
    pub(crate) fn place_reordered(
        &mut self,
        alloc: Global,
        history: &History,
        cpu: usize,
        place: usize,
    ) -> Result<bool, AllocError> {
        let Some(call) = self.open.of(cpu).copied() else {
            return Ok(false);
        };
        if !self.reads_otherwise(&call) {
            return Ok(false);
        }
        let mut known: Vec<Precedence> = Vec::new(alloc);
        let mut failing = Failing {
            step: call.step(place),
            first: self.steps.len(),
            since: Vec::new(alloc),
            rest: Vec::new(alloc),
        };
        self.takes_another(alloc, history, &call, place, &mut failing, &mut known)
    }

    // Whether another order is found and taken, where a step fails now, by what has to come before what.
    fn takes_another(
        &mut self,
        alloc: Global,
        history: &History,
        call: &OpenCall<'h>,
        place: usize,
        failing: &mut Failing,
        known: &mut Vec<Precedence>,
    ) -> Result<bool, AllocError> {
        for _try in 0..TRIES {
            if !self.finds_more(alloc, history, failing, known)? {
                return Ok(false);
            }
            match self.reordered(alloc, history, known.as_slice(), call, place)? {
                Reordered::Taken => return Ok(true),
                Reordered::Fails(next) => *failing = next,
                Reordered::Cannot => return Ok(false),
            }
        }
        Ok(false)
    }

    // Whether the open call reads an entry, and would read it otherwise now.
    fn reads_otherwise(&self, call: &OpenCall<'h>) -> bool {
        if ripas_read(call.command, call.reply).is_none() {
            return false;
        }
        match self.machine.outcome_seen(call.cpu, call.command) {
            Ok(Accepted::Done { words, .. }) => !call.reply.is(&Reply::Ok(words)),
            _ => false,
        }
    }

    // Whether something has to come before something beside what is known, so that the step is given its reply. Now it is known.
    fn finds_more(
        &self,
        alloc: Global,
        history: &History,
        failing: &Failing,
        known: &mut Vec<Precedence>,
    ) -> Result<bool, AllocError> {
        let mut found = self.found(alloc, history, failing, known.as_slice())?;
        if found.is_empty() {
            return Ok(false);
        }
        known.append(&mut found)?;
        Ok(true)
    }

    // What has to come before what, beside what is known, so that the step is given its reply: as a RIPAS was read, or calls on a REC came before.
    fn found(
        &self,
        alloc: Global,
        history: &History,
        failing: &Failing,
        known: &[Precedence],
    ) -> Result<Vec<Precedence>, AllocError> {
        let Some(early) = self.steps.as_slice().get(..failing.first) else {
            return Ok(Vec::new(alloc));
        };
        let parts = Parts {
            early,
            late: failing.since.as_slice(),
        };
        if let Some(one) = entry_precedence(history, failing.step, parts, known) {
            return listed(alloc, Some(one));
        }
        let look = self.look(history, failing.step, parts);
        if let Some(look) = look {
            let found = precedences(alloc, history, look, parts, known)?;
            if !found.is_empty() {
                return Ok(found);
            }
        }
        listed(alloc, self.later_found(history, failing, look, known))
    }

    // That a later step comes before it, or the last step that changed its REC, where it reads no RIPAS.
    fn later_found(
        &self,
        history: &History,
        failing: &Failing,
        look: Option<RipasLook>,
        known: &[Precedence],
    ) -> Option<Precedence> {
        let rest = failing.rest.as_slice();
        let one = match look {
            Some(look) => later_precedence(history, look, rest, known),
            None => self.rec_precedence(history, failing.step),
        };
        match one {
            Some(one) if !is_decided(one, known) => Some(one),
            _ => later_entry_precedence(history, failing.step, rest, known),
        }
    }

    // The look that a step after these is, where it reads a RIPAS.
    fn look(&self, history: &History, step: Step, before: Parts<'_>) -> Option<RipasLook> {
        let command = command_at(history, step.called as usize)?;
        let read = ripas_read(command, reply_of(history, step.returned)?)?;
        let rd = match command.function {
            FunctionId::RttReadEntry => *command.words.first()?,
            _ => {
                let rec = self.machine.rec(rec_inside(history, step.cpu, before)?)?;
                rec.owner.address()
            }
        };
        Some(RipasLook {
            rd,
            read,
            called: step.called,
            returned: step.returned,
        })
    }

    // Gives the steps their replies in an order with what is known, and the call its own.
    fn reordered(
        &mut self,
        alloc: Global,
        history: &History,
        known: &[Precedence],
        call: &OpenCall<'h>,
        place: usize,
    ) -> Result<Reordered, AllocError> {
        let first = self.first_of(known);
        let Some(since) = self.steps.as_slice().get(first..) else {
            return Ok(Reordered::Cannot);
        };
        let mut steps = since.to_vec(alloc)?;
        steps.push(call.step(place))?;
        if !are_ordered(&mut steps, known) {
            return Ok(Reordered::Cannot);
        }
        self.replayed(alloc, history, first, steps.as_slice(), call)
    }

    // Gives these steps their replies after the first, so many.
    fn replayed(
        &mut self,
        alloc: Global,
        history: &History,
        first: usize,
        steps: &[Step],
        call: &OpenCall<'h>,
    ) -> Result<Reordered, AllocError> {
        let Some(start) = self.machine_after(alloc, history, first)? else {
            return Ok(Reordered::Cannot);
        };
        let mut replay = Replay::new(alloc, start)?;
        match replay.take_all(history, steps, call.returned)? {
            Some(stopped) => failed(alloc, first, replay, stopped, steps),
            None => self.take_order(first, replay, usize::from(call.cpu)),
        }
    }

    // Takes another order of the steps after the first, with the CPU's call in it.
    fn take_order(
        &mut self,
        first: usize,
        replay: Replay,
        cpu: usize,
    ) -> Result<Reordered, AllocError> {
        let mut replay = replay;
        self.take_steps(first, &mut replay)?;
        self.machine = replay.into_machine();
        self.note_placed(cpu)?;
        Ok(Reordered::Taken)
    }

    // Takes the steps and their claims. Open calls that only look may wait on.
    fn take_steps(&mut self, first: usize, replay: &mut Replay) -> Result<(), AllocError> {
        for step in &replay.waiting {
            self.open.take_back(usize::from(step.cpu));
        }
        put_claims(&mut self.claims, replay.claims.as_slice())?;
        self.steps.truncate(first);
        self.steps.append(&mut replay.order)?;
        Ok(())
    }

    // The first of the steps that have to come before or after another.
    fn first_of(&self, known: &[Precedence]) -> usize {
        let mut first = self.steps.len();
        for precedence in known {
            first = min(first, self.last_index(precedence.first));
            first = min(first, self.last_index(precedence.second));
        }
        first
    }

    /// Where the call stands that was made at the place, or how many stand.
    pub(crate) fn last_index(&self, called: u32) -> usize {
        for (index, step) in self.steps.iter().enumerate().rev() {
            if step.called == called {
                return index;
            }
            if step.at < called {
                break;
            }
        }
        self.steps.len()
    }
}

// What is there, as a list.
fn listed(alloc: Global, one: Option<Precedence>) -> Result<Vec<Precedence>, AllocError> {
    let mut list = Vec::new(alloc);
    if let Some(one) = one {
        list.push(one)?;
    }
    Ok(list)
}

// That a step fails after those that were given their replies, and before the rest.
fn failed(
    alloc: Global,
    first: usize,
    replay: Replay,
    stopped: Stopped,
    steps: &[Step],
) -> Result<Reordered, AllocError> {
    let rest = match steps.get(stopped.passed..) {
        Some(rest) => rest.to_vec(alloc)?,
        None => Vec::new(alloc),
    };
    Ok(Reordered::Fails(Failing {
        step: stopped.step,
        first,
        since: replay.order,
        rest,
    }))
}
