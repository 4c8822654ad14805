//! Steps that are put in another order.

use crate::precedence::Precedence;
use crate::steps::Step;

/// How often the precedences are gone through at most, since moving a step for one may break another.
const PASSES: usize = 4;

/// What became of steps.
#[derive(Clone, Copy, PartialEq)]
enum Moved {
    /// They stand as before.
    Stood,
    Moved,
    /// One would stand at an event at which its call isn't open.
    Cannot,
}

/// Puts the steps in an order in which the first call of each precedence comes before the second, each at an event at which its call is open.
/// Whether that could be done.
pub(crate) fn are_ordered(steps: &mut Vec<Step>, precedences: &[Precedence]) -> bool {
    for _pass in 0..PASSES {
        match all_moved(steps, precedences) {
            Moved::Stood => return true,
            Moved::Moved => {}
            Moved::Cannot => return false,
        }
    }
    false
}

// Puts the steps in order for one precedence after another.
fn all_moved(steps: &mut Vec<Step>, precedences: &[Precedence]) -> Moved {
    let mut all = Moved::Stood;
    for precedence in precedences {
        match put_before(steps, *precedence) {
            Moved::Stood => {}
            Moved::Moved => all = Moved::Moved,
            Moved::Cannot => return Moved::Cannot,
        }
    }
    all
}

// Puts the first call of the precedence right before the second, or the second right after the first, or both where the second returns.
fn put_before(steps: &mut Vec<Step>, precedence: Precedence) -> Moved {
    let (Some(from), Some(to)) = (
        index_of(steps.as_slice(), precedence.first),
        index_of(steps.as_slice(), precedence.second),
    ) else {
        return Moved::Stood;
    };
    let (Some(first), Some(second)) = (steps.get(from).copied(), steps.get(to).copied()) else {
        return Moved::Stood;
    };
    if from < to {
        return Moved::Stood;
    }
    if first.called < second.at {
        move_earlier(steps, from, to, second.at);
    } else if second.returned >= first.at {
        move_later(steps, to, from, first.at);
    } else if first.called < second.returned {
        let end = last_before(steps.as_slice(), to, second.returned);
        move_later(steps, to, end, second.returned);
        move_earlier(steps, from, end, second.returned);
    } else {
        return Moved::Cannot;
    }
    Moved::Moved
}

// Where the call stands that was made at the place.
fn index_of(steps: &[Step], called: u32) -> Option<usize> {
    steps.iter().position(|step| step.called == called)
}

// The last step after the index that was put in before the place, or the index.
fn last_before(steps: &[Step], index: usize, place: u32) -> usize {
    let mut last = index;
    for (at, step) in steps.iter().enumerate() {
        if at > index && step.at < place {
            last = at;
        }
    }
    last
}

// Moves a step to an earlier index, as one that was put in at the place.
fn move_earlier(steps: &mut Vec<Step>, from: usize, to: usize, place: u32) {
    let Some(step) = steps.get(from).copied() else {
        return;
    };
    let mut moved = Step { at: place, ..step };
    for index in to..from.saturating_add(1) {
        if let Some(next) = steps.get_mut(index) {
            let passed = *next;
            *next = moved;
            moved = passed;
        }
    }
}

// Moves a step to a later index, as one that was put in at the place.
fn move_later(steps: &mut Vec<Step>, from: usize, to: usize, place: u32) {
    let Some(step) = steps.get(from).copied() else {
        return;
    };
    let mut moved = Step { at: place, ..step };
    for index in (from..to.saturating_add(1)).rev() {
        if let Some(next) = steps.get_mut(index) {
            let passed = *next;
            *next = moved;
            moved = passed;
        }
    }
}
