//! Facts that are supposed to deny a reply together.

use crate::last_return::LastReturn;
use crate::supposing::{supposed, supposed_entry, supposed_page, supposed_tag, supposed_together};
use crate::supposing_recs::{
    supposed_asking, supposed_idle, supposed_of_rec, supposed_pages, supposed_running,
    supposed_stopped,
};
use crate::supposing_ripas::supposed_inside;
use history::History;
use verdict_laws::Fact;

/// How many sets of facts are supposed of a return.
pub(crate) const SETS: u32 = 12;

/// How many facts are supposed together at most: two of each granule that a call names, how wide its realm is, and who has its VMID.
const MOST_FACTS: usize = 10;

/// Facts that are supposed together: the first of these, so many.
#[derive(Clone, Copy)]
pub(crate) struct Together {
    facts: [Fact; MOST_FACTS],
    count: usize,
}

impl Together {
    /// None.
    pub(crate) fn new() -> Self {
        Together {
            facts: [Fact::NewRealm { rd: 0 }; MOST_FACTS],
            count: 0,
        }
    }

    /// The facts.
    pub(crate) fn as_slice(&self) -> &[Fact] {
        &self.facts[..self.count.min(MOST_FACTS)]
    }

    /// Takes one more, where there is room.
    pub(crate) fn push(&mut self, fact: Fact) {
        if let Some(place) = self.facts.get_mut(self.count) {
            *place = fact;
            self.count = self.count.saturating_add(1);
        }
    }
}

/// The set of that number, below `SETS`: the first have one fact at most.
pub(crate) fn supposed_set(
    history: &History,
    count: u32,
    last: &LastReturn<'_>,
    set: u32,
) -> Together {
    match set {
        0 => of_one(supposed(history, count, last)),
        1 => of_one(supposed_entry(last)),
        2 => of_one(supposed_tag(history, count, last)),
        3 => of_one(supposed_page(history, count, last)),
        4 => of_one(supposed_running(history, count, last)),
        5 => of_one(supposed_asking(history, count, last)),
        6 => supposed_together(history, count, last),
        7 => supposed_of_rec(history, count, last),
        8 => supposed_idle(last),
        9 => supposed_stopped(history, count, last),
        10 => supposed_pages(history, count, last),
        _ => supposed_inside(history, count, last),
    }
}

/// The fact, where there is one.
fn of_one(fact: Option<Fact>) -> Together {
    let mut facts = Together::new();
    if let Some(fact) = fact {
        facts.push(fact);
    }
    facts
}
