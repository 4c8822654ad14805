//! Which calls a slice keeps, and what is noted of granules.

use std::alloc::{AllocError, Global};

/// The bytes of a granule.
pub(crate) const GRANULE: u64 = 4096;

/// A place after each of a history.
pub(crate) const AFTER_ALL: u32 = 1_000_000;

/// A place after that.
pub(crate) const NEVER: u32 = 1_000_001;

/// What is noted of a granule.
#[derive(Clone, Copy)]
pub(crate) struct Mark {
    /// A place up to which no kept call was made that may change it.
    pub(crate) first: u32,
    /// The place of a kept call that may change it, and returns soon.
    pub(crate) known: Option<u32>,
    /// Where it stands among the granules that are lent, if it does.
    pub(crate) lending: Option<u32>,
}

/// Why a granule is unused where a kept call names it, if no kept call has changed it. Places are those at which calls were made.
#[derive(Clone, Copy)]
pub(crate) enum Unused {
    /// No call has changed it.
    Untouched,
    /// The call left it so.
    GivenUp { giver: u32 },
    /// It was a part of what the one call made and the other ended.
    PartBack { maker: u32, ender: u32 },
}

impl Unused {
    /// The place of the first call that is looked at for it.
    pub(crate) fn begins(self) -> u32 {
        match self {
            Unused::Untouched => 0,
            Unused::GivenUp { giver } => giver,
            Unused::PartBack { maker, .. } => maker,
        }
    }
}

/// A granule that is unused without a kept call before.
#[derive(Clone, Copy)]
pub(crate) struct Source {
    pub(crate) granule: u64,
    pub(crate) unused: Unused,
}

/// A choice of calls.
#[derive(Drop)]
pub(crate) struct Plan {
    /// No call that was made before this place is kept.
    pub(crate) from: u32,
    /// From there on, the numbers of kept calls in the slice, by the places of their events.
    pub(crate) numbers: Vec<Option<u32>>,
    /// And which calls are made inside of a REC in the slice.
    pub(crate) entered: Vec<bool>,
    /// By the numbers of granules.
    pub(crate) marks: Vec<Mark>,
    /// The granules that are lent first, by their addresses in bytes.
    pub(crate) lent: Vec<u64>,
    /// Why granules are unused that calls which aren't kept left so.
    pub(crate) sources: Vec<Source>,
    /// A place up to which no kept call was made, nor one of those that left granules unused.
    pub(crate) first: u32,
}

impl Plan {
    ghost use Rattle.std.specs.Prelude.{◌≡◌};
    ghost use Rattle.verdict_laws.specs.Slices.{is_lent};
    ghost use Rattle.slicing.specs.Plans.{AreNoted, entered_at, mark_of, number_at};

    /// No call is kept.
    pub(crate) fn new(alloc: Global, granules: u64) -> Result<Plan, AllocError> {
        let unmarked = Mark {
            first: NEVER,
            known: None,
            lending: None,
        };
        let marks = vec![in alloc; unmarked; granules as usize]?;
        Ok(Plan {
            from: 0,
            numbers: Vec::new(alloc),
            entered: Vec::new(alloc),
            marks,
            lent: Vec::new(alloc),
            sources: Vec::new(alloc),
            first: NEVER,
        })
    }

    /// The number of the call of the event at a place, if it is kept.
    #[tactic(auto, unfolding(crate::specs::Plans::number_at))]
    pub(crate) fn number_at(&self, place: u32) -> Option<u32>
        ensures { result ≡ number_at self.now place }
    {
        if place < self.from {
            return None;
        }
        self.numbers
            .get((place - self.from) as usize)
            .copied()
            .unwrap_or(None)
    }

    /// Whether the call that is made at a place is made inside of a REC.
    #[tactic(auto, unfolding(crate::specs::Plans::entered_at))]
    pub(crate) fn entered_at(&self, place: u32) -> bool
        ensures { result ≡ entered_at self.now place }
    {
        if place < self.from {
            return false;
        }
        self.entered
            .get((place - self.from) as usize)
            .copied()
            .unwrap_or(false)
    }

    /// What is noted of a granule, by its address.
    #[tactic(auto, unfolding(crate::specs::Plans::mark_of))]
    pub(crate) fn mark_of(&self, granule: u64) -> Mark
        ensures { result ≡ mark_of self.now.marks.items granule }
    {
        let unmarked = Mark {
            first: 0,
            known: None,
            lending: None,
        };
        if !granule.is_multiple_of(GRANULE) {
            return unmarked;
        }
        self.marks
            .get((granule / GRANULE) as usize)
            .copied()
            .unwrap_or(unmarked)
    }

    /// Whether a granule is lent first, where each that is lent is noted.
    pub(crate) fn is_lent(&self, granule: u64) -> bool
        ensures { AreNoted self.now → result ≡ is_lent self.now.lent.items granule }
    {
        match self.mark_of(granule).lending {
            Some(index) => self.lent.get(index as usize).copied() == Some(granule),
            None => false,
        }
    }

    /// Why a granule is unused where no kept call has changed it, if that was found.
    pub(crate) fn unused_of(&self, granule: u64) -> Option<Unused> {
        for source in &self.sources {
            if source.granule == granule {
                return Some(source.unused);
            }
        }
        None
    }
}
