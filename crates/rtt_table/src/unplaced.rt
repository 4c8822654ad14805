//! A table that stands nowhere yet.

ghost use Rattle.std.specs.Prelude.{◌≡◌, ◌+◌, ◌++◌, ◌≤◌, if◌then◌else◌, IfOk, replicate};
ghost use Rattle.rtt_table.specs.Counts.{AreCounts};
ghost use Rattle.rtt_table.specs.Shaped.{IsShaped};

use crate::columns::{Columns, addresses_of};
use crate::table::Table;
use memory_map::{is_live, is_table};
use rmm_spec::{Entry, Place};
use std::alloc::{AllocError, Global};
use std::marker::Model;

/// The entries of a table, whose place isn't known yet. They lie on the heap already as a table's do, so that none is moved for it.
#[derive(Drop)]
pub struct Unplaced {
    body: Box<Body>,
}

/// What a table has, with the counts of its live entries and of its links. Before it is placed its place says nothing.
#[derive(Drop)]
pub(crate) struct Body {
    pub(crate) place: Place,
    pub(crate) live: u16,
    pub(crate) links: u16,
    pub(crate) columns: Columns,
}

impl Model for Unplaced {
    ghost use Rattle.std.specs.Prelude.{List};
    ghost use Rattle.rmm_spec.specs.declared.entry.Entry.{Entry};
    ghost use Rattle.rtt_table.specs.Counts.{AreCounts};

    ghost Value = { List Entry };

    ghost view = { λ t. t.body.value.columns };

    ghost invariant = { λ t. AreCounts t.body.value.columns t.body.value.live t.body.value.links };
}

impl Unplaced {
    /// 512 copies of one entry.
    pub fn new(alloc: Global, fill: Entry) -> Result<Self, AllocError>
        ensures { IfOk result (λ t. t ≡ replicate 512 fill) }
    {
        Unplaced::halves(alloc, fill, fill)
    }

    /// 256 copies of one entry, and 256 of another behind them.
    #[inline(never)]
    pub fn halves(alloc: Global, lower: Entry, upper: Entry) -> Result<Self, AllocError>
        ensures { IfOk result (λ t. t ≡ replicate 256 lower ++ replicate 256 upper) }
    {
        let addresses = addresses_of(alloc, lower, upper)?;
        let body = Body {
            place: NOWHERE,
            live: half_or_none(is_live(lower)) + half_or_none(is_live(upper)),
            links: half_or_none(is_table(lower)) + half_or_none(is_table(upper)),
            columns: Columns::halves(addresses, lower, upper),
        };
        Unplaced::boxed(alloc, body)
    }

    /// The entries of this.
    #[inline(always)]
    pub(crate) fn boxed(alloc: Global, body: Body) -> Result<Self, AllocError>
        requires { AreCounts body.columns body.live body.links }
        ensures { IfOk result (λ t. t ≡ body.columns) }
    {
        match Box::new(alloc, body) {
            Ok(body) => Ok(Unplaced { body }),
            Err(_) => Err(AllocError),
        }
    }

    /// The table that has these entries and stands at the place. It takes no memory.
    pub fn at(self, place: Place) -> Table
        requires { IsShaped place }
        ensures { result ≡ record { place = place; entries = self } }
    {
        let Unplaced { mut body } = self;
        body.place = place;
        Table { body }
    }
}

// The place of a table that has none.
const NOWHERE: Place = Place {
    rd: 0,
    level: 0,
    base: 0,
    width: 0,
};

// How many entries of a half pass a test, where all are copies of one.
fn half_or_none(passes: bool) -> u16
    ensures is { result ≡ (if passes then 256 else 0) }
    ensures most { result ≤ 256 }
{
    if passes { 256 } else { 0 }
}
