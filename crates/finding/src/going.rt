//! An order at hand that goes on from return to return.

use crate::begun::Begun;
use crate::front::is_up_to;
use crate::offers::Offers;
use crate::scope::Scope;
use crate::trail::Trail;
use history::History;
use std::alloc::AllocError;
use undo_log::Patch;

/// How far an order may go on: from a place up to another, until so many steps are tried.
#[derive(Clone, Copy)]
pub(crate) struct Reach {
    pub(crate) from: u32,
    pub(crate) until: u32,
    /// Set only where no call reads a measurement.
    pub(crate) unread: bool,
    /// How many orders that lack no call are kept.
    pub(crate) most: usize,
    pub(crate) steps: u64,
}

/// How far an order went on.
#[derive(Clone, Copy)]
pub(crate) enum Went {
    /// Each call that returned before the place stands in it.
    UpTo(u32),
    /// Several calls may have to come before the one that returned at the place.
    Short(u32),
    /// A call that has to stand there by the return at the place isn't given its reply.
    Lost(u32),
}

impl Begun {
    ghost use Rattle.std.specs.Prelude.{◌+◌, ◌^◌, ◌<◌, ◌≤◌, length, IfOk, IsTrue, OnOk};
    ghost use Rattle.verdict_laws.specs.Unread.{ReadsNothing};
    ghost use Rattle.finding.specs.Begun.{HasReturned, IsBegun};
    ghost use Rattle.finding.specs.Going.{IsGone, IsPast, IsWithin};

    /// Goes on from return to return, as long as one call after another is tried alone.
    pub(crate) fn go_far(
        &mut self,
        offers: &mut Offers,
        history: &History,
        reach: Reach,
        trail: &mut Trail,
    ) -> Result<Went, AllocError>
        requires begun { IsBegun history.now.recorded self.old }
        requires unread { IsTrue reach.unread → ReadsNothing history.now.recorded.events }
        requires returned { HasReturned history.now.recorded self.old.front.counts reach.from }
        requires order { reach.from ≤ reach.until }
        requires until { reach.until ≤ length history.now.recorded.events }
        ensures begun { OnOk result (IsBegun history.now.recorded self.new) }
        ensures gone { IfOk result (IsGone history.now.recorded self.old self.new) }
        ensures within { IfOk result (IsWithin reach.until) }
    {
        let mut place = reach.from;
        'places: while place < reach.until {
            if history.reply_at(place as usize).is_none() {
                place += 1;
                continue 'places;
            }
            if offers.count() >= reach.steps {
                return Ok(Went::UpTo(place));
            }
            let scope = Scope {
                place,
                unread: reach.unread,
                most: reach.most,
            };
            let went = self.go_past(offers, history, scope, trail)?;
            let Went::UpTo(next) = went else {
                return Ok(went);
            };
            place = next;
        }
        Ok(Went::UpTo(place))
    }

    /// Goes on past the return at the scope's place.
    fn go_past(
        &mut self,
        offers: &mut Offers,
        history: &History,
        scope: Scope,
        trail: &mut Trail,
    ) -> Result<Went, AllocError>
        requires begun { IsBegun history.now.recorded self.old }
        requires unread { IsTrue scope.unread → ReadsNothing history.now.recorded.events }
        requires fits { scope.place + 1 < 2 ^ 32 }
        ensures begun { OnOk result (IsBegun history.now.recorded self.new) }
        ensures gone { IfOk result (IsGone history.now.recorded self.old self.new) }
        ensures past { IfOk result (IsPast scope.place) }
    {
        let given = self.go_on(offers, history, scope, trail)?;
        if !given {
            return Ok(Went::Lost(scope.place));
        }
        if !is_up_to(history, &self.front, scope.place) {
            return Ok(Went::Short(scope.place));
        }
        // nothing leads back further
        self.undo = Patch::none(trail.alloc);
        Ok(Went::UpTo(scope.place + 1))
    }
}
