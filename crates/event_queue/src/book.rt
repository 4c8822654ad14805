//! The rule of the queue: what each pass knows, and what each step adds to it.

ghost use Rattle.std.specs.Prelude.{◌≡◌, ◌+◌, ◌++◌};
ghost use Rattle.world_laws.proofs.Recorded.{AreRecorded};
ghost use Rattle.event_queue.specs.Numbered.{numbered};
ghost use Rattle.event_queue.specs.Pages.{opening_page, cpu_page, journal_page, nobody_page, note_of, recorded, committed, entered, with_journal, without_journal, MayFindQueued, BeginsWithDrained, IsDrained};
ghost use Rattle.event_queue.specs.Book.{IsRecorded};

use crossbeam_queue::protocol::{Join, Lesson, Outcome, Protocol, Split};
use crossbeam_queue::{Pass, RuledArrayQueue};
use rmm_spec::Event;
use std::marker::{Brand, Model, PhantomData};

/// What a pass knows. No value of it is made.
pub struct Page;

impl Model for Page {
    ghost use Rattle.event_queue.specs.Pages.{Page as Known, nobody_page};

    ghost Value = { Known };

    ghost view = { λ _. nobody_page };
}

pub struct Book;

pub type Queue = RuledArrayQueue<Event, Page, Book>;

pub type PagePass = Pass<Event, Page>;

impl Protocol<Event, Page> for Book {
    ghost holds = { IsRecorded };

    ghost first = { opening_page };
}

/// Another CPU is counted, before the first one has a page.
pub struct Counts;

impl Split<Page> for Counts {
    ghost left = { λ page. record page { cpus = page.cpus + 1 } };

    ghost right = { λ page. nobody_page };
}

/// The next CPU gets its page.
pub struct Seats;

impl Split<Page> for Seats {
    ghost left = { λ page. record page { seated = page.seated + 1 } };

    ghost right = { λ page. cpu_page page.cpus page.seated };
}

/// A CPU's call or return goes into the queue, or finds it full.
pub struct Records;

impl Outcome<Event, Page> for Records {
    ghost then = { λ page event new. new ≡ recorded page event };
}

impl Lesson<Event, Page> for Records {
    ghost fact = { MayFindQueued };
}

/// The scribe takes an event, or finds the queue empty.
pub struct Drains;

impl Outcome<Event, Page> for Drains {
    ghost then = { IsDrained };
}

impl Lesson<Event, Page> for Drains {
    ghost fact = { MayFindQueued };
}

/// The scribe writes down what was drained so far.
pub struct Tells;

impl Split<Page> for Tells {
    ghost left = { λ page. page };

    ghost right = { note_of };
}

/// A CPU takes in what the scribe wrote down, and compares it with its own list.
pub struct Hears;

impl Join<Page> for Hears {
    ghost both = { λ page note. record page { seen = note.seen } };

    ghost spent = { nobody_page };
}

impl Lesson<Event, Page> for Hears {
    ghost fact = { BeginsWithDrained };
}

/// The journal's commits leave a pass.
pub struct Lends;

impl Split<Page> for Lends {
    ghost left = { without_journal };

    ghost right = { λ page. journal_page page.entries };
}

/// A pass takes them over.
pub struct Takes;

impl Join<Page> for Takes {
    ghost both = { with_journal };

    ghost spent = { nobody_page };
}

/// What is committed: whose call, and the reply to it.
pub trait Commitment {
    ghost use Rattle.std.specs.Prelude.{ℕ};
    ghost use Rattle.rmm_spec.specs.declared.reply.Reply.{Reply};

    ghost cpu: { ℕ };

    ghost reply: { Reply };
}

impl Commitment for Brand {
    ghost use Rattle.rmm_spec.specs.declared.reply.Reply.TheVariants.{Misplaced};

    ghost cpu = { 0 };

    ghost reply = { Misplaced };
}

/// A CPU that has the journal's commits adds that of its open call, and gives them away.
pub struct Commits<C> {
    what: PhantomData<C>,
}

impl<C: Commitment> Split<Page> for Commits<C> {
    ghost left = { committed C.reply };

    ghost right = { entered C.cpu C.reply };
}

/// The scribe, with the journal's commits, finds the queue empty: all that the CPUs recorded was drained then.
pub struct Closes;

impl Outcome<Event, Page> for Closes {
    ghost then = { IsDrained };
}

impl Lesson<Event, Page> for Closes {
    ghost fact = { λ page queued. AreRecorded (numbered page.entries) (page.events ++ queued) };
}
