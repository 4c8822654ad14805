//! The pass that keeps the journal's commits.

ghost use Rattle.std.specs.Prelude.{◌≡◌, []};
ghost use Rattle.crossbeam_queue.specs.Passes.{view as page_of};
ghost use Rattle.event_queue.specs.Pages.{journal_page};

use crate::book::PagePass;
use std::marker::Model;

/// What lies with a journal, and is changed with it: the list of its commits, which takes no memory.
#[derive(Drop)]
pub struct OrderPass {
    pub(crate) pass: PagePass,
}

impl Model for OrderPass {
    ghost use Rattle.event_queue.specs.View.{OrderView};

    ghost Value = { OrderView };

    ghost use Rattle.std.specs.Prelude.{◌≡◌, []};
    ghost use Rattle.crossbeam_queue.specs.Passes.{view as page_of};
    ghost use Rattle.event_queue.specs.Pages.{journal_page};

    ghost view = { λ p. record { queue = p.pass.table_id; entries = (page_of p.pass).entries } };

    ghost invariant = { λ p. (p.pass.me.1 ≡ []) × (page_of p.pass ≡ journal_page (page_of p.pass).entries) };
}

impl OrderPass {
    /// The journal's pass, with the commits that are on the page.
    pub(crate) fn kept(pass: PagePass) -> OrderPass
        requires clear { pass.me.1 ≡ [] }
        requires page { page_of pass ≡ journal_page (page_of pass).entries }
        ensures { result ≡ record { queue = pass.table_id; entries = (page_of pass).entries } }
    {
        OrderPass { pass }
    }

    /// The page of the journal's commits.
    pub(crate) fn into_page(self) -> PagePass
        ensures clear { result.me.1 ≡ [] }
        ensures queue { result.table_id ≡ self.queue }
        ensures page { page_of result ≡ journal_page self.entries }
    {
        self.pass
    }
}
