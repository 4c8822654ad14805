//! What the journal, its tokens and the granules of one run have in common.

ghost use Rattle.rmm_spec.specs.declared.version.Version.TheVariants.{One};
ghost use Rattle.rmm_spec.specs.HistoryText.{Config};
ghost use Rattle.atomic_table.specs.Seated.{TableId};
ghost use Rattle.commit_tickets.specs.View.{no_queue};

use std::marker::Brand;
use std::sync::ledger::Ledger;

/// A run: the ledger that counts its commits, with one part for each CPU, the machine that it is of, and the queue that its events
/// go through, where it has one.
pub trait Site: Ledger {
    ghost config: { Config };

    ghost queue: { TableId };
}

impl Site for Brand {
    ghost config = { record { granules = 0; cpus = 0; version = One } };

    ghost queue = { no_queue };
}
