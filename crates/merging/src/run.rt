//! A run, from which both texts are written.

ghost use Rattle.std.specs.Prelude.{◌≡◌, length, IfOk};
ghost use Rattle.merging.specs.Texts.{map_of};

use crate::EventTable;
use crate::merged::Front;
use crate::naming::{Naming, naming_map};
use history::Config;
use std::alloc::{AllocError, Global};
use std::marker::Model;

/// Events that are a run of a machine, as they are told. It keeps the table that they were read to, and no copy of an event.
#[derive(Drop)]
pub struct Run {
    pub(crate) table: EventTable,
    pub(crate) front: Front,
    pub(crate) naming: Naming,
    pub(crate) config: Config,
}

impl Model for Run {
    ghost use Rattle.merging.specs.Merge.{Merge, IsHeld};
    ghost use Rattle.merging.specs.Naming.{events_named};
    ghost use Rattle.merging.specs.Run.{known_front};

    ghost Value = { Merge };

    ghost view = { λ run. record {
      config = run.config;
      naming = run.naming;
      events = events_named run.naming run.config.granules (known_front run.table.slots);
    } };

    ghost invariant = { λ run. IsHeld run.table.slots run.front.stamps run.front.returns (record {
      config = run.config;
      naming = run.naming;
      events = events_named run.naming run.config.granules (known_front run.table.slots);
    }) };
}

impl Run {
    /// How many events there are, whose stamps are those below this number.
    pub fn stamps(&self) -> usize
        ensures { result ≡ length self.now.events }
    {
        self.front.stamps
    }

    /// A line for each address with its name, and none where nothing is renamed.
    pub fn map(&self, alloc: Global) -> Result<Vec<u8>, AllocError>
        ensures { IfOk result (λ text. text.items ≡ map_of self.now.naming) }
    {
        naming_map(alloc, &self.naming)
    }
}
