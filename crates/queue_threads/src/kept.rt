//! The commits of a queue behind a lock.

ghost use Rattle.std.specs.Prelude.{◌≡◌, []};
ghost use Rattle.atomic_table.specs.Seated.{TableId};
ghost use Rattle.rmm_spec.specs.declared.command.Command.{Command};
ghost use Rattle.event_queue.specs.Stages.{Open, Committed};

use event_queue::{CpuPass, OrderPass, Recorder};
use rmi_view::ReplyRef;
use rmm_spec::Reply;
use std::marker::{Brand, Model, PhantomData};

/// Names the queue whose commits lie behind a lock.
pub(crate) trait Named {
    ghost queue: { TableId };
}

impl Named for Brand {
    ghost queue = { record { words = 0; slots = 0; views_name = 0; atom = 0; block = 0; offset = 0; slot_names = [] } };
}

/// The commits of the queue that is named, where a monitor has its journal.
#[derive(Drop)]
pub(crate) struct Kept<N: Named> {
    order: OrderPass,
    named: PhantomData<N>,
}

impl<N: Named> Model for Kept<N> {
    ghost use Rattle.event_queue.specs.View.{OrderView};

    ghost Value = { OrderView };

    ghost use Rattle.std.specs.Prelude.{◌≡◌};

    ghost view = { λ k. k.order };

    ghost invariant = { λ k. k.order.queue ≡ N.queue };
}

impl<N: Named> Kept<N> {
    pub(crate) fn new(order: OrderPass) -> Kept<N>
        requires { order.queue ≡ N.queue }
        ensures { result ≡ order }
    {
        Kept {
            order,
            named: PhantomData,
        }
    }

    /// Commits the open call of a pass.
    pub(crate) fn commit(&mut self, recorder: &Recorder, pass: &mut CpuPass, reply: &Reply)
        requires queue { (recorder.now.queue ≡ N.queue) × (pass.old.queue ≡ recorder.now.queue) }
        requires open { (command : Command) × (pass.old.stage ≡ Open command) }
        ensures { pass.new ≡ record pass.old { stage = Committed reply.now } }
    {
        recorder.commit(&mut self.order, pass, ReplyRef::of(reply));
    }
}
