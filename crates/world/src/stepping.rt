//! A local step on the cells that a CPU has taken.

ghost use Rattle.std.specs.Prelude.{◌≡◌, ◌<◌, vec_len, IsTrue, IfOk, OnErr};
ghost use Rattle.std.specs.List.{All};
ghost use Rattle.rmm_spec.specs.Call.{call_of};
ghost use Rattle.rmm_spec.specs.Local.{granules_held, LocalStep};
ghost use Rattle.rmm_spec.specs.Lookup.{is_granule};
ghost use Rattle.rmm_spec.specs.Ownership.{is_accepted};
ghost use Rattle.command_core.specs.Changed.{hold_of};
ghost use Rattle.command_core.specs.Pairs.{pair_cells};
ghost use Rattle.command_core.specs.Seen.{are_distinct, place_of};
ghost use Rattle.command_core.specs.Settled.{is_settled};
ghost use Rattle.command_core.specs.Sides.{side_of};
ghost use Rattle.world.specs.Cpus.{views_of};
ghost use Rattle.world.specs.Granules.{cells_of};
ghost use Rattle.world.specs.Lent.{cells_at};
ghost use Rattle.world.specs.Recorded.{MakesTable};
ghost use Rattle.world.specs.Stepped.{IsAnswered, MakesStep};

use crate::cells::Cells;
use crate::cpus::Cpus;
use crate::lent::{give_back, lend};
use command_core::{CpuPlace, HeldPairs, Side, applied_decisions_are_local, apply, decide, room};
use memory_map::Config;
use rmm_spec::{Command, Reply};
use std::alloc::{AllocError, Global};

// Decides a command on what is held, and makes its change of that. A refusal changes nothing and takes no memory. Where memory
// is refused, nothing changes either.
fn step_on(
    alloc: Global,
    config: &Config,
    command: &Command,
    cpu: u8,
    held: &mut HeldPairs,
    side: &mut Side,
    place: &mut CpuPlace,
) -> Result<Reply, AllocError>
    requires settled { IsTrue (is_settled config.now (call_of command.now) (place_of place.old) (pair_cells held.old)) }
    ensures same { granules_held (pair_cells held.new) ≡ granules_held (pair_cells held.old) }
    ensures ok { IfOk result (λ reply. LocalStep config.now cpu command.now reply
        (hold_of (pair_cells held.old) (side_of side.old) (place_of place.old))
        (hold_of (pair_cells held.new) (side_of side.new) (place_of place.new))) }
    ensures answered { IfOk result (λ reply. IsAnswered config.now cpu command.now reply
        (hold_of (pair_cells held.old) (side_of side.old) (place_of place.old))
        (hold_of (pair_cells held.new) (side_of side.new) (place_of place.new))) }
    ensures err { OnErr result (hold_of (pair_cells held.new) (side_of side.new) (place_of place.new)
        ≡ hold_of (pair_cells held.old) (side_of side.old) (place_of place.old)) }
    ensures only { OnErr result (MakesTable config.now cpu command.now (hold_of (pair_cells held.old) (side_of side.old) (place_of place.old))) }
{
    let _fact = applied_decisions_are_local();
    let (reply, change) = decide(config, command, cpu, place, held, side);
    if !is_accepted(&reply) {
        return Ok(reply);
    }
    let Ok(room) = room(alloc, side, &change) else {
        return Err(AllocError);
    };
    apply(held, side, place, change, room);
    Ok(reply)
}

fn is_accepted(reply: &Reply) -> bool
    ensures { result ≡ is_accepted reply.now }
{
    matches!(reply, Reply::Ok(_))
}

impl Cpus {
    /// A CPU makes a local step for a command that the cells which it has taken settle. Where memory is refused, nothing
    /// changes.
    pub(crate) fn step(
        &mut self,
        alloc: Global,
        config: &Config,
        cpu: u8,
        command: &Command,
        cells: &mut Cells,
        side: &mut Side,
    ) -> Result<Reply, AllocError>
        requires cpu { cpu < vec_len self.old.list }
        requires settled { IsTrue (is_settled config.now (call_of command.now) ((views_of self.old).place cpu)
            (cells_at (cells_of cells.old) ((views_of self.old).taken cpu))) }
        requires distinct { IsTrue (are_distinct ((views_of self.old).taken cpu)) }
        requires granules { All (λ pa. IsTrue (is_granule (vec_len cells.old.list) pa)) ((views_of self.old).taken cpu) }
        ensures size { vec_len self.new.list ≡ vec_len self.old.list }
        ensures cells_size { vec_len cells.new.list ≡ vec_len cells.old.list }
        ensures ok { IfOk result (λ reply. MakesStep config.now cpu command.now reply (cells_of cells.old) (cells_of cells.new)
            (side_of side.old) (side_of side.new) (views_of self.old) (views_of self.new)) }
        ensures err_cells { OnErr result (cells_of cells.new ≡ cells_of cells.old) }
        ensures err_side { OnErr result (side_of side.new ≡ side_of side.old) }
        ensures err_views { OnErr result (views_of self.new ≡ views_of self.old) }
        ensures only { OnErr result (MakesTable config.now cpu command.now
            (hold_of (cells_at (cells_of cells.old) ((views_of self.old).taken cpu)) (side_of side.old) ((views_of self.old).place cpu))) }
    {
        let mut lent = lend(cells, self.taken(cpu));
        let mut place = *self.place(cpu);
        let replied = step_on(alloc, config, command, cpu, &mut lent, side, &mut place);
        give_back(lent, cells);
        let Ok(reply) = replied else {
            return Err(AllocError);
        };
        self.set_place(cpu, place);
        Ok(reply)
    }
}
