//! A CPU commits its open call.

ghost use Rattle.std.specs.Prelude.{◌≡◌};
ghost use Rattle.world.specs.Whole.{world_from};

use crate::journal::Caller;
use crate::phase::Phase;
use crate::turned::{Kind, Turned};
use crate::world::World;
use rmi_view::copied_command;
use std::alloc::{AllocError, Global};

#[tactic(auto, unfolding(crate::specs::World::world_of, crate::specs::World::waits_of, crate::specs::Whole::world_from))]
impl World {
    ghost use Rattle.std.specs.Prelude.{◌≡◌, ◌<◌, IfOk, OnErr};
    ghost use Rattle.rmm_spec.specs.Cell.{put};
    ghost use Rattle.rmm_spec.specs.declared.turn.Will.TheVariants as wills;
    ghost use Rattle.rmm_spec.specs.Waits.{Turns, awaited};
    ghost use Rattle.command_core.specs.declared.next.Next.TheVariants as next;
    ghost use Rattle.world.specs.Next.{IsNext, DoesNext, go_report};
    ghost use Rattle.world.specs.Recorded.{Records, IsShort, event_room, commit_room};
    ghost use Rattle.world.specs.Told.{report_of};
    ghost use Rattle.world.specs.World.{world_of, waits_of};

    // Commits a CPU's open call, which what it holds settles. Where memory is refused, nothing changes.
    pub(crate) fn commit(&mut self, alloc: Global, cpu: u8) -> Result<Turned, AllocError>
        requires cpu { cpu < (world_of self.old).config.cpus }
        requires ready { IsNext (world_of self.old) cpu next.Ready }
        ensures turned { IfOk result (λ turned. Turns (world_of self.old) cpu wills.Go (report_of turned) (world_of self.new)) }
        ensures waits { IfOk result (λ turned. waits_of self.new ≡ put (waits_of self.old) cpu (awaited (report_of turned))) }
        ensures exact { IfOk result (λ turned. report_of turned ≡ go_report (world_of self.old) cpu) }
        ensures does { IfOk result (λ turned. DoesNext (world_of self.old) cpu next.Ready (report_of turned) (world_of self.new)) }
        ensures err { OnErr result (world_of self.new ≡ world_of self.old) }
        ensures err_waits { OnErr result (waits_of self.new ≡ waits_of self.old) }
        ensures only_recorded { OnErr result (Records (world_of self.old) cpu) }
        ensures only_short { OnErr result (IsShort (event_room self.old) (commit_room self.old) (world_of self.old) cpu) }
    {
        let Phase::Deciding {
            number,
            command,
            ..
        } = self.cpus.phase(cpu)
        else {
            unreachable!()
        };
        let (number, command) = (*number, copied_command(command));
        let Ok(()) = self.journal.reserve() else {
            return Err(AllocError);
        };
        let config = self.history.config();
        let (cells, side) = (&mut self.cells, &mut self.side);
        let Ok(reply) = self.cpus.step(alloc, &config, cpu, &command, cells, side) else {
            return Err(AllocError);
        };
        let caller = Caller { cpu, number };
        self.journal.push_reserved(caller, &command, &reply);
        let phase = Phase::Decided {
            number,
            command,
            reply,
        };
        self.cpus.come_to(cpu, phase);
        Ok(Turned::Did(Kind::Commit))
    }
}
