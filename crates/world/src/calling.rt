//! A CPU makes its next call.

ghost use Rattle.world.specs.Whole.{world_from};

use crate::phase::Phase;
use crate::turned::{Kind, Turned};
use crate::world::World;
use history::Event;
use rmi_view::copied_command;
use std::alloc::AllocError;

#[tactic(auto, unfolding(crate::specs::World::world_of, crate::specs::World::waits_of, crate::specs::Whole::world_from))]
impl World {
    ghost use Rattle.std.specs.Prelude.{◌≡◌, ◌<◌, IfOk, OnErr};
    ghost use Rattle.rmm_spec.specs.World.{Between};
    ghost use Rattle.rmm_spec.specs.Cell.{put};
    ghost use Rattle.rmm_spec.specs.declared.turn.Will.TheVariants as wills;
    ghost use Rattle.rmm_spec.specs.Waits.{Turns, awaited};
    ghost use Rattle.world.specs.Next.{go_report};
    ghost use Rattle.world.specs.Recorded.{Records, IsShort, event_room, commit_room};
    ghost use Rattle.world.specs.Told.{report_of};
    ghost use Rattle.world.specs.World.{world_of, waits_of};

    // Makes the next call of a CPU's program, where a command is left. Where memory is refused, nothing changes.
    pub(crate) fn call(&mut self, cpu: u8, number: u32) -> Result<Turned, AllocError>
        requires cpu { cpu < (world_of self.old).config.cpus }
        requires between { (world_of self.old).phase cpu ≡ Between number }
        ensures turned { IfOk result (λ turned. Turns (world_of self.old) cpu wills.Go (report_of turned) (world_of self.new)) }
        ensures waits { IfOk result (λ turned. waits_of self.new ≡ put (waits_of self.old) cpu (awaited (report_of turned))) }
        ensures exact { IfOk result (λ turned. report_of turned ≡ go_report (world_of self.old) cpu) }
        ensures err { OnErr result (world_of self.new ≡ world_of self.old) }
        ensures err_waits { OnErr result (waits_of self.new ≡ waits_of self.old) }
        ensures only_recorded { OnErr result (Records (world_of self.old) cpu) }
        ensures only_short { OnErr result (IsShort (event_room self.old) (commit_room self.old) (world_of self.old) cpu) }
    {
        let _fact = self.history.well_formed();
        let Some(command) = self.cpus.next_command(cpu) else {
            self.cpus.set_waits(cpu, None);
            return Ok(Turned::Idle);
        };
        let event = Event::Called {
            cpu,
            number,
            command: copied_command(&command),
        };
        let Ok(()) = self.history.push(event) else {
            return Err(AllocError);
        };
        let phase = Phase::Deciding {
            number,
            command,
            learnt: None,
        };
        self.cpus.open_call(cpu, phase);
        Ok(Turned::Did(Kind::Call))
    }
}
