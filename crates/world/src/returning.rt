//! A CPU returns what its call was answered.

ghost use Rattle.world.specs.Whole.{world_from};

use crate::phase::Phase;
use crate::turned::{Kind, Turned};
use crate::world::World;
use history::Event;
use rmi_view::ReplyRef;
use rmm_spec::Reply;
use std::alloc::AllocError;

#[tactic(auto, unfolding(crate::specs::World::world_of, crate::specs::World::waits_of, crate::specs::Whole::world_from))]
impl World {
    ghost use Rattle.std.specs.Prelude.{◌≡◌, ◌<◌, [], IfOk, OnErr};
    ghost use Rattle.rmm_spec.specs.declared.command.Command.{Command};
    ghost use Rattle.rmm_spec.specs.World.{Decided};
    ghost use Rattle.rmm_spec.specs.Cell.{put};
    ghost use Rattle.rmm_spec.specs.declared.turn.Will.TheVariants as wills;
    ghost use Rattle.rmm_spec.specs.Waits.{Turns, awaited};
    ghost use Rattle.world.specs.Next.{go_report};
    ghost use Rattle.world.specs.Recorded.{Records, IsShort, event_room, commit_room};
    ghost use Rattle.world.specs.Told.{report_of};
    ghost use Rattle.world.specs.World.{world_of, waits_of};

    // Returns the reply to a call, whose CPU holds nothing any more. Where memory is refused, nothing changes.
    pub(crate) fn return_reply(
        &mut self,
        cpu: u8,
        number: u32,
        reply: Reply,
    ) -> Result<Turned, AllocError>
        requires cpu { cpu < (world_of self.old).config.cpus }
        requires decided { (command : Command) × ((world_of self.old).phase cpu ≡ Decided number command reply) }
        requires none { (world_of self.old).taken cpu ≡ [] }
        ensures turned { IfOk result (λ turned. Turns (world_of self.old) cpu wills.Go (report_of turned) (world_of self.new)) }
        ensures waits { IfOk result (λ turned. waits_of self.new ≡ put (waits_of self.old) cpu (awaited (report_of turned))) }
        ensures exact { IfOk result (λ turned. report_of turned ≡ go_report (world_of self.old) cpu) }
        ensures err { OnErr result (world_of self.new ≡ world_of self.old) }
        ensures err_waits { OnErr result (waits_of self.new ≡ waits_of self.old) }
        ensures only_recorded { OnErr result (Records (world_of self.old) cpu) }
        ensures only_short { OnErr result (IsShort (event_room self.old) (commit_room self.old) (world_of self.old) cpu) }
    {
        let _fact = self.history.well_formed();
        let event = Event::Returned { cpu, number, reply };
        let Ok(()) = self.history.push(event) else {
            return Err(AllocError);
        };
        let number = number + 1;
        self.cpus.come_to(cpu, Phase::Between { number });
        Ok(Turned::Did(Kind::Return))
    }
}
