//! A CPU's turn.

ghost use Rattle.world.specs.Whole.{world_from};

use crate::phase::Phase;
use crate::turned::Turned;
use crate::world::World;
use command_core::Next;
use rmi_view::copied_reply;
use rmm_spec::Will;
use std::alloc::{AllocError, Global};

#[tactic(auto, unfolding(crate::specs::World::world_of, crate::specs::World::waits_of, crate::specs::Whole::world_from))]
impl World {
    ghost use Rattle.std.specs.Prelude.{◌≡◌, ◌<◌, IfOk, OnErr};
    ghost use Rattle.rmm_spec.specs.Cell.{put};
    ghost use Rattle.rmm_spec.specs.World.{IsDeciding, IsGoing};
    ghost use Rattle.rmm_spec.specs.declared.turn.Will.TheVariants.{Go};
    ghost use Rattle.rmm_spec.specs.Waits.{Turns, awaited};
    ghost use Rattle.world.specs.Next.{DoesPlanned, go_report};
    ghost use Rattle.world.specs.Recorded.{Records, IsShort, event_room, commit_room};
    ghost use Rattle.world.specs.Told.{report_of};
    ghost use Rattle.world.specs.TurnedWorld.{turned_world};
    ghost use Rattle.world.specs.World.{world_of, waits_of};

    /// One turn of a CPU, which does as it is told and reports that. Where memory is refused nothing changed, and turns go on.
    /// A commit that makes a table takes memory for it; any other step that records something does only where no room is left.
    pub fn turn(&mut self, alloc: Global, cpu: u8, will: Will) -> Result<Turned, AllocError>
        requires { cpu < (world_of self.old).config.cpus }
        ensures turned { IfOk result (λ turned. Turns (world_of self.old) cpu will (report_of turned) (world_of self.new)) }
        ensures waits { IfOk result (λ turned. waits_of self.new ≡ put (waits_of self.old) cpu (awaited (report_of turned))) }
        ensures planned { IfOk result (λ turned. will ≡ Go → IsDeciding (world_of self.old) cpu
            → DoesPlanned (world_of self.old) cpu (report_of turned) (world_of self.new)) }
        ensures exact { IfOk result (λ turned. will ≡ Go → report_of turned ≡ go_report (world_of self.old) cpu) }
        ensures world { IfOk result (λ turned. world_of self.new ≡ turned_world (world_of self.old) cpu will) }
        ensures err { OnErr result (world_of self.new ≡ world_of self.old) }
        ensures err_waits { OnErr result (waits_of self.new ≡ waits_of self.old) }
        ensures only_go { OnErr result (will ≡ Go) }
        ensures only_recorded { OnErr result (Records (world_of self.old) cpu) }
        ensures only_short { OnErr result (IsShort (event_room self.old) (commit_room self.old) (world_of self.old) cpu) }
    {
        match will {
            Will::Go => self.go(alloc, cpu),
            Will::GiveUp => Ok(self.give_up(cpu)),
            Will::Stop => Ok(self.stop(cpu)),
        }
    }

    // Does the next step of a CPU.
    fn go(&mut self, alloc: Global, cpu: u8) -> Result<Turned, AllocError>
        requires { cpu < (world_of self.old).config.cpus }
        ensures turned { IfOk result (λ turned. Turns (world_of self.old) cpu Go (report_of turned) (world_of self.new)) }
        ensures waits { IfOk result (λ turned. waits_of self.new ≡ put (waits_of self.old) cpu (awaited (report_of turned))) }
        ensures planned { IfOk result (λ turned.
            IsDeciding (world_of self.old) cpu → DoesPlanned (world_of self.old) cpu (report_of turned) (world_of self.new)) }
        ensures exact { IfOk result (λ turned. report_of turned ≡ go_report (world_of self.old) cpu) }
        ensures err { OnErr result (world_of self.new ≡ world_of self.old) }
        ensures err_waits { OnErr result (waits_of self.new ≡ waits_of self.old) }
        ensures only_recorded { OnErr result (Records (world_of self.old) cpu) }
        ensures only_short { OnErr result (IsShort (event_room self.old) (commit_room self.old) (world_of self.old) cpu) }
    {
        match self.cpus.phase(cpu) {
            Phase::Between { number } => {
                let number = *number;
                self.call(cpu, number)
            }
            Phase::Deciding { .. } => self.go_on(alloc, cpu),
            Phase::Decided { number, reply, .. } => {
                if !self.cpus.taken(cpu).is_empty() {
                    return Ok(self.free_last(cpu));
                }
                let number = *number;
                let reply = copied_reply(reply);
                self.return_reply(cpu, number, reply)
            }
            Phase::GivenUp | Phase::Stopped => Ok(self.rest(cpu)),
        }
    }

    // Takes or frees what the plan of an open call says, or commits it.
    fn go_on(&mut self, alloc: Global, cpu: u8) -> Result<Turned, AllocError>
        requires cpu { cpu < (world_of self.old).config.cpus }
        requires deciding { IsDeciding (world_of self.old) cpu }
        ensures turned { IfOk result (λ turned. Turns (world_of self.old) cpu Go (report_of turned) (world_of self.new)) }
        ensures waits { IfOk result (λ turned. waits_of self.new ≡ put (waits_of self.old) cpu (awaited (report_of turned))) }
        ensures planned { IfOk result (λ turned. DoesPlanned (world_of self.old) cpu (report_of turned) (world_of self.new)) }
        ensures exact { IfOk result (λ turned. report_of turned ≡ go_report (world_of self.old) cpu) }
        ensures err { OnErr result (world_of self.new ≡ world_of self.old) }
        ensures err_waits { OnErr result (waits_of self.new ≡ waits_of self.old) }
        ensures only_recorded { OnErr result (Records (world_of self.old) cpu) }
        ensures only_short { OnErr result (IsShort (event_room self.old) (commit_room self.old) (world_of self.old) cpu) }
    {
        match self.next_of(cpu) {
            Next::Take(pa) => Ok(self.take(cpu, pa)),
            Next::Free(pa, learnt) => Ok(self.free(cpu, pa, learnt)),
            Next::Ready => self.commit(alloc, cpu),
        }
    }

    // A CPU that has ended does nothing.
    fn rest(&mut self, cpu: u8) -> Turned
        requires cpu { cpu < (world_of self.old).config.cpus }
        requires ended { IsGoing ((world_of self.old).phase cpu) → ⊥ }
        ensures turned { Turns (world_of self.old) cpu Go (report_of result) (world_of self.new) }
        ensures waits { waits_of self.new ≡ put (waits_of self.old) cpu (awaited (report_of result)) }
        ensures exact { report_of result ≡ go_report (world_of self.old) cpu }
    {
        self.cpus.set_waits(cpu, None);
        Turned::Idle
    }
}
