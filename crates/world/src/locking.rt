//! A CPU takes and frees locks, as the plan of its call says.

ghost use Rattle.world.specs.Whole.{world_from};

use crate::lent::{give_back, lend};
use crate::phase::Phase;
use crate::turned::{Kind, Turned};
use crate::world::World;
use command_core::{Next, next_lock};
use memory_map::Pa;

#[tactic(auto, unfolding(crate::specs::World::world_of, crate::specs::World::waits_of, crate::specs::Whole::world_from))]
impl World {
    ghost use Rattle.std.specs.Prelude.{◌≡◌, ◌<◌, true, length, Contains};
    ghost use Rattle.rmm_spec.specs.Cell.{put};
    ghost use Rattle.rmm_spec.specs.World.{IsDeciding, MayLearn};
    ghost use Rattle.rmm_spec.specs.declared.turn.Will.TheVariants as wills;
    ghost use Rattle.rmm_spec.specs.Waits.{Turns, MayFree, awaited};
    ghost use Rattle.command_core.specs.declared.next.Next.TheVariants as next;
    ghost use Rattle.world.specs.Cpus.{is_decided};
    ghost use Rattle.world.specs.Next.{IsNext, DoesNext, with_freed, go_report};
    ghost use Rattle.world.specs.declared.turned.Turned.TheVariants as turned;
    ghost use Rattle.world.specs.declared.turned.Kind.TheVariants as kind;
    ghost use Rattle.world.specs.Recorded.{event_room, commit_room};
    ghost use Rattle.world.specs.Told.{report_of};
    ghost use Rattle.world.specs.World.{world_of, waits_of};

    // What a CPU with an open call does next. The cells that it holds are lent to its plan and given back.
    pub(crate) fn next_of(&mut self, cpu: u8) -> Next
        requires cpu { cpu < (world_of self.old).config.cpus }
        requires deciding { IsDeciding (world_of self.old) cpu }
        ensures world { world_of self.new ≡ world_of self.old }
        ensures waits { waits_of self.new ≡ waits_of self.old }
        ensures events { event_room self.new ≡ event_room self.old }
        ensures commits { commit_room self.new ≡ commit_room self.old }
        ensures next { IsNext (world_of self.old) cpu result }
    {
        let config = self.history.config();
        let lent = lend(&mut self.cells, self.cpus.taken(cpu));
        let Phase::Deciding {
            command,
            learnt,
            ..
        } = self.cpus.phase(cpu)
        else {
            unreachable!()
        };
        let next = next_lock(&config, command, self.cpus.place(cpu), *learnt, &lent);
        give_back(lent, &mut self.cells);
        next
    }

    // Takes the lock that comes next, where nobody holds it.
    pub(crate) fn take(&mut self, cpu: u8, pa: Pa) -> Turned
        requires cpu { cpu < (world_of self.old).config.cpus }
        requires next { IsNext (world_of self.old) cpu (next.Take pa) }
        ensures turned { Turns (world_of self.old) cpu wills.Go (report_of result) (world_of self.new) }
        ensures waits { waits_of self.new ≡ put (waits_of self.old) cpu (awaited (report_of result)) }
        ensures does { DoesNext (world_of self.old) cpu (next.Take pa) (report_of result) (world_of self.new) }
        ensures exact { report_of result ≡ go_report (world_of self.old) cpu }
    {
        if let Some(_other) = self.locks.holder(pa) {
            self.cpus.set_waits(cpu, Some(pa));
            return Turned::Blocked(pa);
        }
        self.cpus.take(cpu, pa);
        self.locks.set(pa, Some(cpu));
        Turned::Did(Kind::Take)
    }

    // Frees the lock that is to be freed next, with what is learnt as it is freed.
    pub(crate) fn free(&mut self, cpu: u8, pa: Pa, learnt: Option<Pa>) -> Turned
        requires cpu { cpu < (world_of self.old).config.cpus }
        requires next { IsNext (world_of self.old) cpu (next.Free pa learnt) }
        ensures turned { Turns (world_of self.old) cpu wills.Go (report_of result) (world_of self.new) }
        ensures waits { waits_of self.new ≡ put (waits_of self.old) cpu (awaited (report_of result)) }
        ensures does { DoesNext (world_of self.old) cpu (next.Free pa learnt) (report_of result) (world_of self.new) }
        ensures exact { report_of result ≡ go_report (world_of self.old) cpu }
    {
        self.free_lock(cpu, pa, learnt)
    }

    // Frees what a CPU took last of what it still holds after its commit.
    pub(crate) fn free_last(&mut self, cpu: u8) -> Turned
        requires cpu { cpu < (world_of self.old).config.cpus }
        requires decided { is_decided ((world_of self.old).phase cpu) ≡ true }
        requires held { 0 < length ((world_of self.old).taken cpu) }
        ensures turned { Turns (world_of self.old) cpu wills.Go (report_of result) (world_of self.new) }
        ensures waits { waits_of self.new ≡ put (waits_of self.old) cpu (awaited (report_of result)) }
        ensures exact { report_of result ≡ go_report (world_of self.old) cpu }
    {
        let Some(last) = self.cpus.taken(cpu).last() else {
            unreachable!()
        };
        let last = *last;
        self.free_lock(cpu, last, None)
    }

    fn free_lock(&mut self, cpu: u8, pa: Pa, learnt: Option<Pa>) -> Turned
        requires cpu { cpu < (world_of self.old).config.cpus }
        requires held { Contains ((world_of self.old).taken cpu) pa }
        requires learnt { MayLearn (world_of self.old) ((world_of self.old).phase cpu) pa learnt }
        requires freed { MayFree (world_of self.old) cpu pa ((world_of self.old).phase cpu) }
        ensures turned { Turns (world_of self.old) cpu wills.Go (report_of result) (world_of self.new) }
        ensures waits { waits_of self.new ≡ put (waits_of self.old) cpu (awaited (report_of result)) }
        ensures free { result ≡ turned.Did kind.Free }
        ensures freed { world_of self.new ≡ with_freed (world_of self.old) cpu pa learnt }
    {
        self.cpus.free(cpu, pa, learnt);
        self.locks.set(pa, None);
        Turned::Did(Kind::Free)
    }
}
