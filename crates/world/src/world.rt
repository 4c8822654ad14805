//! A world.

ghost use Rattle.std.specs.Prelude.{◌≡◌, ◌<◌, vec_len};
ghost use Rattle.rmm_spec.specs.Cell.{put};
ghost use Rattle.rmm_spec.specs.declared.turn.Will.TheVariants as wills;
ghost use Rattle.rmm_spec.specs.Waits.{Turns, awaited};
ghost use Rattle.world.specs.Granules.{holder_of};
ghost use Rattle.world.specs.Cpus.{views_of};
ghost use Rattle.world.specs.Kept.{IsKept};
ghost use Rattle.world.specs.Whole.{world_from};

use crate::cells::Cells;
use crate::cpus::Cpus;
use crate::journal::Journal;
use crate::locks::Locks;
use crate::phase::Phase;
use crate::turned::{Kind, Turned};
use command_core::Side;
use history::History;
use memory_map::{Config, Pa};

/// A machine's granules under their locks, its CPUs with their programs, and what is recorded of their run.
#[derive(Drop)]
pub struct World {
    pub(crate) cells: Cells,
    pub(crate) locks: Locks,
    pub(crate) side: Side,
    pub(crate) cpus: Cpus,
    pub(crate) journal: Journal,
    pub(crate) history: History,
    ghost has_cells: { vec_len cells.list ≡ history.recorded.config.granules },
    ghost has_locks: { vec_len locks.holders ≡ history.recorded.config.granules },
    ghost has_cpus: { vec_len cpus.list ≡ history.recorded.config.cpus },
    ghost kept: { IsKept (world_from cells side cpus journal.items history.recorded) (holder_of locks) (views_of cpus).waits },
}

#[tactic(auto, unfolding(crate::specs::World::world_of, crate::specs::World::waits_of, crate::specs::Whole::world_from))]
impl World {
    ghost use Rattle.std.specs.Prelude.{◌≡◌, ◌<◌};
    ghost use Rattle.rmm_spec.specs.Cell.{put};
    ghost use Rattle.rmm_spec.specs.Waits.{Turns, awaited};
    ghost use Rattle.world.specs.Told.{report_of};
    ghost use Rattle.world.specs.World.{world_of, waits_of};

    /// The machine's size.
    pub fn config(&self) -> Config
        ensures { result ≡ (world_of self.now).config }
    {
        self.history.config()
    }

    /// What a CPU waits for: the granule that its last turn reported, where it was blocked.
    pub fn waits(&self, cpu: u8) -> Option<Pa>
        requires { cpu < (world_of self.now).config.cpus }
        ensures { result ≡ waits_of self.now cpu }
    {
        self.cpus.waits(cpu)
    }

    // Ends a CPU where it stands, with its locks.
    pub(crate) fn stop(&mut self, cpu: u8) -> Turned
        requires { cpu < (world_of self.old).config.cpus }
        ensures turned { Turns (world_of self.old) cpu wills.Stop (report_of result) (world_of self.new) }
        ensures waits { waits_of self.new ≡ put (waits_of self.old) cpu (awaited (report_of result)) }
    {
        if !self.cpus.is_going(cpu) {
            self.cpus.set_waits(cpu, None);
            return Turned::Idle;
        }
        self.cpus.come_to(cpu, Phase::Stopped);
        Turned::Did(Kind::Stop)
    }

    // Gives up an open call that isn't committed, and frees what the CPU holds.
    pub(crate) fn give_up(&mut self, cpu: u8) -> Turned
        requires { cpu < (world_of self.old).config.cpus }
        ensures turned { Turns (world_of self.old) cpu wills.GiveUp (report_of result) (world_of self.new) }
        ensures waits { waits_of self.new ≡ put (waits_of self.old) cpu (awaited (report_of result)) }
    {
        if !self.cpus.is_deciding(cpu) {
            self.cpus.set_waits(cpu, None);
            return Turned::Idle;
        }
        self.locks.free_all(self.cpus.taken(cpu));
        self.cpus.give_up(cpu);
        Turned::Did(Kind::GiveUp)
    }
}
