//! The CPUs of a machine.

ghost use Rattle.std.specs.Prelude.{◌≡◌, ◌<◌, ◌≤◌, ◌++◌, ◌∷◌, [], length, vec_len, drop, slice_get, IsSome, None};
ghost use Rattle.rmm_spec.specs.Cell.{put};
ghost use Rattle.rmm_spec.specs.World.{GivenUp, without_granule, phase_learnt};
ghost use Rattle.command_core.specs.Seen.{place_of};
ghost use Rattle.world.specs.Cpus.{views_of, phase_in, is_going, is_deciding};

use crate::phase::Phase;
use arrayvec::ArrayVec;
use command_core::CpuPlace;
use memory_map::Pa;
use rmi_view::copied_command;
use rmm_spec::Command;

/// One CPU: what it holds in the order in which it took it, and its program, of which it has called the first commands.
#[derive(Drop)]
pub(crate) struct Cpu {
    pub(crate) taken: ArrayVec<Pa, 6>,
    pub(crate) place: CpuPlace,
    pub(crate) phase: Phase,
    pub(crate) program: Vec<Command>,
    pub(crate) called: usize,
    pub(crate) waits: Option<Pa>,
}

/// All CPUs, by their numbers.
#[derive(Drop)]
pub(crate) struct Cpus {
    pub(crate) list: Vec<Cpu>,
}

#[tactic(auto, unfolding(crate::specs::Cpus::views_of))]
impl Cpus {
    /// A CPU comes to another phase, and waits for nothing.
    pub(crate) fn come_to(&mut self, cpu: u8, phase: Phase)
        requires { cpu < vec_len self.old.list }
        ensures size { vec_len self.new.list ≡ vec_len self.old.list }
        ensures views { views_of self.new ≡ record (views_of self.old) {
          waits = put (views_of self.old).waits cpu None;
          phase = put (views_of self.old).phase cpu (phase_in phase);
        } }
    {
        let cpu = &mut self.list[cpu as usize];
        cpu.phase = phase;
        cpu.waits = None;
    }

    /// A CPU has taken a granule's lock.
    pub(crate) fn take(&mut self, cpu: u8, pa: Pa)
        requires cpu { cpu < vec_len self.old.list }
        requires room { length ((views_of self.old).taken cpu) < 6 }
        ensures size { vec_len self.new.list ≡ vec_len self.old.list }
        ensures views { views_of self.new ≡ record (views_of self.old) {
          waits = put (views_of self.old).waits cpu None;
          taken = put (views_of self.old).taken cpu ((views_of self.old).taken cpu ++ pa ∷ []);
        } }
    {
        let cpu = &mut self.list[cpu as usize];
        cpu.taken.push(pa);
        cpu.waits = None;
    }

    /// A CPU has freed a granule's lock, and has learnt something, or nothing, as it did.
    pub(crate) fn free(&mut self, cpu: u8, pa: Pa, learnt: Option<Pa>)
        requires { cpu < vec_len self.old.list }
        ensures size { vec_len self.new.list ≡ vec_len self.old.list }
        ensures views { views_of self.new ≡ record (views_of self.old) {
          waits = put (views_of self.old).waits cpu None;
          taken = put (views_of self.old).taken cpu (without_granule pa ((views_of self.old).taken cpu));
          phase = put (views_of self.old).phase cpu (phase_learnt learnt ((views_of self.old).phase cpu));
        } }
    {
        let cpu = &mut self.list[cpu as usize];
        cpu.taken.retain(|other| *other != pa);
        cpu.phase.learn(learnt);
        cpu.waits = None;
    }

    /// A CPU has given up, and holds no lock any more.
    pub(crate) fn give_up(&mut self, cpu: u8)
        requires { cpu < vec_len self.old.list }
        ensures size { vec_len self.new.list ≡ vec_len self.old.list }
        ensures views { views_of self.new ≡ record (views_of self.old) {
          waits = put (views_of self.old).waits cpu None;
          taken = put (views_of self.old).taken cpu [];
          phase = put (views_of self.old).phase cpu GivenUp;
        } }
    {
        let cpu = &mut self.list[cpu as usize];
        cpu.taken.clear();
        cpu.phase = Phase::GivenUp;
        cpu.waits = None;
    }

    /// A CPU is elsewhere.
    pub(crate) fn set_place(&mut self, cpu: u8, place: CpuPlace)
        requires { cpu < vec_len self.old.list }
        ensures size { vec_len self.new.list ≡ vec_len self.old.list }
        ensures views { views_of self.new ≡ record (views_of self.old) { place = put (views_of self.old).place cpu (place_of place) } }
    {
        self.list[cpu as usize].place = place;
    }

    /// What a CPU waits for is another.
    pub(crate) fn set_waits(&mut self, cpu: u8, waits: Option<Pa>)
        requires { cpu < vec_len self.old.list }
        ensures size { vec_len self.new.list ≡ vec_len self.old.list }
        ensures views { views_of self.new ≡ record (views_of self.old) { waits = put (views_of self.old).waits cpu waits } }
    {
        self.list[cpu as usize].waits = waits;
    }

    /// The locks that a CPU has taken.
    pub(crate) fn taken(&self, cpu: u8) -> &[Pa]
        requires { cpu < vec_len self.now.list }
        ensures taken { result.now ≡ (views_of self.now).taken cpu }
        ensures few { length result.now ≤ 6 }
    {
        &self.list[cpu as usize].taken
    }

    /// What a CPU waits for.
    pub(crate) fn waits(&self, cpu: u8) -> Option<Pa>
        requires { cpu < vec_len self.now.list }
        ensures { result ≡ (views_of self.now).waits cpu }
    {
        self.list[cpu as usize].waits
    }

    /// How far a CPU has come.
    pub(crate) fn phase(&self, cpu: u8) -> &Phase
        requires { cpu < vec_len self.now.list }
        ensures { phase_in result.now ≡ (views_of self.now).phase cpu }
    {
        &self.list[cpu as usize].phase
    }

    /// Where a CPU is.
    pub(crate) fn place(&self, cpu: u8) -> &CpuPlace
        requires { cpu < vec_len self.now.list }
        ensures { place_of result.now ≡ (views_of self.now).place cpu }
    {
        &self.list[cpu as usize].place
    }

    /// Whether a CPU hasn't ended.
    pub(crate) fn is_going(&self, cpu: u8) -> bool
        requires { cpu < vec_len self.now.list }
        ensures { result ≡ is_going ((views_of self.now).phase cpu) }
    {
        self.list[cpu as usize].phase.is_going()
    }

    /// Whether a CPU has an open call that isn't committed.
    pub(crate) fn is_deciding(&self, cpu: u8) -> bool
        requires { cpu < vec_len self.now.list }
        ensures { result ≡ is_deciding ((views_of self.now).phase cpu) }
    {
        self.list[cpu as usize].phase.is_deciding()
    }

    /// The next command of a CPU's program, where one is left.
    pub(crate) fn next_command(&self, cpu: u8) -> Option<Command>
        requires { cpu < vec_len self.now.list }
        ensures { result ≡ slice_get ((views_of self.now).program cpu) 0 }
    {
        let cpu = &self.list[cpu as usize];
        let called = cpu.called;
        let count = cpu.program.len();
        if called >= count {
            return None;
        }
        let command = &cpu.program[called];
        Some(copied_command(command))
    }

    /// A CPU's next command is called.
    pub(crate) fn open_call(&mut self, cpu: u8, phase: Phase)
        requires cpu { cpu < vec_len self.old.list }
        requires left { IsSome (slice_get ((views_of self.old).program cpu) 0) }
        ensures size { vec_len self.new.list ≡ vec_len self.old.list }
        ensures views { views_of self.new ≡ record (views_of self.old) {
          waits = put (views_of self.old).waits cpu None;
          phase = put (views_of self.old).phase cpu (phase_in phase);
          program = put (views_of self.old).program cpu (drop 1 ((views_of self.old).program cpu));
        } }
    {
        let cpu = &mut self.list[cpu as usize];
        cpu.called += 1;
        cpu.phase = phase;
        cpu.waits = None;
    }
}
