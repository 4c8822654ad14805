//! What a world tells of its run, and what holds of every world.

ghost use Rattle.std.specs.Prelude.{◌≡◌, ℕ, ◌<◌, length, IfOk, OnErr, Some, Contains};
ghost use Rattle.rmm_spec.specs.Linearization.{IsKnown};
ghost use Rattle.rmm_spec.specs.World.{HasOneHolder, IsCertified, history_of, certificate_of, line_for};
ghost use Rattle.rmm_spec.specs.Waits.{HasNoCircle, WaitsAt, Blocked, AreRising, Wants, WaitsBehindStopped};
ghost use Rattle.rmi_view.specs.Seen.{HasFewWords, reply_seen};
ghost use Rattle.command_log.specs.Log.{logged_seen};
ghost use Rattle.world.specs.Journal.{commitment_of};
ghost use Rattle.world.specs.Next.{go_report, blocking, StandsStill};
ghost use Rattle.world.specs.World.{world_of, waits_of};

use crate::journal::Caller;
use crate::world::World;
use certificate::Certificate;
use command_log::Logged;
use history::History;
use rmm_spec::Line;
use std::alloc::{AllocError, Global};
use world_laws::{every_run_is_certified, no_wait_cycle, stuck_behind_stopped};

impl World {
    /// All calls and returns so far. Without any no memory is taken.
    #[tactic(auto, unfolding(crate::specs::World::world_of, crate::specs::Whole::world_from))]
    pub fn history(&self, alloc: Global) -> Result<History, AllocError>
        ensures recorded { IfOk result (λ history. history.recorded ≡ history_of (world_of self.now)) }
        ensures refused { OnErr result (0 < length (world_of self.now).events) }
    {
        if self.history.is_empty() {
            return Ok(History::new(alloc, self.history.config()));
        }
        self.history.copy(alloc)
    }

    /// The journal so far: a kept line for a commit whose return is recorded, and an unfinished one with its reply for any other.
    /// Without commits no memory is taken.
    #[tactic(auto, unfolding(crate::specs::World::world_of, crate::specs::Whole::world_from))]
    pub fn certificate(&self, alloc: Global) -> Result<Certificate, AllocError>
        ensures lines { IfOk result (λ certificate. certificate.lines ≡ certificate_of (world_of self.now)) }
        ensures refused { OnErr result (0 < length (world_of self.now).journal) }
    {
        let _fact = self.history.well_formed();
        let mut lines = Certificate::new(alloc);
        for place in 0..self.journal.len() {
            let commit = self.journal.commit(place);
            lines.push(line_for(&self.history, commit))?;
        }
        Ok(lines)
    }

    /// What holds of every value: its journal is a linearization of its history that leads to the cells as they are, no two CPUs
    /// hold one lock and none wait in a circle. A go would be blocked at a rising take alone. Where a CPU's last turn was blocked,
    /// its go would be so again while another holds that lock. And where no CPU's go would make a move, each chain of waits ends
    /// at a CPU that was stopped: without a stop each has given up or returned all its calls.
    pub fn well_formed(&self)
        ensures certified { ∥ IsCertified (world_of self.now) ∥₁ }
        ensures one { HasOneHolder (world_of self.now) }
        ensures acyclic { HasNoCircle (world_of self.now) }
        ensures rising { AreRising (world_of self.now) (Wants (blocking (world_of self.now))) }
        ensures waiting { (cpu granule other : ℕ) → waits_of self.now cpu ≡ Some granule
            → Contains ((world_of self.now).taken other) granule → ∥ WaitsAt (world_of self.now) cpu granule other ∥₁ }
        ensures again { (cpu granule other : ℕ) → waits_of self.now cpu ≡ Some granule
            → Contains ((world_of self.now).taken other) granule → go_report (world_of self.now) cpu ≡ Blocked granule }
        ensures still { StandsStill (world_of self.now)
            → ∥ WaitsBehindStopped (world_of self.now) (Wants (blocking (world_of self.now))) ∥₁ }
    {
        let _fact = every_run_is_certified();
        let _fact = no_wait_cycle();
        let _fact = stuck_behind_stopped();
        let _fact = &self.history;
    }
}

// The line of a commit. Its call and its return are looked up by their index.
fn line_for(history: &History, commit: Logged<'_, Caller>) -> Line
    requires known { ¬ ¬ IsKnown history.now.recorded.events commit.mark.cpu commit.mark.number }
    requires few { HasFewWords (reply_seen commit.reply) }
    ensures { result ≡ line_for history.now.recorded.events (commitment_of (logged_seen commit.entry)) }
{
    let Caller { cpu, number } = commit.mark;
    let Some(places) = history.places_of(cpu, number) else {
        unreachable!()
    };
    match places.returned {
        Some(_) => Line::Keep { cpu, number },
        None => Line::Unfinished {
            cpu,
            number,
            reply: commit.reply.to_reply(),
        },
    }
}
