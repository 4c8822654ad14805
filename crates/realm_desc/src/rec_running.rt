//! A REC begins to run, and stops.

ghost use Rattle.std.specs.Prelude.{◌≡◌};
ghost use Rattle.rmm_spec.specs.declared.change.RecUpdate.TheVariants.{Entered, Exited};
ghost use Rattle.rmm_spec.specs.Change.{rec_updated};

use crate::rec::Rec;

#[tactic(auto, unfolding(crate::specs::View::rec_record, rmm_spec::specs::Change::rec_updated))]
impl Rec {
    /// It runs on the CPU from now on, and what it asked for is done with.
    pub fn enter(&mut self, cpu: u8)
        ensures { self.new ≡ rec_updated (Entered cpu) self.old }
    {
        self.cpu = Some(cpu);
        self.request = None;
    }

    /// It runs no longer, and nothing is pending. What it asked for still stands.
    pub fn exit(&mut self)
        ensures { self.new ≡ rec_updated Exited self.old }
    {
        self.cpu = None;
        self.pending = None;
    }
}
