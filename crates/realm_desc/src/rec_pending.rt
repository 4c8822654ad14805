//! Why a REC is to leave to its host, beside a RIPAS that it asks for.

ghost use Rattle.std.specs.Prelude.{◌≡◌};
ghost use Rattle.rmm_spec.specs.declared.change.RecUpdate.TheVariants.{HostCalled, TurnedOff, SystemTurnedOff};
ghost use Rattle.rmm_spec.specs.Change.{rec_updated};

use crate::pending_exit::PendingExit;
use crate::rec::Rec;
use rmm_spec::FunctionId;

#[tactic(auto, unfolding(crate::specs::View::rec_record, rmm_spec::specs::Change::rec_updated, rmm_spec::specs::Function::number_of))]
impl Rec {
    /// It calls its host with a number.
    pub fn call_host(&mut self, imm: u16)
        ensures { self.new ≡ rec_updated (HostCalled imm) self.old }
    {
        self.pending = Some(PendingExit::HostCall(imm));
    }

    /// It may not be entered again.
    pub fn turn_off(&mut self)
        ensures { self.new ≡ rec_updated TurnedOff self.old }
    {
        self.runnable = false;
        self.pending = Some(PendingExit::Psci(FunctionId::CpuOff.number() as u32));
    }

    /// It leaves because its realm is turned off.
    pub fn turn_system_off(&mut self)
        ensures { self.new ≡ rec_updated SystemTurnedOff self.old }
    {
        self.pending = Some(PendingExit::Psci(FunctionId::SystemOff.number() as u32));
    }
}
