//! What a change makes of a REC's record.

ghost use Rattle.std.specs.Prelude.{◌≡◌};
ghost use Rattle.rmm_spec.specs.Change.{rec_updated};
ghost use Rattle.realm_desc.specs.Updates.{IsRecUpdate};

use crate::rec::Rec;
use rmm_spec::RecUpdate;

impl Rec {
    /// Makes the update. A request can be moved where there is one.
    pub fn update(&mut self, update: RecUpdate)
        requires { IsRecUpdate self.old update }
        ensures { self.new ≡ rec_updated update self.old }
    {
        match update {
            RecUpdate::Entered { cpu } => self.enter(cpu),
            RecUpdate::Exited => self.exit(),
            RecUpdate::RipasRequested { base, top, ripas } => self.request_ripas(base, top, ripas),
            RecUpdate::HostCalled { imm } => self.call_host(imm),
            RecUpdate::TurnedOff => self.turn_off(),
            RecUpdate::SystemTurnedOff => self.turn_system_off(),
            RecUpdate::RequestMoved { base } => self.move_request(base),
        }
    }
}
