//! A REC asks its host for a RIPAS, and its host carries the request out in parts.

ghost use Rattle.std.specs.Prelude.{◌≡◌, is_some, IsTrue};
ghost use Rattle.rmm_spec.specs.declared.change.RecUpdate.TheVariants.{RipasRequested, RequestMoved};
ghost use Rattle.rmm_spec.specs.Change.{rec_updated};
ghost use Rattle.rmm_spec.specs.Lookup.{request_of};

use crate::pending_exit::PendingExit;
use crate::rec::Rec;
use crate::ripas_request::RipasRequest;
use rmm_spec::Ripas;

#[tactic(auto, unfolding(crate::specs::View::rec_record, rmm_spec::specs::Change::rec_updated))]
impl Rec {
    /// It asks for the RIPAS of the stretch from `base` up to `top`, and waits to leave.
    pub fn request_ripas(&mut self, base: u64, top: u64, ripas: Ripas)
        ensures { self.new ≡ rec_updated (RipasRequested base top ripas) self.old }
    {
        self.request = Some(RipasRequest { base, top, ripas });
        self.pending = Some(PendingExit::RipasChange);
    }

    /// How far what it asked for is done, and 0 where it asked for nothing.
    pub fn reached(&self) -> u64
        ensures { result ≡ (request_of self.now).base }
    {
        match self.request {
            None => 0,
            Some(request) => request.base,
        }
    }

    /// What it asked for is done up to this address.
    pub fn move_request(&mut self, base: u64)
        requires { IsTrue (is_some self.old.request) }
        ensures { self.new ≡ rec_updated (RequestMoved base) self.old }
    {
        let Some(request) = self.request else {
            unreachable!()
        };
        self.request = Some(RipasRequest { base, ..request });
    }
}
