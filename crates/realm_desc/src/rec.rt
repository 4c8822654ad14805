//! A REC, one virtual CPU of a realm.

ghost use Rattle.std.specs.Prelude.{◌≡◌, ◌==◌, ◌&&◌, false, is_none};
ghost use Rattle.rmm_spec.specs.Change.{new_rec};
ghost use Rattle.realm_desc.specs.View.{pending_of};

use crate::pending_exit::PendingExit;
use crate::ripas_request::RipasRequest;
use memory_map::Pa;
use std::marker::Model;

/// A REC, as its granule and its two auxiliary granules keep it (DEN0137, REC).
#[tactic(auto, unfolding(crate::specs::View::rec_record, crate::specs::View::rec_fields))]
#[derive(Clone, Copy)]
pub struct Rec {
    /// The realm that it belongs to, by the address of its descriptor.
    pub owner: Pa,
    pub index: u8,
    pub aux0: Pa,
    pub aux1: Pa,
    pub runnable: bool,
    /// The CPU that it runs on, where it runs.
    pub cpu: Option<u8>,
    pub request: Option<RipasRequest>,
    pub pending: Option<PendingExit>,
}

impl Model for Rec {
    ghost use Rattle.std.specs.Prelude.{◌≡◌, ◌==◌, false};
    ghost use Rattle.rmm_spec.specs.State.{RecRecord};

    ghost Value = { RecRecord };

    ghost use Rattle.realm_desc.specs.View.{rec_record, rec_fields, rec_fields-rec_record};

    ghost view = { rec_record };

    // its two auxiliary granules are two
    ghost invariant = { λ r. (r.aux0 == r.aux1) ≡ false };

    ghost inverse = { rec_fields };

    ghost inverse_ok = { λ a h. rec_fields-rec_record a };
}

#[tactic(auto, unfolding(crate::specs::View::rec_record))]
impl Rec {
    /// A REC that was just made: it runs on no CPU, and asks for nothing. It may run where the flags are 1.
    pub fn new(owner: Pa, index: u8, flags: u64, aux0: Pa, aux1: Pa) -> Self
        requires two { (aux0 == aux1) ≡ false }
        ensures { result ≡ new_rec owner index flags aux0 aux1 }
    {
        Rec {
            owner,
            index,
            aux0,
            aux1,
            runnable: flags == 1,
            cpu: None,
            request: None,
            pending: None,
        }
    }

    /// Whether it runs on no CPU.
    pub fn is_ready(&self) -> bool
        ensures { result ≡ is_none self.now.cpu }
    {
        self.cpu.is_none()
    }

    /// Whether it may be entered while it runs on no CPU.
    pub fn is_runnable(&self) -> bool
        ensures { result ≡ self.now.runnable }
    {
        self.runnable
    }

    /// Whether it may give a realm call: not while an exit is pending.
    pub fn can_call(&self) -> bool
        ensures { result ≡ is_none self.now.pending }
    {
        self.pending.is_none()
    }
}
