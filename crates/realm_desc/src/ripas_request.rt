//! What a REC asks of its host.

use rmm_spec::Ripas;
use std::marker::Model;

/// That the stretch from `base` up to but not `top` gets this RIPAS (DEN0137, RSI_IPA_STATE_SET).
#[derive(Clone, Copy)]
pub struct RipasRequest {
    pub base: u64,
    pub top: u64,
    pub ripas: Ripas,
}

impl Model for RipasRequest {
    ghost use Rattle.rmm_spec.specs.State.{Request};

    ghost Value = { Request };

    ghost view = { λ r. record { base = r.base; top = r.top; ripas = r.ripas } };

    ghost inverse = { λ r. record { base = r.base; top = r.top; ripas = r.ripas } };
}
