//! The REC of a realm with tables runs.

use crate::deep_words::{Listed, Word};
use Word::{Granule as G, Plain as P};
use rmm_spec::FunctionId;

/// It reads and extends measurements, asks for memory, calls its host, and turns itself off.
pub(crate) const RUNNING: &[Listed] = &[
    (FunctionId::RecEnter, &[G(7)]),
    (FunctionId::MeasurementRead, &[P(0)]),
    (FunctionId::IpaStateGet, &[P(0x1000)]),
    (FunctionId::IpaStateSet, &[P(0x2000), P(0x4000), P(1)]),
    (FunctionId::Exit, &[]),
    (FunctionId::RttSetRipas, &[G(0), G(7), P(0x2000), P(0x4000)]),
    (FunctionId::RecEnter, &[G(7)]),
    (
        FunctionId::MeasurementExtend,
        &[P(1), P(8), P(1), P(0), P(0), P(0), P(0), P(0), P(0), P(0)],
    ),
    (FunctionId::RealmConfig, &[]),
    (FunctionId::HostCall, &[P(2)]),
    (FunctionId::Exit, &[]),
    (FunctionId::RecEnter, &[G(7)]),
    (FunctionId::CpuOff, &[]),
    (FunctionId::Exit, &[]),
];
