//! A realm with tables is made.

use crate::deep_words::{HALF, Listed, Word};
use Word::{Granule as G, Plain as P, Vmid as V};
use rmm_spec::FunctionId;

/// Its descriptor, root, tables of levels 2 and 3 in each half, a REC, a page, and one of the host's.
pub(crate) const MAKING: &[Listed] = &[
    (
        FunctionId::RealmCreate,
        &[G(0), G(1), P(0x27), P(1), V, P(0)],
    ),
    (FunctionId::RttCreate, &[G(0), G(2), P(0), P(2)]),
    (FunctionId::RttCreate, &[G(0), G(3), P(0), P(3)]),
    (FunctionId::RttCreate, &[G(0), G(4), P(HALF), P(2)]),
    (FunctionId::RttCreate, &[G(0), G(5), P(HALF), P(3)]),
    (FunctionId::RecCreate, &[G(0), G(7), P(0), P(1), G(8), G(9)]),
    (FunctionId::RttInitRipas, &[G(0), P(0), P(0x2000)]),
    (
        FunctionId::DataCreate,
        &[G(0), G(6), P(0x1000), P(0), P(1), P(7), P(0), P(0), P(9)],
    ),
    (FunctionId::RttMapUnprotected, &[G(0), P(HALF), P(0x5000)]),
    (FunctionId::RttReadEntry, &[G(0), P(0x1000), P(3)]),
    (FunctionId::RealmActivate, &[G(0)]),
];
