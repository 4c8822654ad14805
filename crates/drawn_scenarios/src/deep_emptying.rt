//! A realm with tables is emptied and destroyed.

use crate::deep_words::{HALF, Listed, Word};
use Word::{Granule as G, Plain as P};
use rmm_spec::FunctionId;

/// Its REC goes, pages are taken out and one is given once more, and tables are folded and destroyed.
pub(crate) const EMPTYING: &[Listed] = &[
    (FunctionId::RecDestroy, &[G(7)]),
    (FunctionId::DataDestroy, &[G(0), P(0x1000)]),
    (FunctionId::DataCreateUnknown, &[G(0), G(6), P(0x1000)]),
    (FunctionId::DataDestroy, &[G(0), P(0x1000)]),
    (FunctionId::RttUnmapUnprotected, &[G(0), P(HALF)]),
    (FunctionId::RttFold, &[G(0), P(HALF), P(3)]),
    (FunctionId::RttDestroy, &[G(0), P(HALF), P(2)]),
    (FunctionId::RttDestroy, &[G(0), P(0), P(3)]),
    (FunctionId::RttDestroy, &[G(0), P(0), P(2)]),
    (FunctionId::RealmDestroy, &[G(0)]),
];
