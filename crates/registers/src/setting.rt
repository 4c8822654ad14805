//! What is read at each place.

use history::History;
use std::alloc::Global;

/// A history, and for each granule the realm that a REC there is first asked for.
#[derive(Clone, Copy)]
pub(crate) struct Setting<'h> {
    pub(crate) alloc: Global,
    pub(crate) history: &'h History,
    pub(crate) owners: &'h [Option<u64>],
}
