//! What a CPU does next.

use memory_map::Pa;

/// What a CPU does next for a command that it hasn't committed.
#[derive(Clone, Copy)]
pub enum Next {
    /// It takes the lock of a granule.
    Take(Pa),
    /// It frees a granule that it holds. An Enter that frees its REC may learn which realm that belongs to.
    Free(Pa, Option<Pa>),
    /// It commits on what it holds.
    Ready,
}
