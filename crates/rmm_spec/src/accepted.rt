//! What a command is answered where no row refuses it.

use crate::change::Change;
use crate::tag::Ripas;
use arrayvec::ArrayVec;

/// Why the RIPAS of a stretch is set.
#[derive(Clone, Copy)]
pub enum StretchUse {
    /// A realm that was not activated yet is told what is memory.
    Init,
    /// A REC, by its address, asked for this RIPAS.
    Requested { rec: u64, ripas: Ripas },
}

/// A stretch of protected memory that begins at base, in one table of the level, and ends by top. How far one command
/// gets is the monitor's choice.
#[derive(Clone, Copy)]
pub struct Stretch {
    pub rd: u64,
    pub base: u64,
    pub top: u64,
    pub level: u8,
    pub purpose: StretchUse,
}

/// What is done where each row of a command holds.
#[derive(Drop)]
pub enum Accepted {
    /// The reply has these words, and this is changed.
    Done {
        words: ArrayVec<u64, 10>,
        change: Change,
    },
    /// The reply has the end of the stretch that was reached: any end that the definition allows.
    Reaches(Stretch),
}
