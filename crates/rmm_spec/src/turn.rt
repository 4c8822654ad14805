//! What a world's CPUs are told, turn by turn.

/// What a CPU is told.
#[derive(Clone, Copy)]
pub enum Will {
    /// To do its next step.
    Go,
    /// To free its locks and end, where its call is open and not committed.
    GiveUp,
    /// To end where it stands. It keeps its locks.
    Stop,
}

/// A turn that is due: which CPU has it, and what the CPU is told.
#[derive(Clone, Copy)]
pub struct Due {
    pub cpu: u8,
    pub will: Will,
}
