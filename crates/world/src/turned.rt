//! What a turn reports.

use memory_map::Pa;

/// The seven kinds of step.
#[derive(Clone, Copy)]
pub enum Kind {
    Call,
    Take,
    Free,
    Commit,
    GiveUp,
    Return,
    Stop,
}

/// What a turn reports.
#[derive(Clone, Copy)]
pub enum Turned {
    /// The step that was made.
    Did(Kind),
    /// Another CPU holds this granule's lock, which comes next. Nothing changed.
    Blocked(Pa),
    /// There was nothing to do. Nothing changed.
    Idle,
}
